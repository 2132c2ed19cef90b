//! The lines of a transcript, and their marks.
ghost use Rattle.std.specs.{Prelude.{◌≡◌, ◌≤◌, ℕ, List, ◌++◌, drop, length, slice_get, IfOk, IfErr, IfSome, IfNone}, Option.{option_copied}};
ghost use Rattle.transcript_check.specs.{Heads.{head, heads, SpellMarks, IsMarked}, Verdicts.{joined_lines}, MarkedLines.{line_texts, marks_of, WasUnspelled}};
ghost use Rattle.transcript_check.specs.declared.lines.LineFault.TheVariants as fault;

use crate::heads::mark_in;
use map_items::NoMemory;
use memchr::memchr;
use scan_log::Command;
use std::alloc::{AllocFailed, Global};

#[derive(Clone, Copy)]
pub struct MarkedLine<'a> {
    pub mark: u32,
    /// With its line feed.
    pub line: &'a [u8],
}

/// Why not all lines were read.
#[derive(Clone, Copy, Debug, PartialEq, Eq)]
pub enum LineFault {
    /// A line is missing or spells no mark, or there is one line too many.
    Unspelled {
        /// How many lines are before it.
        before: usize,
    },
    NoMemory,
}

impl<T: Drop> From<AllocFailed<T>> for LineFault {
    ghost from_gives = { λ _ e. e ≡ fault.NoMemory };

    fn from(_failed: AllocFailed<T>) -> LineFault {
        LineFault::NoMemory
    }
}

/// Each line of the commands' replies, with its mark.
pub fn read_marked_lines<'a>(
    alloc: Global,
    commands: &[Command],
    transcript: &'a [u8],
) -> Result<Vec<MarkedLine<'a>>, LineFault>
    ensures all { IfOk result (λ marked_lines. transcript.now ≡ joined_lines (line_texts marked_lines.items)) }
    ensures marks { IfOk result (λ marked_lines. SpellMarks (heads commands.now) (line_texts marked_lines.items) (marks_of marked_lines.items)) }
    ensures stopped { IfErr result (WasUnspelled commands.now transcript.now) }
{
    let mut marked_lines = Vec::new(alloc);
    let mut rest = transcript;
    for place in 0..commands.len() + 1 {
        let Some(next) = first_marked_line(command_at(commands, place), rest) else {
            return Err(LineFault::Unspelled { before: place });
        };
        marked_lines.push(next)?;
        rest = behind(rest, next.line.len());
    }
    if rest.is_empty() {
        Ok(marked_lines)
    } else {
        Err(LineFault::Unspelled {
            before: marked_lines.len(),
        })
    }
}

/// The command of this index, or `None` for the end.
pub fn command_at(commands: &[Command], place: usize) -> Option<&Command>
    ensures { option_copied result ≡ slice_get commands.now place }
{
    commands.get(place)
}

/// `None` where the first line is missing or spells no mark.
fn first_marked_line<'a>(command: Option<&Command>, bytes: &'a [u8]) -> Option<MarkedLine<'a>>
    ensures marked { IfSome result (λ t. IsMarked (head (option_copied command.entry)) t.line.now t.mark) }
    ensures front { IfSome result (λ t. bytes.now ≡ t.line.now ++ drop (length t.line.now) bytes.now) }
    ensures within { IfSome result (λ t. length t.line.now ≤ length bytes.now) }
    ensures none { IfNone result ((line behind : List ℕ) (m : ℕ) → bytes.now ≡ line ++ behind → IsMarked (head (option_copied command.entry)) line m → ⊥) }
{
    let end = memchr(b'\n', bytes)?;
    let mark = mark_in(command, &bytes[..end])?;
    Some(MarkedLine {
        mark,
        line: &bytes[..end + 1],
    })
}

fn behind(bytes: &[u8], len: usize) -> &[u8]
    requires { len ≤ length bytes.now }
    ensures { result.now ≡ drop len bytes.now }
{
    &bytes[len..]
}
