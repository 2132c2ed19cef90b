//! The verdict on a transcript.
ghost use Rattle.std.specs.Prelude.{◌≡◌, ◌+◌, ◌≤◌, ◌↔◌, IfOk};
ghost use Rattle.scan_log.specs.Legal.{AreLegalLines};
ghost use Rattle.transcript_check.specs.{declared.verdict.Verdict.{Verdict}, Heads.{SpellMarks, heads}, MarkedLines.{line_texts, marks_of}};
ghost use Rattle.transcript_check.specs.Verdicts.{IsVerdict, joined_lines};

use crate::held_map::HeldMap;
use crate::legality::are_legal;
use crate::lines::{LineFault, MarkedLine, read_marked_lines};
use crate::order::updates_by_mark;
use crate::replaying::first_other;
use crate::tree_map::TreeMap;
use crate::verdict::Verdict;
use map_fold::PlainMap;
use map_items::NoMemory;
use scan_log::{PlainScript, Script};
use std::alloc::Global;

/// The verdict on a transcript of the script. The text is read once; then the updates are replayed on a tree in the order of their
/// marks, with each query between them, as in a run. Takes memory for a copy of the script, the tree, the marks, and one reply at a
/// time.
pub fn check(alloc: Global, script: &Script, transcript: &[u8]) -> Result<Verdict, NoMemory>
    ensures verdict { IfOk result (IsVerdict script.now transcript.now) }

    // No other verdict is true of it.
    ensures only { IfOk result (λ v. (w : Verdict) → IsVerdict script.now transcript.now w → w ≡ v) }

    // So it is legal exactly where its lines are those of legal replies.
    ensures legal { IfOk result (λ v. (v ≡ Verdict.Legal) ↔ AreLegalLines script.now transcript.now) }
{
    check_on::<TreeMap>(alloc, script, transcript)
}

/// As `check`, on the plain map, which scans all items at each update and query: slow, and plain enough to check `check` by.
pub fn check_plainly(alloc: Global, script: &Script, transcript: &[u8]) -> Result<Verdict, NoMemory>
    ensures verdict { IfOk result (IsVerdict script.now transcript.now) }

    ensures only { IfOk result (λ v. (w : Verdict) → IsVerdict script.now transcript.now w → w ≡ v) }

    ensures legal { IfOk result (λ v. (v ≡ Verdict.Legal) ↔ AreLegalLines script.now transcript.now) }
{
    check_on::<PlainMap>(alloc, script, transcript)
}

fn check_on<M: HeldMap>(
    alloc: Global,
    script: &Script,
    transcript: &[u8],
) -> Result<Verdict, NoMemory>
    ensures verdict { IfOk result (IsVerdict script.now transcript.now) }

    ensures only { IfOk result (λ v. (w : Verdict) → IsVerdict script.now transcript.now w → w ≡ v) }

    ensures legal { IfOk result (λ v. (v ≡ Verdict.Legal) ↔ AreLegalLines script.now transcript.now) }
{
    match read_marked_lines(alloc, script.commands(), transcript) {
        Ok(marked_lines) => verdict_on::<M>(alloc, script, marked_lines.as_slice()),
        Err(LineFault::Unspelled { before }) => Ok(Verdict::Unspelled {
            line: number_of(before),
        }),
        Err(LineFault::NoMemory) => Err(NoMemory),
    }
}

// Where each line spells a mark.
fn verdict_on<M: HeldMap>(
    alloc: Global,
    script: &Script,
    marked_lines: &[MarkedLine],
) -> Result<Verdict, NoMemory>
    requires { SpellMarks (heads script.now.commands) (line_texts marked_lines.now) (marks_of marked_lines.now) }
    ensures { IfOk result (IsVerdict script.now (joined_lines (line_texts marked_lines.now))) }
{
    let plain = PlainScript::copied(alloc, script)?;
    let commands = plain.commands();
    let updates = updates_by_mark(alloc, commands, marked_lines)?;
    if !are_legal(commands, marked_lines, updates.as_slice()) {
        return Ok(Verdict::Marks);
    }
    match first_other::<M>(alloc, &plain, marked_lines, updates.as_slice())? {
        Some(place) => Ok(Verdict::Differs {
            line: number_of(place),
        }),
        None => Ok(Verdict::Legal),
    }
}

// Counted from 1.
fn number_of(place: usize) -> u32
    requires { place ≤ 65537 }
    ensures { result ≡ place + 1 }
{
    place as u32 + 1
}
