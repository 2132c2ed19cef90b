//! The mark that a line spells.
ghost use Rattle.std.specs.{Prelude.{◌≡◌, ℕ, List, ◌++◌, MatchOption, Some}, Option.{option_copied}};
ghost use Rattle.log_numbers.specs.Numerals.{first_field};
ghost use Rattle.scan_log.specs.Spelling.{caller_field};
ghost use Rattle.transcript_check.specs.Heads.{head, SpellsMark};

use itoa::Buffer;
use memchr::memchr;
use scan_log::{Command, natural_in};

const MAX_MARK: u32 = 65_536;

/// The mark of a line, which comes without its line feed. `command` is `None` for the line at the end.
pub fn mark_in(command: Option<&Command>, line: &[u8]) -> Option<u32>
    ensures { MatchOption result ((m : ℕ) → SpellsMark (head (option_copied command.entry)) line.now m → ⊥)
        (λ m. SpellsMark (head (option_copied command.entry)) line.now m) }
{
    let behind = after_head(command, line)?;
    natural_in(0, MAX_MARK, field(behind)).ok()
}

// What comes after the head of the command's reply.
fn after_head<'a>(command: Option<&Command>, line: &'a [u8]) -> Option<&'a [u8]>
    ensures { MatchOption result ((rest : List ℕ) → line.now ≡ head (option_copied command.entry) ++ rest → ⊥)
        (λ rest. line.now ≡ head (option_copied command.entry) ++ rest.now) }
{
    match command {
        Some(command) => after_answer(command, line),
        None => after(b"end ", line),
    }
}

fn after_answer<'a>(command: &Command, line: &'a [u8]) -> Option<&'a [u8]>
    ensures { MatchOption result ((rest : List ℕ) → line.now ≡ head (Some command.now) ++ rest → ⊥)
        (λ rest. line.now ≡ head (Some command.now) ++ rest.now) }
{
    match command {
        Command::Change { caller, .. } => after_caller(*caller, b" ok ", line),
        Command::Near { caller, .. } => after_caller(*caller, b" near ", line),
        Command::Nears { caller, .. } => after_caller(*caller, b" nears ", line),
        Command::Inside { caller, .. } => after_caller(*caller, b" box ", line),
        Command::Ball { caller, .. } => after_caller(*caller, b" ball ", line),
        Command::Lonely { caller, .. } => after_caller(*caller, b" lonely ", line),
        Command::Clusters { caller, .. } => after_caller(*caller, b" clusters ", line),
        Command::Pose { caller, .. } => after_caller(*caller, b" ok ", line),
        Command::Sync => after(b"sync ", line),
    }
}

fn after_caller<'a>(caller: u8, word: &[u8], line: &'a [u8]) -> Option<&'a [u8]>
    ensures { MatchOption result ((rest : List ℕ) → line.now ≡ caller_field caller ++ word.now ++ rest → ⊥)
        (λ rest. line.now ≡ caller_field caller ++ word.now ++ rest.now) }
{
    let mut number = Buffer::new();
    let named = after(b"@", line)?;
    let called = after(number.format(caller).as_bytes(), named)?;
    after(word, called)
}

fn after<'a>(front: &[u8], bytes: &'a [u8]) -> Option<&'a [u8]>
    ensures { MatchOption result ((rest : List ℕ) → bytes.now ≡ front.now ++ rest → ⊥)
        (λ rest. bytes.now ≡ front.now ++ rest.now) }
{
    bytes.strip_prefix(front)
}

// Up to the first space.
fn field(bytes: &[u8]) -> &[u8]
    ensures { result.now ≡ first_field bytes.now }
{
    match memchr(b' ', bytes) {
        Some(end) => &bytes[..end],
        None => bytes,
    }
}
