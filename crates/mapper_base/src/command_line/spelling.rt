//! The one spelling of what may be asked for.
ghost use Rattle.std.specs.Prelude.{◌≡◌, ◌≢◌, ◌↔◌, ◌≤◌, ◌∷◌, [], ℕ, true, decimal, IfSome, IfNone};
ghost use Rattle.mapper_base.specs.Asks.{spelled, texts};

use crate::command_line::words::Ask;
use itoa::Buffer;
use scan_log::natural_in;

const MAX_SCANS: u32 = 200;

/// In bytes.
pub const MAX_LOG: u32 = 268_435_456;

pub fn is_spelled(words: &[String], ask: Ask) -> bool
    ensures { (result ≡ true) ↔ (texts words.now ≡ spelled ask) }
{
    let mut number = Buffer::new();
    match ask {
        Ask::Run => is_one(words, "run"),
        Ask::Serial => are_two(words, "run", "--serial"),
        Ask::Make(n) => are_two(words, "make", number.format(n)),
        Ask::Drive(n) => are_two(words, "drive", number.format(n)),
        Ask::Check(n) => are_two(words, "check", number.format(n)),
    }
}

/// The number of scans, from 1 to 200, whose one spelling this is.
pub fn scans_of(text: &str) -> Option<u32>
    ensures some { IfSome result (λ n. (1 ≤ n) × (n ≤ MAX_SCANS) × (decimal n ≡ text.now)) }
    ensures none { IfNone result ((n : ℕ) → 1 ≤ n → n ≤ MAX_SCANS → decimal n ≢ text.now) }
{
    natural_in(1, MAX_SCANS, text.as_bytes()).ok()
}

/// The number of bytes whose one spelling this is, at most a log's.
pub fn length_of(text: &str) -> Option<u32>
    ensures some { IfSome result (λ n. (n ≤ MAX_LOG) × (decimal n ≡ text.now)) }
    ensures none { IfNone result ((n : ℕ) → n ≤ MAX_LOG → decimal n ≢ text.now) }
{
    natural_in(0, MAX_LOG, text.as_bytes()).ok()
}

fn is_one(words: &[String], first: &str) -> bool
    ensures { (result ≡ true) ↔ (texts words.now ≡ first.now ∷ []) }
{
    match words {
        [word] => word.as_str() == first,
        _ => false,
    }
}

fn are_two(words: &[String], first: &str, second: &str) -> bool
    ensures { (result ≡ true) ↔ (texts words.now ≡ first.now ∷ second.now ∷ []) }
{
    match words {
        [word, other] => word.as_str() == first && other.as_str() == second,
        _ => false,
    }
}
