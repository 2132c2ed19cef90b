//! The line of a verdict.
ghost use Rattle.std.specs.Prelude.{◌≡◌, ◌++◌, ◌∷◌, [], decimal, IfOk};
ghost use Rattle.mapper_base.specs.Verdicts.{verdict_line};

use itoa::Buffer;
use map_items::NoMemory;
use std::alloc::Global;
use transcript_check::Verdict;

pub fn verdict_line(alloc: Global, verdict: Verdict) -> Result<Vec<u8>, NoMemory>
    ensures { IfOk result (λ v. v.items ≡ verdict_line verdict) }
{
    match verdict {
        Verdict::Legal => Ok(Vec::from_slice(alloc, b"legal\n")?),
        Verdict::Unspelled { line } => numbered(alloc, b"illegal line ", line),
        Verdict::Marks => Ok(Vec::from_slice(alloc, b"illegal marks\n")?),
        Verdict::Differs { line } => numbered(alloc, b"illegal reply ", line),
    }
}

fn numbered(alloc: Global, words: &[u8], line: u32) -> Result<Vec<u8>, NoMemory>
    ensures { IfOk result (λ v. v.items ≡ words.now ++ decimal line ++ 10 ∷ []) }
{
    let mut number = Buffer::new();
    let mut text = Vec::from_slice(alloc, words)?;
    text.extend_from_slice(number.format(line).as_bytes())?;
    text.push(b'\n')?;
    Ok(text)
}
