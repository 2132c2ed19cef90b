//! What the words ask for.
ghost use Rattle.std.specs.Prelude.{◌≡◌, ◌∷◌, [], codes, map, IfOk, IfSome, IfNone};
ghost use Rattle.mapper_base.specs.Asks.{AskNothing, Asks, texts};

use crate::command_line::parse_args::parsed;
use crate::command_line::spelling::is_spelled;
use std::alloc::{AllocError, Global};

#[derive(Clone, Copy)]
pub enum Ask {
    /// A run of a log by its callers.
    Run,
    /// A run of a log in its order.
    Serial,
    /// The log of a generated script of this many scans.
    Make(u32),
    /// The sums of a run of a generated script, in its order.
    Drive(u32),
    /// The verdict on the input after this many bytes, as a transcript of the log that they are.
    Check(u32),
}

/// `None` where the words ask for nothing that can be done. `clap`'s reading counts only where they are its one spelling.
pub fn asked(alloc: Global, words: &[String]) -> Result<Option<Ask>, AllocError>
    ensures found { IfOk result (λ r. IfSome r (λ a. Asks a (texts words.now))) }
    ensures nothing { IfOk result (λ r. IfNone r (AskNothing (texts words.now))) }
{
    let argv = with_program(alloc, words)?;
    let Some(ask) = parsed(alloc, argv.as_slice())? else {
        return Ok(None);
    };
    if is_spelled(words, ask) {
        Ok(Some(ask))
    } else {
        Ok(None)
    }
}

// `clap` passes over the first word.
fn with_program<'a>(alloc: Global, words: &'a [String]) -> Result<Vec<&'a str>, AllocError>
    ensures { IfOk result (λ v. map (λ w. w.now) v.items ≡ codes "mapper" ∷ texts words.now) }
{
    let mut argv = Vec::new(alloc);
    argv.push("mapper")?;
    for word in words {
        argv.push(word.as_str())?;
    }
    Ok(argv)
}
