//! What callers did, returned at the end.
ghost use Rattle.std.specs.Prelude.{◌≡◌, IfOk, map};
ghost use Rattle.published_map.specs.Ends.{ended_of};

use crate::pass::Pass;
use map_items::NoMemory;
use shown_versions::MapName;
use std::alloc::Global;

#[derive(Clone, Copy, Debug, PartialEq, Eq)]
pub struct Ended {
    /// From 1 to 8.
    pub caller: u8,
    pub updates: u32,
    /// The length of the history that its pass has seen.
    pub mark: u64,
}

pub(crate) fn ended_all<L: MapName>(
    alloc: Global,
    passes: &[Pass<L>],
) -> Result<Vec<Ended>, NoMemory>
    ensures { IfOk result (λ v. v.items ≡ map ended_of passes.now) }
{
    let mut all = Vec::new(alloc);
    for pass in passes {
        all.push(Ended {
            caller: pass.caller(),
            updates: pass.updates(),
            mark: pass.mark(),
        })?;
    }
    Ok(all)
}
