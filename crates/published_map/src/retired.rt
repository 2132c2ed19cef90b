//! Who frees versions that aren't published any more. Freeing the last copy takes time by what was taken out of its tree, so none
//! is freed under the lock.
ghost use Rattle.std.specs.Prelude.{◌≡◌};

use core::mem::replace;
use left_right::Absorb;
use map_items::Entry;
use rebuild_core::MapState;
use rebuild_parts::Version;
use shown_versions::{MapName, Published};
use std::sync::Arc;

/// The published version, unless it could not be shared, and the one that gives the next update memory, if any.
pub type Versions = (Option<Arc<Version>>, Option<Arc<Version>>);

/// Versions that wait to be freed. What a call returns is to be dropped once the lock is given back.
#[derive(Drop)]
pub struct Retired<L: MapName>
where
    Published<L>: Absorb<Published<L>, State = [Entry; 0]>,
{
    // The version before the published one: the next step writes over its other copy, on the writer's side, and would free it under
    // the lock.
    former: Option<Arc<Version>>,
    // Whether the step after the former version made few nodes.
    by_small: bool,
    // What the last step of many nodes replaced, once an update came after it. It may be the last to hold what was taken out of the
    // tree, so a worker frees it.
    replaced: Option<Arc<Version>>,
    // What a pass kept before its update, unless that was the newest version. After several swaps it may hold what the first took
    // out.
    kept: Option<Published<L>>,
}

impl<L: MapName> Retired<L> {
    pub fn new() -> Self {
        Retired {
            former: None,
            by_small: false,
            replaced: None,
            kept: None,
        }
    }

    /// Retires `former`, which a step replaced. The version before it becomes memory of the state's next update where a small step
    /// replaced it, an update that rebuilds no detached subtree: any other leaves far more than that update needs. Else it is
    /// returned.
    pub fn after_step(
        &mut self,
        state: &mut MapState,
        former: Option<Arc<Version>>,
        is_small: bool,
    ) -> Option<Arc<Version>>
        ensures same { state.new ≡ state.old }
    {
        let spent = replace(&mut self.former, former);
        let by_small = replace(&mut self.by_small, is_small);
        match spent {
            Some(version) if by_small => {
                state.recycle(version);
                None
            }
            spent => spent,
        }
    }

    /// Leaves what `after_step` returned to a worker, and returns what was left to it before.
    pub fn leave(&mut self, spent: Option<Arc<Version>>) -> Option<Arc<Version>> {
        let version = spent?;
        replace(&mut self.replaced, Some(version))
    }

    pub fn after_pass(&mut self, kept: Option<Published<L>>) -> Option<Published<L>> {
        replace(&mut self.kept, kept)
    }

    pub fn for_worker(&mut self) -> (Option<Arc<Version>>, Option<Published<L>>) {
        (self.replaced.take(), self.kept.take())
    }
}
