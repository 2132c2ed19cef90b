//! Nothing here changes what the state holds.
ghost use Rattle.std.specs.Prelude.{◌≡◌};

use crate::MapState;
use kd_tree::{Scratch, Tree};
use rebuild_parts::Version;
use std::alloc::Global;
use std::mem;
use std::sync::Arc;

impl MapState {
    /// Takes a version that the caller drops, instead of the version before: the next update makes its nodes in the
    /// memory of those that nobody else holds then. The version stays while somebody holds it.
    pub fn recycle(&mut self, version: Arc<Version>)
        ensures same { self.new.state ≡ self.old.state }
        ensures spare { self.new.spare ≡ self.old.spare }
    {
        self.former = Some(version);
    }

    /// Takes out the version that gives the next update memory, if any. A swap or settling would drop it: a caller under
    /// a lock drops it later, or gives it back by `recycle`.
    pub fn take_former(&mut self) -> Option<Arc<Version>>
        ensures same { self.new.state ≡ self.old.state }
        ensures spare { self.new.spare ≡ self.old.spare }
    {
        self.former.take()
    }

    // With the memory of the version before.
    pub(crate) fn take_scratch(&mut self, alloc: Global) -> Scratch
        ensures same { self.new.state ≡ self.old.state }
        ensures spare { self.new.spare ≡ self.old.spare }
    {
        let mut scratch = mem::replace(&mut self.scratch, Scratch::new(alloc));
        if let Some(version) = self.former.take() {
            Version::reclaim(version, &mut scratch);
        }
        scratch
    }

    // The rest is dropped now: it might be the last to hold a subtree that is swapped out before the next update.
    pub(crate) fn put_scratch(&mut self, mut scratch: Scratch)
        ensures same { self.new.state ≡ self.old.state }
        ensures spare { self.new.spare ≡ self.old.spare }
    {
        scratch.reclaim(Tree::empty());
        self.scratch = scratch;
    }
}
