//! What readers take.
ghost use Rattle.std.specs.Prelude.{◌≡◌, IfOk};
ghost use Rattle.shown_versions.specs.Versions.{IsVersionOf};

use crate::mark::Mark;
use crate::name::MapName;
use left_right::Absorb;
use map_items::Entry;
use rebuild_parts::Version;
use std::alloc::AllocError;
use std::marker::Model;
use std::sync::Arc;

/// A version with its mark. Contracts see its history.
pub struct Published<L: MapName> {
    version: Arc<Version>,
    mark: Mark<L>,
}

impl<L: MapName> Model for Published<L> {
    ghost use Rattle.std.specs.Prelude.{List};
    ghost use Rattle.map_items.specs.declared.entry.Entry.{Entry};
    ghost use Rattle.shown_versions.specs.Versions.{IsVersionOf};

    ghost Value = { List Entry };

    ghost view = { λ s. s.mark.history };

    ghost invariant = { λ s. IsVersionOf L.voxel s.mark.history s.version.value };
}

// Manual `Drop`: a derived one is proved at every exit of every owner.
impl<L: MapName> Drop for Published<L> {
    fn drop(self) {
        let Published {
            version: _version,
            mark: _mark,
        } = self;
    }
}

impl<L: MapName> Published<L> {
    pub fn new(version: Arc<Version>, mark: Mark<L>) -> Published<L>
        requires { IsVersionOf L.voxel mark.history version.value }
        ensures { result ≡ mark.history }
    {
        Published { version, mark }
    }

    /// Shares the version.
    pub fn try_clone(&self) -> Result<Published<L>, AllocError>
        ensures { IfOk result (λ s. s ≡ self.now) }
    {
        let version = Arc::try_clone(&self.version)?;
        Ok(Published {
            version,
            mark: self.mark.share(),
        })
    }

    pub fn mark(&self) -> &Mark<L>
        ensures { result.now.history ≡ self.now }
    {
        &self.mark
    }

    pub fn version(&self) -> &Version
        ensures { IsVersionOf L.voxel self.now result.now }
    {
        &self.version
    }
}

/// The one operation is to become another version, so the last pending one counts.
impl<L: MapName> Absorb<Published<L>> for Published<L> {
    // A clause reads an array as a list, of any length.
    type State = [Entry; 0];

    ghost state = { λ s. s };

    ghost applied = { λ _ s. s };

    fn absorb_first(
        &mut self,
        operation: &Published<L>,
        _other: &Published<L>,
    ) -> Result<(), AllocError> {
        *self = operation.try_clone()?;
        Ok(())
    }

    fn absorb_second(
        &mut self,
        operation: Published<L>,
        _other: &Published<L>,
    ) -> Result<(), Published<L>> {
        *self = operation;
        Ok(())
    }
}
