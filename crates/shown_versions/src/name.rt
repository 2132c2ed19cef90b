//! Which map it is.
use std::marker::Brand;
use std::sync::ledger::Ledger;

/// The name of one shared map, for contracts alone: in their types, it keeps passes of one map from another. As a ledger it counts
/// all updates. A program takes `Brand`, and each call of a generic function picks a name of its own.
pub trait MapName: Ledger {
    ghost use Rattle.std.specs.Prelude.{ℕ};
    ghost use Rattle.logbook.specs.Pages.{Book};

    ghost marks: { Book };

    ghost callers: { ℕ };

    /// The edge of the map's voxels, in millimetres.
    ghost voxel: { ℕ };
}

impl MapName for Brand {
    ghost use Rattle.shown_versions.specs.Names.{no_book};

    ghost marks = { no_book };

    ghost callers = { 0 };

    ghost voxel = { 0 };
}
