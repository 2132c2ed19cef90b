//! Maps that aren't shared yet.
ghost use Rattle.std.specs.Prelude.{◌≡◌, ◌≤◌, [], IfOk};

use map_items::{NoMemory, Settings};
use rebuild_core::MapState;
use shown_versions::MarkList;
use std::alloc::Global;
use std::marker::Model;

/// An empty map before it gets its name. Contracts see the book of its marks, its callers, settings and items.
#[derive(Drop)]
pub struct Opened {
    pub(crate) state: MapState,
    pub(crate) marks: MarkList,
    pub(crate) callers: u8,
}

impl Model for Opened {
    ghost use Rattle.kd_tree.specs.Contents.{contents};
    ghost use Rattle.published_map.specs.Held.{IsOpened, OpenedAt};

    ghost Value = { OpenedAt };

    ghost view = { λ o. record { marks = o.marks; callers = o.callers; voxel = o.state.state.settings.voxel; large = o.state.state.settings.large; held = contents o.state.state.tree } };

    ghost invariant = { λ o. IsOpened o.callers o.state.state.history };
}

impl Opened {
    pub fn new(alloc: Global, settings: Settings, callers: u8) -> Result<Opened, NoMemory>
        requires callers_from { 1 ≤ callers }
        requires callers_to { callers ≤ 8 }
        ensures callers { IfOk result (λ o. o.callers ≡ callers) }
        ensures voxel { IfOk result (λ o. o.voxel ≡ settings.voxel) }
        ensures large { IfOk result (λ o. o.large ≡ settings.large) }
        ensures empty { IfOk result (λ o. o.held ≡ []) }
    {
        Ok(Opened {
            state: MapState::new(alloc, settings)?,
            marks: MarkList::new(),
            callers,
        })
    }
}
