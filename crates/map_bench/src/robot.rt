//! A robot's map: the state of a map that one thread keeps.
use crate::bench::Bench;
use crate::course::{Scan, deletion};
use crate::growing::Growing;
use crate::stop::Stop;
use kd_tree::{Steps, Tree};
use map_fold::{Settings, Update};
use rebuild_core::MapState;
use std::alloc::Global;
use std::sync::ledger::Ledger;

/// Where subtrees are detached, those from so many nodes on are left for that.
pub const LARGE: u32 = 1_500;

// Half a metre.
const VOXEL: u32 = 500;

/// The settings of a map that leaves subtrees from so many nodes on alone.
pub fn settings(large: u32) -> Settings {
    Settings::new(VOXEL, large.clamp(16, 1_000_000))
}

/// A state whose updates are all of one caller.
#[derive(Drop)]
pub struct Robot {
    state: MapState,
    // Whether of a scan's points those are kept that are nearest to the centres of their voxels. Else all are.
    thins: bool,
}

impl Robot {
    pub fn new(alloc: Global, large: u32, thins: bool) -> Result<Robot, Stop> {
        let state = MapState::new(alloc, settings(large))?;
        Ok(Robot { state, thins })
    }

    fn update<L: Ledger>(
        &mut self,
        alloc: Global,
        update: Update,
        steps: &mut Steps<L>,
    ) -> Result<(), Stop> {
        self.state.update(alloc, 1, update, steps)?;
        Ok(())
    }
}

impl Growing for Robot {
    fn tree(&self) -> &Tree {
        self.state.version().tree()
    }

    fn take_in<L: Ledger, R>(&mut self, at: &mut Bench<'_, L, R>, scan: &Scan) -> Result<(), Stop> {
        let points = scan.points.copy(at.alloc)?;
        let update = if self.thins {
            Update::Thin(points)
        } else {
            Update::Add(points)
        };
        self.update(at.alloc, update, &mut at.steps)?;
        match &scan.left {
            None => Ok(()),
            Some(left) => self.update(at.alloc, deletion(at.alloc, left)?, &mut at.steps),
        }
    }
}
