//! Updates.
ghost use Rattle.std.specs.Prelude.{◌≡◌, IfOk};

use crate::{NoMemory, Sequence};
use point_geom::{Cuboid, Point};
use std::alloc::Global;

pub type Points = Sequence<Point>;

pub type Cuboids = Sequence<Cuboid>;

/// Points and boxes are taken in turn.
#[derive(Debug)]
pub enum Update {
    /// Each point becomes live under the next number.
    Add(Points),
    /// Each point takes the next number; its voxel keeps the live point nearest to the centre, and the others are
    /// dropped.
    Thin(Points),
    /// Drops what is live or suspended in the boxes.
    Delete(Cuboids),
    /// Suspends what is live in the boxes.
    Suspend(Cuboids),
    /// Makes live what is suspended in the boxes.
    Restore(Cuboids),
    /// Drops what has a number below this one. Points that come later are kept.
    Expire(u32),
}

// Manual `Drop`, as of `Entry`.
impl Drop for Update {
    fn drop(self) {
        match self {
            Update::Add(_points) | Update::Thin(_points) => {}
            Update::Delete(_boxes) | Update::Suspend(_boxes) | Update::Restore(_boxes) => {}
            Update::Expire(_number) => {}
        }
    }
}

impl Update {
    ghost use Rattle.map_items.specs.Fold.{points_in};

    /// How many points it submits.
    pub fn points(&self) -> usize
        ensures { result ≡ points_in self.now }
    {
        match self {
            Update::Add(points) | Update::Thin(points) => points.len(),
            Update::Delete(_) | Update::Suspend(_) | Update::Restore(_) | Update::Expire(_) => 0,
        }
    }

    /// In memory of its own.
    pub fn copy(&self, alloc: Global) -> Result<Update, NoMemory>
        ensures { IfOk result (λ copy. copy ≡ self.now) }
    {
        match self {
            Update::Add(points) => Ok(Update::Add(points.copy(alloc)?)),
            Update::Thin(points) => Ok(Update::Thin(points.copy(alloc)?)),
            Update::Delete(boxes) => Ok(Update::Delete(boxes.copy(alloc)?)),
            Update::Suspend(boxes) => Ok(Update::Suspend(boxes.copy(alloc)?)),
            Update::Restore(boxes) => Ok(Update::Restore(boxes.copy(alloc)?)),
            Update::Expire(number) => Ok(Update::Expire(*number)),
        }
    }
}
