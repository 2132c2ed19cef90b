ghost use Rattle.std.specs.Prelude.{◌≡◌, ℕ, IfOk};
ghost use Rattle.local_region.specs.{Moves.{Moves, after}, Removed.{AreLeftBehind, removed}, Map.{AreHeld, not_left}};
ghost use Rattle.map_items.specs.Fold.{MapAt, step};
ghost use Rattle.map_items.specs.declared.update.Update.TheVariants as update;

use crate::Region;
use crate::removing::removed;
use map_items::{Cuboids, NoMemory};
use point_geom::Point;
use std::alloc::Global;

#[derive(Debug, Drop)]
pub struct Moved {
    pub region: Region,
    pub removed: Cuboids,
}

impl Region {
    /// The region after a move to the point, on each axis by a step at most, however far the point is; and what it
    /// left: on x, then of the rest on y, then on z. The boxes are cut to the limits of `Cuboid::new`. On `NoMemory`
    /// the region is dropped.
    pub fn moved(self, alloc: Global, p: &Point) -> Result<Moved, NoMemory>
        ensures region { IfOk result (λ m. m.region ≡ after p.now self) }
        ensures moves { IfOk result (λ m. Moves p.now self m.region) }
        ensures removed { IfOk result (λ m. m.removed ≡ removed self m.region) }
        ensures left { IfOk result (λ m. AreLeftBehind self m.region m.removed) }

        // So a deletion in them drops what the region left, and nothing else.
        ensures drops { IfOk result (λ m. (voxel : ℕ) (map : MapAt) → AreHeld map.items
            → (step voxel (update.Delete m.removed) map).items ≡ not_left self m.region map.items) }
    {
        let region = self.after(p);
        let removed = removed(alloc, &self, &region)?;
        Ok(Moved { region, removed })
    }
}
