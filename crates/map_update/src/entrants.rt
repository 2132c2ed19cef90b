//! The points of a scan that may win their voxels. Nothing here knows a tree.
ghost use Rattle.std.specs.Prelude.{◌≡◌, ◌+◌, ◌≤◌, length, map, IfOk};
ghost use Rattle.point_geom.specs.Boxes.{voxel};
ghost use Rattle.kd_update.specs.Scan.{live_from};
ghost use Rattle.map_update.specs.{Entrants.{AreFirsts}, Ranks.{HaveVoxels, entrant_cmp, entrant_of, inside_cmp, items_in}};

use map_items::{Item, MAX_POINTS, NoMemory, Settings};
use point_geom::{Cuboid, MAX_EDGE, Point, centre_dist2, voxel};
use std::alloc::Global;
use std::cmp::Ordering;

#[derive(Clone, Copy)]
pub(crate) struct Entrant {
    pub(crate) item: Item,
    pub(crate) cube: Cuboid,
}

// Of each voxel the point that is nearest to its centre, under its number: the others change nothing once this one has
// thinned the voxel. n points take time in the order of n log n.
pub(crate) fn firsts(
    alloc: Global,
    settings: &Settings,
    next: u32,
    points: &[Point],
) -> Result<Vec<Entrant>, NoMemory>
    requires few { next + length points.now ≤ MAX_POINTS }
    ensures firsts { IfOk result (λ v. AreFirsts settings.now.voxel next points.now (items_in v.items)) }
    ensures cubes { IfOk result (λ v. HaveVoxels settings.now.voxel v.items) }
    ensures few { IfOk result (λ v. length v.items ≤ length points.now) }
{
    let edge = settings.voxel();
    let mut entrants = entrants(alloc, edge, next, points)?;
    entrants.sort_unstable_by(|a: &Entrant, b: &Entrant| a.compare(b));
    entrants.dedup_by_key(|e: &mut Entrant| e.cube);
    Ok(entrants)
}

fn entrants(alloc: Global, edge: u32, next: u32, points: &[Point]) -> Result<Vec<Entrant>, NoMemory>
    requires positive { 1 ≤ edge }
    requires short { edge ≤ MAX_EDGE }
    requires few { next + length points.now ≤ MAX_POINTS }
    ensures { IfOk result (λ v. v.items ≡ map (entrant_of edge) (live_from next points.now)) }
{
    let mut entrants = Vec::with_capacity(alloc, points.len())?;
    let mut number = next;
    for point in points {
        let item = Item::live(number, *point);
        let cube = voxel(point, edge);
        entrants.push(Entrant { item, cube })?;
        number += 1;
    }
    Ok(entrants)
}

impl Entrant {
    // By the voxel, and in a voxel as its points win. Branches ask whether numbers differ, which is mostly predicted, and
    // not which is lower.
    #[inline]
    fn compare(&self, other: &Entrant) -> Ordering
        ensures { result ≡ entrant_cmp self.now other.now }
    {
        let (one, two) = (self.cube.lo(), other.cube.lo());
        if one.x != two.x {
            one.x.cmp(&two.x)
        } else if one.y != two.y {
            one.y.cmp(&two.y)
        } else if one.z != two.z {
            one.z.cmp(&two.z)
        } else {
            self.compare_inside(other)
        }
    }

    // Few entrants that are compared lie in one voxel, so this is kept out of the way.
    #[inline(never)]
    fn compare_inside(&self, other: &Entrant) -> Ordering
        ensures { result ≡ inside_cmp self.now other.now }
    {
        let one = centre_dist2(&self.item.point, &self.cube);
        let two = centre_dist2(&other.item.point, &other.cube);
        let place = self.item.point.cmp_place(&other.item.point);
        let number = self.item.number.cmp(&other.item.number);
        one.cmp(&two).then(place.then(number))
    }
}
