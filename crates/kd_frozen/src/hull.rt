//! Where all cells are.
ghost use Rattle.std.specs.Prelude.{◌≡◌, ◌^◌, ◌<◌, true};
ghost use Rattle.point_geom.specs.{Distances.{dist2}, Extents.{IsIn}, Place.{Place}};
ghost use Rattle.kd_search.specs.Points.{AreIn};
ghost use Rattle.kd_frozen.specs.Cells.{items_of};

use crate::cell::Cell;
use point_geom::{Extent, Point};

/// A box of all these cells. Any one where there is none.
pub(crate) fn hull_of(cells: &[Cell]) -> Extent
    ensures { AreIn result (items_of cells.now) }
{
    let Some((first, rest)) = cells.split_first() else {
        return Extent::of(&Point::default());
    };
    hull_with(&first.point, rest)
}

fn hull_with(first: &Point, rest: &[Cell]) -> Extent
    ensures first { IsIn result first.now }
    ensures rest { AreIn result (items_of rest.now) }
{
    let mut hull = Extent::of(first);
    for cell in rest {
        hull = hull.join(&Extent::of(&cell.point));
    }
    hull
}

/// Whether each squared distance from q to a point in the hull fits 64 bits.
pub(crate) fn is_close(hull: &Extent, q: &Point) -> bool
    ensures { result ≡ true → (p : Place) → IsIn hull.now p → dist2 q.now p < 2 ^ 64 }
{
    hull.far_dist2(q) <= u64::MAX as u128
}
