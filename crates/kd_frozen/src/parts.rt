//! A segment, as it lies round a point.
ghost use Rattle.std.specs.Prelude.{◌≡◌, ◌^◌, ◌<◌, ◌≤ℤ◌, true, false, IfSome};
ghost use Rattle.point_geom.specs.Axes.{on};
ghost use Rattle.kd_frozen.specs.Segments.{AreParted, ArePartsOf, plane_gap2};

use crate::cell::{Cell, LEAF, first_of};
use crate::distance::{close_gap2, coordinate};
use point_geom::{Point, dist2_on};

/// The first cell of a segment, the side of its plane on which the point is, and the other side.
#[derive(Drop)]
pub(crate) struct Parts<'a> {
    pub(crate) top: &'a Cell,
    pub(crate) near: &'a [Cell],
    pub(crate) far: &'a [Cell],
}

impl<'a> Parts<'a> {
    /// The parts of a segment that is longer than a leaf.
    #[inline]
    pub(crate) fn of(cells: &'a [Cell], q: &Point) -> Option<Parts<'a>>
        requires { AreParted cells.now }
        ensures { IfSome result (λ s. ArePartsOf cells.now q.now s) }
    {
        if cells.len() <= LEAF {
            return None;
        }
        let Some((top, rest)) = cells.split_first() else {
            return None;
        };
        let (left, right) = rest.split_at(first_of(rest.len(), top.share));
        if is_below(q, top) {
            Some(Parts {
                top,
                near: left,
                far: right,
            })
        } else {
            Some(Parts {
                top,
                near: right,
                far: left,
            })
        }
    }

    /// How far the plane is from the point, in squared millimetres.
    pub(crate) fn gap2(&self, q: &Point) -> u128
        ensures { result ≡ plane_gap2 self.now.top.now q.now }
    {
        dist2_on(self.top.axis, q, &self.top.point)
    }

    /// The same where it fits 64 bits.
    #[inline]
    pub(crate) fn close_gap2(&self, q: &Point) -> u64
        requires { plane_gap2 self.now.top.now q.now < 2 ^ 64 }
        ensures { result ≡ plane_gap2 self.now.top.now q.now }
    {
        let axis = self.top.axis;
        close_gap2(coordinate(q, axis), coordinate(&self.top.point, axis))
    }
}

// Whether the point is below the cell's plane.
#[inline]
fn is_below(q: &Point, cell: &Cell) -> bool
    ensures below { result ≡ true → on cell.now.axis q.now ≤ℤ on cell.now.axis cell.now.point }
    ensures above { result ≡ false → on cell.now.axis cell.now.point ≤ℤ on cell.now.axis q.now }
{
    coordinate(q, cell.axis) < coordinate(&cell.point, cell.axis)
}
