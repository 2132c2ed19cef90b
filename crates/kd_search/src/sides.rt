//! The children of a node, told apart by a point.
ghost use Rattle.kd_search.specs.Sides.{AreSidesOf};

use kd_tree::{Top, Tree};
use point_geom::{Point, dist2_on};

/// The child on whose side of the node's plane the point is, and the other.
#[derive(Drop)]
pub(crate) struct Sides<'a> {
    /// From the point to the plane, in squared millimetres.
    pub(crate) gap: u128,
    pub(crate) near: &'a Tree,
    pub(crate) far: &'a Tree,
}

impl<'a> Sides<'a> {
    pub(crate) fn of(top: &Top<'a>, q: &Point) -> Sides<'a>
        ensures { AreSidesOf top.now q.now result }
    {
        let gap = dist2_on(top.axis, q, &top.item.point);
        if q.on(top.axis) < top.item.point.on(top.axis) {
            Sides {
                gap,
                near: top.left,
                far: top.right,
            }
        } else {
            Sides {
                gap,
                near: top.right,
                far: top.left,
            }
        }
    }
}
