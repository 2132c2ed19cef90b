//! Squared distances.
ghost use Rattle.std.specs.Prelude.{◌≡◌, ◌≤◌};
ghost use Rattle.point_geom.specs.{Place.{IsCoordinate, IsCornerNumber}, Axes.{on}, Distances.{gap2, dist2, centre_gap2, centre_dist2}};

use crate::{Axis, Cuboid, Point};

/// The squared distance, in squared millimetres.
pub fn dist2(a: &Point, b: &Point) -> u128
    ensures value { result ≡ dist2 a.now b.now }
    ensures bound { result ≤ 14507109835375550096474112 }
{
    let x = gap2(a.x(), b.x());
    let y = gap2(a.y(), b.y());
    let z = gap2(a.z(), b.z());
    x + y + z
}

/// The squared distance on one axis, in squared millimetres.
pub fn dist2_on(axis: Axis, a: &Point, b: &Point) -> u128
    ensures { result ≡ gap2 (on axis a.now) (on axis b.now) }
{
    gap2(a.on(axis), b.on(axis))
}

// A gap fits 64 bits, so that one multiplication squares it.
pub(crate) fn gap2(a: i64, b: i64) -> u128
    requires a_range { IsCoordinate a }
    requires b_range { IsCoordinate b }
    ensures value { result ≡ gap2 a b }
    ensures bound { result ≤ 4835703278458516698824704 }
{
    let gap = a.abs_diff(b);
    gap as u128 * gap as u128
}

/// Four times the squared distance from the point to the cuboid's centre, in squared millimetres: a whole number also
/// where the centre's coordinates aren't.
pub fn centre_dist2(p: &Point, c: &Cuboid) -> u128
    ensures { result ≡ centre_dist2 c.now p.now }
{
    let (lo, hi) = (c.lo(), c.hi());
    let x = centre_gap2(lo.x, p.x(), hi.x);
    let y = centre_gap2(lo.y, p.y(), hi.y);
    let z = centre_gap2(lo.z, p.z(), hi.z);
    x + y + z
}

fn centre_gap2(lo: i64, c: i64, hi: i64) -> u128
    requires lo_range { IsCornerNumber lo }
    requires range { IsCoordinate c }
    requires hi_range { IsCornerNumber hi }
    ensures value { result ≡ centre_gap2 lo c hi }
    ensures bound { result ≤ 19342830706024111211298816 }
{
    let gap = (c + c).abs_diff(lo + hi);
    gap as u128 * gap as u128
}
