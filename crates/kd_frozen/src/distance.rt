//! Squared distances that fit 64 bits.
ghost use Rattle.std.specs.Prelude.{◌≡◌, ◌^◌, ◌<◌};
ghost use Rattle.point_geom.specs.{Axes.{on}, Place.{IsCoordinate}, Distances.{dist2, gap2}};

use point_geom::{Axis, Point};

/// The squared distance, in squared millimetres.
#[inline]
pub(crate) fn close_dist2(a: &Point, b: &Point) -> u64
    requires { dist2 a.now b.now < 2 ^ 64 }
    ensures { result ≡ dist2 a.now b.now }
{
    let x = close_gap2(a.x(), b.x());
    let y = close_gap2(a.y(), b.y());
    let z = close_gap2(a.z(), b.z());
    x + y + z
}

/// The square of what is between two coordinates. A difference below zero isn't turned first, as the square of its bits is the same
/// to 64 bits: compilers would turn two at once, and multiply them so, which is slower.
#[inline]
pub(crate) fn close_gap2(a: i64, b: i64) -> u64
    requires a_range { IsCoordinate a }
    requires b_range { IsCoordinate b }
    requires fits { gap2 a b < 2 ^ 64 }
    ensures { result ≡ gap2 a b }
{
    let gap = (a - b).cast_unsigned();
    gap.wrapping_mul(gap)
}

/// The point's coordinate on this axis. A choice of three numbers: that is faster here than the table of `Point::on`.
#[inline]
pub(crate) fn coordinate(p: &Point, axis: Axis) -> i64
    ensures value { result ≡ on axis p.now }
    ensures range { IsCoordinate result }
{
    match axis {
        Axis::X => p.x(),
        Axis::Y => p.y(),
        Axis::Z => p.z(),
    }
}
