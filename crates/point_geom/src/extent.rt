//! Closed boxes.
ghost use Rattle.std.specs.{Prelude.{◌≡◌, ◌≤◌, ◌≤ℤ◌, ◌↔◌, max}, Int.{int_max, int_min}};
ghost use Rattle.point_geom.specs.{Place.{IsBelow, IsCoordinate, Place, Span}, Distances.{dist2, gap2}};
ghost use Rattle.point_geom.specs.Extents.{IsIn, IsPart, clamped, joined_span, nearest_in, span_dist2, span_far2, spot};

use crate::Point;
use crate::distance::gap2;
use std::marker::Model;

/// A closed box: both of its corners, which have the intensity 0, are in it.
#[derive(Clone, Copy, Debug, PartialEq, Eq)]
pub struct Extent {
    lo: Point,
    hi: Point,
}

impl Model for Extent {
    ghost use Rattle.point_geom.specs.Place.{IsSpan, Span};

    ghost Value = { Span };

    ghost view = { λ e. record { lo = e.lo; hi = e.hi } };

    ghost invariant = { λ e. IsSpan (record { lo = e.lo; hi = e.hi }) };

    ghost inverse = { λ e. record { lo = e.lo; hi = e.hi } };
}

impl Extent {
    /// The extent of this point alone.
    pub fn of(p: &Point) -> Extent
        ensures { result ≡ spot p.now }
    {
        let p = p.bare();
        Extent { lo: p, hi: p }
    }

    /// The corner with the least coordinates.
    pub fn lo(&self) -> Point
        ensures value { result ≡ self.now.lo }
        ensures below { IsBelow self.now.lo self.now.hi }
        ensures bare { result.intensity ≡ 0 }
    {
        self.lo
    }

    /// The corner with the greatest coordinates.
    pub fn hi(&self) -> Point
        ensures value { result ≡ self.now.hi }
        ensures below { IsBelow self.now.lo self.now.hi }
        ensures bare { result.intensity ≡ 0 }
    {
        self.hi
    }

    /// The least extent that covers both.
    pub fn join(&self, other: &Extent) -> Extent
        ensures value { result ≡ joined_span self.now other.now }
        ensures least { (e : Span) → (IsPart self.now e × IsPart other.now e) ↔ IsPart result e }
    {
        Extent {
            lo: self.lo.low_corner(&other.lo),
            hi: self.hi.high_corner(&other.hi),
        }
    }

    /// The least squared distance from the point to a point of the extent, in squared millimetres.
    pub fn dist2(&self, p: &Point) -> u128
        ensures value { result ≡ span_dist2 self.now p.now }
        ensures least { (q : Place) → IsIn self.now q → result ≤ dist2 p.now q }
        ensures reached { (q : Place) × IsIn self.now q × (result ≡ dist2 p.now q) }
    {
        let x = outside2(self.lo.x(), p.x(), self.hi.x());
        let y = outside2(self.lo.y(), p.y(), self.hi.y());
        let z = outside2(self.lo.z(), p.z(), self.hi.z());
        x + y + z
    }

    /// The greatest squared distance from the point to a point of the extent, in squared millimetres.
    pub fn far_dist2(&self, p: &Point) -> u128
        ensures value { result ≡ span_far2 self.now p.now }
        ensures greatest { (q : Place) → IsIn self.now q → dist2 p.now q ≤ result }
        ensures reached { (q : Place) × IsIn self.now q × (result ≡ dist2 p.now q) }
    {
        let x = far_gap2(self.lo.x(), p.x(), self.hi.x());
        let y = far_gap2(self.lo.y(), p.y(), self.hi.y());
        let z = far_gap2(self.lo.z(), p.z(), self.hi.z());
        x + y + z
    }
}

fn far_gap2(low: i64, c: i64, high: i64) -> u128
    requires low_range { IsCoordinate low }
    requires range { IsCoordinate c }
    requires high_range { IsCoordinate high }
    ensures value { result ≡ max (gap2 c low) (gap2 c high) }
    ensures bound { result ≤ 4835703278458516698824704 }
{
    gap2(c, low).max(gap2(c, high))
}

fn outside2(low: i64, c: i64, high: i64) -> u128
    requires low_range { IsCoordinate low }
    requires range { IsCoordinate c }
    requires high_range { IsCoordinate high }
    ensures value { result ≡ gap2 c (clamped low high c) }
    ensures bound { result ≤ 4835703278458516698824704 }
{
    gap2(c, clamped(low, c, high))
}

fn clamped(low: i64, c: i64, high: i64) -> i64
    requires low_range { IsCoordinate low }
    requires range { IsCoordinate c }
    requires high_range { IsCoordinate high }
    ensures value { result ≡ clamped low high c }
    ensures range { IsCoordinate result }
{
    low.max(c.min(high))
}
