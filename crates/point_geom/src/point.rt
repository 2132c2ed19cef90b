//! Points.
ghost use Rattle.std.specs.Prelude.{◌≡◌, ◌<◌, ℤ, OnOk, IfOk};
ghost use Rattle.std.proofs.Common.{rules};
ghost use Rattle.std.specs.{Cmp.{partial_order_from_own_ties}, Cmp.Rules.{comparing}, Int.{int_max, int_min}, Ordering.{as_partial_cmp}};
ghost use Rattle.point_geom.specs.{Place.{IsCoordinate, IsPlace, bare}, Axes.{on, place_cmp, point_cmp, point_eq}, Extents.{low_corner, high_corner}};
ghost use Rattle.point_geom.specs.{Packed.{packed, packed_intensity, packed_z}, Refusals.{point_of, within}};

use crate::Axis;
use std::cmp::Ordering;
use std::marker::Model;

/// A coordinate farther than 2 ^ 40 millimetres from 0.
#[derive(Clone, Copy, Debug, PartialEq, Eq)]
pub struct OutOfRange {
    pub axis: Axis,
    /// In millimetres.
    pub value: i64,
}

/// A point in millimetres, each coordinate within 2 ^ 40 of 0, about 1.1 million kilometres, with an intensity. Points
/// are ordered by x, then y, then z, then the intensity. Takes 24 bytes.
#[derive(Clone, Copy, Debug, Default)]
pub struct Point {
    x: i64,
    y: i64,
    // z * 65,536 + the intensity, so that a point takes three words.
    deep: i64,
}

impl Model for Point {
    ghost use Rattle.point_geom.specs.{Place.{IsCoordinate, Place}, Packed.{packed, packed_intensity, packed_z}, Packed.{packed_again}};

    ghost Value = { Place };

    ghost view = { λ p. record { x = p.x; y = p.y; z = packed_z p.deep; intensity = packed_intensity p.deep } };

    ghost invariant = { λ p. IsCoordinate p.x × IsCoordinate p.y × IsCoordinate (packed_z p.deep) };

    ghost inverse = { λ p. record { x = p.x; y = p.y; deep = packed p.z p.intensity } };

    ghost inverse_ok = { λ a h i. record { x = a.x; y = a.y; deep = packed_again a.deep i } };
}

impl PartialEq for Point {
    ghost eq = { point_eq };

    ghost laws = { Prim.search (comparing, rules) depth 9 };

    fn eq(&self, other: &Point) -> bool {
        self.x == other.x && self.y == other.y && self.deep == other.deep
    }
}

impl Eq for Point {
    ghost laws = { Prim.search (comparing, rules) };
}

impl PartialOrd for Point {
    ghost partial_cmp = { as_partial_cmp point_cmp };

    ghost laws = { partial_order_from_own_ties (Prim.search (comparing, rules) depth 9) (Prim.search (comparing, rules)) };

    fn partial_cmp(&self, other: &Point) -> Option<Ordering> {
        Some(self.cmp(other))
    }
}

impl Ord for Point {
    ghost cmp = { point_cmp };

    ghost total = { Prim.search (comparing, rules) };

    ghost matches_partial_cmp = { Prim.search (comparing, rules) };

    ghost matches_eq = { Prim.search (comparing, rules) };

    fn cmp(&self, other: &Point) -> Ordering {
        let third = self
            .z()
            .cmp(&other.z())
            .then(self.intensity().cmp(&other.intensity()));
        let second = self.y().cmp(&other.y()).then(third);
        self.x().cmp(&other.x()).then(second)
    }
}

impl Point {
    const LIMIT: i64 = 1_099_511_627_776;

    /// The point with these coordinates and the intensity 0. The first coordinate out of range is refused, in the order
    /// x, y, z.
    pub fn new(x: i64, y: i64, z: i64) -> Result<Point, OutOfRange>
        ensures exact { result ≡ point_of x y z }
        ensures place { IfOk result IsPlace }
    {
        Self::within(Axis::X, x)?;
        Self::within(Axis::Y, y)?;
        Self::within(Axis::Z, z)?;
        Ok(Point {
            x,
            y,
            deep: deep(z, 0),
        })
    }

    /// The same place with this intensity.
    pub fn with_intensity(self, intensity: u16) -> Point
        ensures value { result ≡ record self { intensity = intensity } }
        ensures place { IsPlace result }
    {
        let z = self.z();
        Point {
            x: self.x,
            y: self.y,
            deep: deep(z, intensity),
        }
    }

    fn within(axis: Axis, value: i64) -> Result<(), OutOfRange>
        ensures exact { result ≡ within axis value }
        ensures ok { OnOk result (IsCoordinate value) }
    {
        if value < -Self::LIMIT || Self::LIMIT < value {
            Err(OutOfRange { axis, value })
        } else {
            Ok(())
        }
    }

    /// In millimetres.
    pub fn x(&self) -> i64
        ensures value { result ≡ self.now.x }
        ensures range { IsCoordinate result }
    {
        self.x
    }

    /// In millimetres.
    pub fn y(&self) -> i64
        ensures value { result ≡ self.now.y }
        ensures range { IsCoordinate result }
    {
        self.y
    }

    /// In millimetres.
    pub fn z(&self) -> i64
        ensures value { result ≡ self.now.z }
        ensures range { IsCoordinate result }
    {
        self.deep >> 16
    }

    /// The coordinate on this axis, in millimetres.
    pub fn on(&self, axis: Axis) -> i64
        ensures value { result ≡ on axis self.now }
        ensures range { IsCoordinate result }
    {
        // A lookup: the processor can't predict a branch on the axis in a search.
        let all = [self.x, self.y, self.deep >> 16];
        all[axis as usize]
    }

    /// Compares x, then y, then z, and not the intensity.
    pub fn cmp_place(&self, other: &Point) -> Ordering
        ensures { result ≡ place_cmp self.now other.now }
    {
        let rest = self.y().cmp(&other.y()).then(self.z().cmp(&other.z()));
        self.x().cmp(&other.x()).then(rest)
    }

    pub fn intensity(&self) -> u16
        ensures value { result ≡ self.now.intensity }
        ensures place { IsPlace self.now }
    {
        self.deep.rem_euclid(65_536) as u16
    }

    pub(crate) fn bare(&self) -> Point
        ensures { result ≡ bare self.now }
    {
        let z = self.z();
        Point {
            x: self.x,
            y: self.y,
            deep: deep(z, 0),
        }
    }

    pub(crate) fn low_corner(&self, other: &Point) -> Point
        requires bare { self.now.intensity ≡ 0 }
        requires other_bare { other.now.intensity ≡ 0 }
        ensures { result ≡ low_corner self.now other.now }
    {
        Point {
            x: lower(self.x, other.x),
            y: lower(self.y, other.y),
            deep: lower_deep(self.deep, other.deep),
        }
    }

    pub(crate) fn high_corner(&self, other: &Point) -> Point
        requires bare { self.now.intensity ≡ 0 }
        requires other_bare { other.now.intensity ≡ 0 }
        ensures { result ≡ high_corner self.now other.now }
    {
        Point {
            x: higher(self.x, other.x),
            y: higher(self.y, other.y),
            deep: higher_deep(self.deep, other.deep),
        }
    }
}

fn deep(z: i64, intensity: u16) -> i64
    requires { IsCoordinate z }
    ensures value { result ≡ packed z intensity }
    ensures z { packed_z result ≡ z }
    ensures intensity { packed_intensity result ≡ intensity }
{
    z * 65_536 + intensity as i64
}

fn lower(a: i64, b: i64) -> i64
    requires a { IsCoordinate a }
    requires b { IsCoordinate b }
    ensures value { result ≡ int_min a b }
    ensures range { IsCoordinate result }
{
    if b < a { b } else { a }
}

fn higher(a: i64, b: i64) -> i64
    requires a { IsCoordinate a }
    requires b { IsCoordinate b }
    ensures value { result ≡ int_max a b }
    ensures range { IsCoordinate result }
{
    if b < a { a } else { b }
}

// Without intensities the packed numbers are in the order of z, so neither is unpacked.
fn lower_deep(a: i64, b: i64) -> i64
    requires a { packed_intensity a ≡ 0 }
    requires b { packed_intensity b ≡ 0 }
    requires a_range { IsCoordinate (packed_z a) }
    requires b_range { IsCoordinate (packed_z b) }
    ensures z { packed_z result ≡ int_min (packed_z a) (packed_z b) }
    ensures range { IsCoordinate (packed_z result) }
    ensures bare { packed_intensity result ≡ 0 }
{
    if b < a { b } else { a }
}

fn higher_deep(a: i64, b: i64) -> i64
    requires a { packed_intensity a ≡ 0 }
    requires b { packed_intensity b ≡ 0 }
    requires a_range { IsCoordinate (packed_z a) }
    requires b_range { IsCoordinate (packed_z b) }
    ensures z { packed_z result ≡ int_max (packed_z a) (packed_z b) }
    ensures range { IsCoordinate (packed_z result) }
    ensures bare { packed_intensity result ≡ 0 }
{
    if b < a { a } else { b }
}
