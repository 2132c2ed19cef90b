//! Half-open boxes.
ghost use Rattle.std.specs.Prelude.{◌≡◌, ◌≤◌, ◌≤ℤ◌, ◌+ℤ◌, ◌&&◌, ◌↔◌, IsTrue, IfOk, OnOk, pos, true};
ghost use Rattle.point_geom.specs.Place.{IsAt, IsBounds, IsCoordinate, IsCorner, IsCornerNumber, IsLowCorner, IsLowNumber, IsUpright, Place};
ghost use Rattle.point_geom.specs.Boxes.{IsOnGrid, cell_start, cube, holds, is_between, unit_box, voxel};
ghost use Rattle.point_geom.specs.Extents.{HoldsAll, HoldsSome, covers, is_crossed, meets};
ghost use Rattle.point_geom.specs.Refusals.{corner_check, corner_within, cuboid_of, upright, upright_check};

use crate::{Axis, Extent, Point};
use std::marker::Model;

/// A corner of a box, in millimetres.
#[derive(Clone, Copy, Debug, PartialEq, Eq)]
pub struct Corner {
    pub x: i64,
    pub y: i64,
    pub z: i64,
}

/// Why two corners make no box.
#[derive(Clone, Copy, Debug, PartialEq, Eq)]
pub enum CuboidError {
    /// A number below -1,099,511,627,776 or above 1,099,511,627,777, one past the last coordinate. The first is named,
    /// in the order x, y, z, and lo's before hi's.
    OutOfRange { axis: Axis, value: i64 },
    /// On this axis, and on none before it, hi is below lo.
    Inverted { axis: Axis },
}

/// A half-open box of the points with `lo <= p < hi` on every axis: of none where lo equals hi on one.
#[derive(Clone, Copy, Debug, PartialEq, Eq)]
pub struct Cuboid {
    lo: Corner,
    hi: Corner,
}

impl Model for Cuboid {
    ghost use Rattle.point_geom.specs.Place.{Bounds, IsBounds};

    ghost Value = { Bounds };

    ghost view = { λ c. record { lo = c.lo; hi = c.hi } };

    ghost invariant = { λ c. IsBounds (record { lo = c.lo; hi = c.hi }) };

    ghost inverse = { λ b. record { lo = b.lo; hi = b.hi } };
}

/// The longest edge of a cube of the grid, in millimetres: a kilometre.
pub const MAX_EDGE: u32 = 1_000_000;

impl Cuboid {
    const LEAST: i64 = -1_099_511_627_776;

    const GREATEST: i64 = 1_099_511_627_777;

    /// The box between these corners. `OutOfRange` is returned before `Inverted`.
    pub fn new(lo: Corner, hi: Corner) -> Result<Cuboid, CuboidError>
        ensures exact { result ≡ cuboid_of lo hi }
        ensures bounds { IfOk result IsBounds }
    {
        Self::within(lo)?;
        Self::within(hi)?;
        Self::upright(lo, hi)?;
        Ok(Cuboid { lo, hi })
    }

    /// The box of the points at this place, whatever their intensity.
    pub fn unit(p: &Point) -> Cuboid
        ensures value { result ≡ unit_box p.now }
        ensures meaning { (q : Place) → (holds result q ≡ true) ↔ IsAt p.now q }
    {
        let lo = Corner {
            x: p.x(),
            y: p.y(),
            z: p.z(),
        };
        Self::cube(lo, 1)
    }

    /// The corner with the least numbers.
    pub fn lo(&self) -> Corner
        ensures value { result ≡ self.now.lo }
        ensures bounds { IsBounds self.now }
    {
        self.lo
    }

    /// The corner with the greatest numbers.
    pub fn hi(&self) -> Corner
        ensures value { result ≡ self.now.hi }
        ensures bounds { IsBounds self.now }
    {
        self.hi
    }

    /// Whether the point is in the box.
    pub fn holds(&self, p: &Point) -> bool
        ensures { result ≡ holds self.now p.now }
    {
        let (lo, hi) = (&self.lo, &self.hi);
        let x = is_between(lo.x, p.x(), hi.x);
        let y = is_between(lo.y, p.y(), hi.y);
        let z = is_between(lo.z, p.z(), hi.z);
        all(x, y, z)
    }

    /// Whether every point of the extent is in the box.
    pub fn covers(&self, e: &Extent) -> bool
        ensures value { result ≡ covers self.now e.now }
        ensures meaning { IsTrue result ↔ HoldsAll self.now e.now }
    {
        let lo = self.holds(&e.lo());
        let hi = self.holds(&e.hi());
        lo && hi
    }

    /// Whether some point of the extent is in the box.
    pub fn meets(&self, e: &Extent) -> bool
        ensures value { result ≡ meets self.now e.now }
        ensures meaning { IsTrue result ↔ HoldsSome self.now e.now }
    {
        let (lo, hi) = (&self.lo, &self.hi);
        let (low, high) = (e.lo(), e.hi());
        let x = is_crossed(lo.x, hi.x, low.x(), high.x());
        let y = is_crossed(lo.y, hi.y, low.y(), high.y());
        let z = is_crossed(lo.z, hi.z, low.z(), high.z());
        all(x, y, z)
    }

    fn within(corner: Corner) -> Result<(), CuboidError>
        ensures exact { result ≡ corner_check corner }
        ensures ok { OnOk result (IsCorner corner) }
    {
        Self::number(Axis::X, corner.x)?;
        Self::number(Axis::Y, corner.y)?;
        Self::number(Axis::Z, corner.z)
    }

    fn number(axis: Axis, value: i64) -> Result<(), CuboidError>
        ensures exact { result ≡ corner_within axis value }
        ensures ok { OnOk result (IsCornerNumber value) }
    {
        if value < Self::LEAST || Self::GREATEST < value {
            Err(CuboidError::OutOfRange { axis, value })
        } else {
            Ok(())
        }
    }

    fn upright(lo: Corner, hi: Corner) -> Result<(), CuboidError>
        ensures exact { result ≡ upright_check lo hi }
        ensures ok { OnOk result (IsUpright lo hi) }
    {
        Self::upright_on(Axis::X, lo.x, hi.x)?;
        Self::upright_on(Axis::Y, lo.y, hi.y)?;
        Self::upright_on(Axis::Z, lo.z, hi.z)
    }

    fn upright_on(axis: Axis, lo: i64, hi: i64) -> Result<(), CuboidError>
        ensures exact { result ≡ upright axis lo hi }
        ensures ok { OnOk result (lo ≤ℤ hi) }
    {
        if hi < lo {
            Err(CuboidError::Inverted { axis })
        } else {
            Ok(())
        }
    }

    // Its corners may lie a kilometre farther out than those of `new`.
    fn cube(lo: Corner, length: u32) -> Cuboid
        requires low { IsLowCorner lo }
        requires short { length ≤ MAX_EDGE }
        ensures { result ≡ cube length lo }
    {
        let hi = Corner {
            x: far_end(lo.x, length),
            y: far_end(lo.y, length),
            z: far_end(lo.z, length),
        };
        Cuboid { lo, hi }
    }
}

fn is_between(lo: i64, c: i64, hi: i64) -> bool
    ensures { result ≡ is_between lo c hi }
{
    lo <= c && c < hi
}

fn is_crossed(lo: i64, hi: i64, low: i64, high: i64) -> bool
    ensures { result ≡ is_crossed lo hi low high }
{
    lo <= high && low < hi && lo < hi
}

fn all(x: bool, y: bool, z: bool) -> bool
    ensures { result ≡ (x && y && z) }
{
    x && y && z
}

fn far_end(start: i64, length: u32) -> i64
    requires low { IsLowNumber start }
    requires short { length ≤ MAX_EDGE }
    ensures value { result ≡ (start +ℤ pos length) }
    ensures range { IsCornerNumber result }
    ensures above { start ≤ℤ result }
{
    start + length as i64
}

/// The cube of the grid that the point is in. The grid's cubes have edges of this length in millimetres, and one of
/// them has its lower corner at 0.
pub fn voxel(p: &Point, length: u32) -> Cuboid
    requires positive { 1 ≤ length }
    requires short { length ≤ MAX_EDGE }
    ensures value { result ≡ voxel length p.now }
    ensures inside { holds result p.now ≡ true }
    ensures grid { IsOnGrid length result.lo }
{
    let lo = Corner {
        x: cell_start(p.x(), length),
        y: cell_start(p.y(), length),
        z: cell_start(p.z(), length),
    };
    Cuboid::cube(lo, length)
}

fn cell_start(c: i64, length: u32) -> i64
    requires range { IsCoordinate c }
    requires positive { 1 ≤ length }
    requires short { length ≤ MAX_EDGE }
    ensures value { result ≡ cell_start length c }
    ensures low { IsLowNumber result }
{
    c - c.rem_euclid(length as i64)
}
