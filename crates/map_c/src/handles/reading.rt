//! Points and boxes of C, as those of the library.
ghost use Rattle.std.specs.Prelude.{◌≡◌, All, Any, IfOk, IfErr, OnOk, map};
ghost use Rattle.map_c.specs.{Forms.{IsRightBox, IsRightPlace, IsRightPoint, bounds_at, corner_at, place_at, point_at}, Status.{IsNoList, code}};
ghost use Rattle.map_c.specs.declared.handles.refusal.Refusal.TheVariants.{BadBox, OutOfRange};

use crate::handles::forms::{Bounds, Place, Point};
use crate::handles::refusal::Refusal;
use map_fold::Sequence;
use point_geom::{Corner, Cuboid};
use std::alloc::Global;

/// The point at a place.
pub fn read_place(place: &Place) -> Result<point_geom::Point, Refusal>
    ensures ok { IfOk result (λ p. p ≡ place_at place.now) }
    ensures range { OnOk result (IsRightPlace place.now) }
    ensures refused { IfErr result (λ r. (r ≡ OutOfRange) × (IsRightPlace place.now → ⊥)) }
{
    match point_geom::Point::new(place.x, place.y, place.z) {
        Ok(point) => Ok(point),
        Err(_) => Err(Refusal::OutOfRange),
    }
}

fn read_point(point: &Point) -> Result<point_geom::Point, Refusal>
    ensures ok { IfOk result (λ p. p ≡ point_at point.now) }
    ensures range { OnOk result (IsRightPoint point.now) }
    ensures refused { IfErr result (λ r. (r ≡ OutOfRange) × (IsRightPoint point.now → ⊥)) }
{
    match point_geom::Point::new(point.x, point.y, point.z) {
        Ok(bare) => Ok(bare.with_intensity(point.intensity)),
        Err(_) => Err(Refusal::OutOfRange),
    }
}

/// The box.
pub fn read_box(bounds: &Bounds) -> Result<Cuboid, Refusal>
    ensures ok { IfOk result (λ c. c ≡ bounds_at bounds.now) }
    ensures range { OnOk result (IsRightBox bounds.now) }
    ensures refused { IfErr result (λ r. (r ≡ BadBox) × (IsRightBox bounds.now → ⊥)) }
{
    match Cuboid::new(read_corner(&bounds.lo), read_corner(&bounds.hi)) {
        Ok(cuboid) => Ok(cuboid),
        Err(_) => Err(Refusal::BadBox),
    }
}

fn read_corner(place: &Place) -> Corner
    ensures { result ≡ corner_at place.now }
{
    Corner {
        x: place.x,
        y: place.y,
        z: place.z,
    }
}

/// What is made of a struct of C.
pub trait FromC<C>: Drop {
    ghost use Rattle.map_c.specs.declared.handles.refusal.Refusal.{Refusal};

    /// What the struct stands for.
    ghost of_c: { C → Self };

    /// Whether it stands for anything.
    ghost is_right: { C → Type 0 };

    /// Why it is refused otherwise.
    ghost cause: { Refusal };

    fn from_c(from: &C) -> Result<Self, Refusal>
        ensures ok { IfOk result (λ made. made ≡ of_c from.now) }
        ensures range { OnOk result (is_right from.now) }
        ensures refused { IfErr result (λ r. (r ≡ cause) × (is_right from.now → ⊥)) };
}

impl FromC<Point> for point_geom::Point {
    ghost of_c = { point_at };

    ghost is_right = { IsRightPoint };

    ghost cause = { OutOfRange };

    fn from_c(point: &Point) -> Result<point_geom::Point, Refusal> {
        read_point(point)
    }
}

impl FromC<Bounds> for Cuboid {
    ghost of_c = { bounds_at };

    ghost is_right = { IsRightBox };

    ghost cause = { BadBox };

    fn from_c(bounds: &Bounds) -> Result<Cuboid, Refusal> {
        read_box(bounds)
    }
}

/// Reads each of them, in order.
pub fn read_all<C, T: FromC<C>>(alloc: Global, all: &[C]) -> Result<Sequence<T>, Refusal>
    ensures ok { IfOk result (λ made. made ≡ map T.of_c all.now) }
    ensures range { OnOk result (All T.is_right all.now) }
    ensures refused { IfErr result (λ r. IsNoList (code T.cause) (Any (λ x. T.is_right x → ⊥) all.now) (code r)) }
{
    let mut made = Sequence::new(alloc);
    for one in all {
        made.push(T::from_c(one)?)?;
    }
    Ok(made)
}
