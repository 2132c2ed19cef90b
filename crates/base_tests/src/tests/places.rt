//! Points and boxes by their numbers.
use crate::tests::assertions::made;
use point_geom::{Corner, Cuboid, Point};
use std::process::Abort;

pub type Place = (i64, i64, i64);

pub fn at(rt: &impl Abort, place: Place) -> Point {
    let (x, y, z) = place;
    made(rt, Point::new(x, y, z))
}

pub fn corner(place: Place) -> Corner {
    let (x, y, z) = place;
    Corner { x, y, z }
}

pub fn cuboid(rt: &impl Abort, lo: Place, hi: Place) -> Cuboid {
    made(rt, Cuboid::new(corner(lo), corner(hi)))
}
