//! Places, points and boxes as C has them, in millimetres.

/// A place.
#[repr(C)]
#[derive(Clone, Copy)]
pub struct Place {
    pub x: i64,
    pub y: i64,
    pub z: i64,
}

/// A place with an intensity.
#[repr(C)]
#[derive(Clone, Copy)]
pub struct Point {
    pub x: i64,
    pub y: i64,
    pub z: i64,
    pub intensity: u16,
}

/// A half-open box.
#[repr(C)]
#[derive(Clone, Copy)]
pub struct Bounds {
    pub lo: Place,
    pub hi: Place,
}

/// A live point that was found. Its squared distance is `dist2_high` times 2 ^ 64, and `dist2_low`.
#[repr(C)]
#[derive(Clone, Copy)]
pub struct Hit {
    pub point: Point,
    pub dist2_high: u64,
    pub dist2_low: u64,
    pub number: u32,
}

/// A point that is held, under its number. It is live where `suspended` is 0, and suspended where it is 1. No bool, since C may
/// hand in memory that holds anything.
#[repr(C)]
#[derive(Clone, Copy)]
pub struct Item {
    pub point: Point,
    pub number: u32,
    pub suspended: u32,
}

/// A cluster: the least number in it, and how many points it has.
#[repr(C)]
#[derive(Clone, Copy)]
pub struct Cluster {
    pub number: u32,
    pub points: u32,
}

/// A region of a map that moves with the robot: its corner with the least numbers, and its rules.
#[repr(C)]
#[derive(Clone, Copy)]
pub struct Region {
    pub lo: Place,
    pub side: u64,
    pub ball: u64,
    pub step: u64,
}

/// How many updates were made, how many points they submitted, and how many of those are live and how many suspended.
#[repr(C)]
#[derive(Clone, Copy)]
pub struct Totals {
    pub updates: u64,
    pub points: u32,
    pub live: u32,
    pub suspended: u32,
}
