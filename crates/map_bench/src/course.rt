//! What is drawn before the clock runs.
ghost use Rattle.std.specs.Prelude.{IfOk};
ghost use Rattle.map_items.specs.Contents.{AreContents};

use crate::draws::Draws;
use map_fold::{Cuboids, Item, Items, NoMemory, Points, Update};
use point_geom::{Corner, Cuboid, Point};
use std::alloc::Global;
use std::ops::Range;

/// How many points a scan has.
pub const POINTS_OF_SCAN: u32 = 2_000;

// As many points as one update may have.
const MOST_AT_ONCE: u32 = 262_144;

const SCANS_OF_DELETION: u32 = 10;

/// How the points of scans lie.
#[derive(Clone, Copy)]
pub enum Lie {
    /// Round a robot that moves a metre along x from scan to scan. After each tenth, what lies from 30 to 60 metres behind it is left.
    Left,
    /// Round one place, as many at once as may be, and so the next two.
    Drawn,
    /// In a row along x, from below.
    Rising,
    /// All at one place.
    Equal,
}

impl Lie {
    fn points_of_scan(self) -> u32 {
        match self {
            Lie::Drawn | Lie::Rising | Lie::Equal => MOST_AT_ONCE,
            Lie::Left => POINTS_OF_SCAN,
        }
    }

    fn point(self, scan: u32, number: u32, draws: &mut Draws) -> Point {
        match self {
            Lie::Left => draws.point(scan),
            Lie::Drawn => draws.point(0),
            Lie::Rising => Point::new(number as i64, 0, 0).unwrap_or_default(),
            Lie::Equal => Point::default(),
        }
    }
}

/// What a map takes in at once, and what is deleted then.
#[derive(Drop)]
pub struct Scan {
    pub points: Points,
    pub left: Option<Cuboid>,
}

/// Scans of so many points together.
pub fn scans(
    alloc: Global,
    lie: Lie,
    count: u32,
    draws: &mut Draws,
) -> Result<Vec<Scan>, NoMemory> {
    let at_once = lie.points_of_scan().max(1);
    let mut scans = Vec::new(alloc);
    for scan in 0..count.div_ceil(at_once) {
        let from = scan.saturating_mul(at_once);
        let to = from.saturating_add(at_once).min(count);
        let points = points(alloc, lie, scan, from..to, draws)?;
        let left = left_at(lie, scan);
        scans.push(Scan { points, left })?;
    }
    Ok(scans)
}

// The points of a scan that have these numbers.
fn points(
    alloc: Global,
    lie: Lie,
    scan: u32,
    numbers: Range<u32>,
    draws: &mut Draws,
) -> Result<Points, NoMemory> {
    let mut points = Points::new(alloc);
    for number in numbers {
        points.push(lie.point(scan, number, draws))?;
    }
    Ok(points)
}

fn left_at(lie: Lie, scan: u32) -> Option<Cuboid> {
    let x = 1_000 * scan as i64;
    match lie {
        Lie::Left if scan % SCANS_OF_DELETION == SCANS_OF_DELETION - 1 => {
            Some(slab(x - 60_000, x - 30_000))
        }
        _ => None,
    }
}

// All that lies between two places along x.
fn slab(from: i64, to: i64) -> Cuboid {
    let lo = Corner {
        x: from,
        y: -30_000,
        z: -3_000,
    };
    let hi = Corner {
        x: to,
        y: 30_001,
        z: 3_001,
    };
    Cuboid::new(lo, hi).unwrap_or(Cuboid::unit(&Point::default()))
}

/// What deletes what was left.
pub fn deletion(alloc: Global, left: &Cuboid) -> Result<Update, NoMemory> {
    let mut cuboids = Cuboids::new(alloc);
    cuboids.push(*left)?;
    Ok(Update::Delete(cuboids))
}

/// The points of the robot's scans in one list, live, under the numbers from 0 on.
pub fn items(alloc: Global, count: u32, draws: &mut Draws) -> Result<Items, NoMemory>
    ensures { IfOk result (AreContents 0 count) }
{
    let mut items = Items::new(alloc);
    for number in 0..count {
        let point = draws.point(number / POINTS_OF_SCAN);
        items.push(Item::live(number, point))?;
    }
    Ok(items)
}

/// So many places, in turn from all over what the robot's scans of so many points saw.
pub fn places(
    alloc: Global,
    count: u32,
    points: u32,
    draws: &mut Draws,
) -> Result<Points, NoMemory> {
    let scans = (points / POINTS_OF_SCAN).max(1);
    let mut places = Points::new(alloc);
    for place in 0..count {
        places.push(draws.point(place % scans))?;
    }
    Ok(places)
}

/// Cubes of a metre with such places as their lower corners.
pub fn cubes(
    alloc: Global,
    count: u32,
    points: u32,
    draws: &mut Draws,
) -> Result<Cuboids, NoMemory> {
    let places = places(alloc, count, points, draws)?;
    let mut cubes = Cuboids::new(alloc);
    for place in places.as_slice() {
        cubes.push(cube(place))?;
    }
    Ok(cubes)
}

fn cube(lo: &Point) -> Cuboid {
    let lo = Corner {
        x: lo.x(),
        y: lo.y(),
        z: lo.z(),
    };
    let hi = Corner {
        x: lo.x + 1_000,
        y: lo.y + 1_000,
        z: lo.z + 1_000,
    };
    Cuboid::new(lo, hi).unwrap_or(Cuboid::unit(&Point::default()))
}
