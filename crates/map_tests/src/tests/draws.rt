//! Draws: numbers, places and updates that look as if by chance, and are the same at each run.
ghost use Rattle.std.specs.Prelude.{◌<◌, ◌^◌};

use crate::tests::assertions::made;
use map_fold::{Cuboids, Points, Update};
use point_geom::{Corner, Cuboid, Point};
use std::alloc::Global;
use std::process::Abort;

#[derive(Drop)]
pub struct Draws {
    state: u64,
    ghost small: { state < 2 ^ 32 },
}

impl Draws {
    pub fn from(state: u64) -> Draws
        requires { state < 2 ^ 32 }
    {
        Draws { state }
    }

    // From 0 on and below the bound.
    pub fn below(&mut self, bound: u64) -> u64
        requires { 0 < bound }
        ensures { result < bound }
    {
        self.state = (self.state * 1_664_525 + 1_013_904_223) % 4_294_967_296;
        self.state / 65_536 % bound
    }

    // A place of a small grid round the origin, so that points tie and are equal, with an intensity.
    pub fn point(&mut self, rt: &impl Abort) -> Point {
        let (x, y, z) = (self.below(16), self.below(8), self.below(4));
        let point = made(rt, Point::new(x as i64 - 8, y as i64 - 4, z as i64 - 2));
        point.with_intensity((self.state % 3) as u16)
    }

    pub fn cuboid(&mut self, rt: &impl Abort) -> Cuboid {
        let at = self.point(rt);
        let lo = Corner {
            x: at.x(),
            y: at.y(),
            z: at.z(),
        };
        let hi = Corner {
            x: lo.x + self.below(9) as i64,
            y: lo.y + self.below(9) as i64,
            z: lo.z + self.below(9) as i64,
        };
        made(rt, Cuboid::new(lo, hi))
    }

    fn boxes(&mut self, rt: &impl Abort, alloc: Global) -> Cuboids {
        let mut boxes = Cuboids::new(alloc);
        for _ in 0..self.below(3) {
            let cuboid = self.cuboid(rt);
            made(rt, boxes.push(cuboid));
        }
        boxes
    }

    fn points(&mut self, rt: &impl Abort, alloc: Global) -> Points {
        let count = self.below(9) as u32;
        self.scan(rt, alloc, count)
    }

    // So many of those places.
    pub fn scan(&mut self, rt: &impl Abort, alloc: Global, count: u32) -> Points {
        let mut points = Points::new(alloc);
        for _ in 0..count {
            let point = self.point(rt);
            made(rt, points.push(point));
        }
        points
    }

    // An update of any kind, where so many points were submitted. Of their numbers a sixteenth may expire, or fewer.
    pub fn update(&mut self, rt: &impl Abort, alloc: Global, next: u32) -> Update {
        match self.below(9) {
            0 => Update::Delete(self.boxes(rt, alloc)),
            1 => Update::Suspend(self.boxes(rt, alloc)),
            2 => Update::Restore(self.boxes(rt, alloc)),
            3 => Update::Expire(self.below(next as u64 + 1) as u32 / 16),
            4 | 5 => Update::Thin(self.points(rt, alloc)),
            _ => Update::Add(self.points(rt, alloc)),
        }
    }
}
