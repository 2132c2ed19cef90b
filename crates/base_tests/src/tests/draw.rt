//! Draws: places, boxes and actions that look as if by chance, and are the same at each run.
ghost use Rattle.std.specs.Prelude.{pos, ◌≤ℤ◌, ◌<ℤ◌};

use crate::tests::assertions::made;
use crate::tests::numbered::between;
use map_fold::{Choice, Item, Label, Tag};
use point_geom::{Cuboid, Point};
use std::alloc::Global;
use std::process::Abort;

// What is done to the items that are chosen.
#[derive(Clone, Copy)]
pub struct Action {
    pub choice: Choice,
    pub tag: Tag,
}

// A generator of numbers that look random.
#[derive(Drop)]
pub struct Draw {
    pub state: u64,
}

impl Draw {
    // A number below 16.
    pub fn sixteenth(&mut self) -> i64
        ensures from { pos 0 ≤ℤ result }
        ensures below { result <ℤ pos 16 }
    {
        self.state = self.state.wrapping_mul(6_364_136_223_846_793_005);
        self.state = self.state.wrapping_add(1_442_695_040_888_963_407);
        (self.state >> 40) as i64 % 16
    }

    pub fn action(&mut self, rt: &impl Abort) -> Action {
        let cuboid = self.cuboid(rt);
        let choice = self.choice(&cuboid);
        let tag = self.tag();
        Action { choice, tag }
    }

    fn tag(&mut self) -> Tag {
        match self.sixteenth() {
            0..3 => Tag::DELETE,
            3..5 => Tag::THIN,
            5..11 => Tag::SUSPEND,
            _ => Tag::RESTORE,
        }
    }

    pub fn point(&mut self, rt: &impl Abort) -> Point {
        let point = Point::new(self.sixteenth(), self.sixteenth(), self.sixteenth());
        made(rt, point)
    }

    pub fn points(&mut self, rt: &impl Abort, alloc: Global, count: u32) -> Vec<Point> {
        let mut points = Vec::new(alloc);
        for _ in 0..count {
            let point = self.point(rt);
            made(rt, points.push(point));
        }
        points
    }

    // It covers, touches, cuts or misses a part of the points.
    pub fn cuboid(&mut self, rt: &impl Abort) -> Cuboid {
        let lo = (self.sixteenth(), self.sixteenth(), self.sixteenth());
        let hi = (
            lo.0 + self.sixteenth(),
            lo.1 + self.sixteenth(),
            lo.2 + self.sixteenth(),
        );
        made(rt, between(lo, hi))
    }

    // By the box, by numbers below a bound, by both, and of all.
    fn choice(&mut self, cuboid: &Cuboid) -> Choice {
        let bound = 64 * self.sixteenth() as u32;
        match self.sixteenth() {
            0..7 => Choice::within(cuboid),
            7..11 => Choice::below(bound),
            11..15 => Choice {
                within: Some(*cuboid),
                below: Some(bound),
            },
            _ => Choice::ALL,
        }
    }
}

// Does the action to the items of the list.
pub fn mark_plainly(items: &mut Vec<Item>, choice: &Choice, tag: Tag) {
    for item in items.iter_mut() {
        if choice.chooses(item) {
            item.label = tag.apply(item.label);
        }
    }
    items.retain(|i| i.label != Label::Dropped);
}
