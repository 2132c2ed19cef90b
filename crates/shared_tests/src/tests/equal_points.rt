//! A map that is settled behind its lock.
ghost use Rattle.std.specs.Prelude.{◌≤◌};

use crate::tests::assertions::{found, holds, made, same};
use crate::tests::trial::{Site, Trial, added, tried, updated};
use map_fold::{NearReply, Points, Update};
use point_geom::Point;
use published_map::{Ended, MapName, Pass};
use rebuild_core::{MapState, Version};
use std::alloc::Global;
use std::process::Abort;
use std::sync::Wait;

fn at_one_place(rt: &impl Abort, alloc: Global) -> Points {
    let place = made(rt, Point::new(3, 3, 3));
    let mut points = Points::new(alloc);
    for _ in 0..5_000u32 {
        made(rt, points.push(place));
    }
    points
}

// Whether a subtree from this size on is out of balance.
fn is_breached(version: &Version, large: u32) -> bool
    requires { 10 ≤ large }
{
    version.tree().first_breach(large).is_some()
}

// The points of numbers 0 and 1, found where they lie.
fn are_first(rt: &impl Abort, reply: &NearReply) {
    same(rt, "the mark of the reply", reply.mark, 1);
    same(rt, "hits", reply.hits.len(), 2);
    for (place, hit) in reply.hits.as_slice().iter().enumerate() {
        same(rt, "the number in its place", hit.number as usize, place);
        same(rt, "the squared distance", hit.dist2, 0);
    }
}

// All points are the same.
struct EqualPoints;

impl<R: Wait + Abort> Trial<R> for EqualPoints {
    fn run<L: MapName>(&self, at: &Site<'_, L, R>, passes: &mut [Pass<L>]) {
        let points = at_one_place(at.rt, at.alloc);
        let mark = updated(at, passes, 0, Update::Add(points));
        same(at.rt, "the mark", mark, 1);
        made(at.rt, at.shared.settle(at.rt, at.alloc));
        let pass = found(at.rt, passes.get_mut(0));
        pass.renew();
        holds(at.rt, "no breach", !is_breached(pass.version(), 10));
        let query = made(at.rt, Point::new(3, 3, 3));
        let reply = made(at.rt, pass.nearest(at.alloc, 2, &query, None));
        are_first(at.rt, &reply);
    }

    fn end(&self, rt: &R, state: &MapState, ended: &[Ended]) {
        same(rt, "live points", state.version().counts().live, 5_000);
        holds(rt, "no breach", !is_breached(state.version(), 10));
        same(rt, "updates", state.history().len(), 1);
        same(rt, "callers", ended.len(), 1);
    }
}

// Forty points in a row, which leave a breach.
struct PointsInARow;

impl<R: Wait + Abort> Trial<R> for PointsInARow {
    fn run<L: MapName>(&self, at: &Site<'_, L, R>, passes: &mut [Pass<L>]) {
        added(at, passes, 1..41);
        let pass = found(at.rt, passes.get_mut(0));
        holds(at.rt, "a breach", is_breached(pass.version(), 16));
        made(at.rt, at.shared.settle(at.rt, at.alloc));
        pass.renew();
        holds(at.rt, "no breach", !is_breached(pass.version(), 16));
    }

    fn end(&self, rt: &R, state: &MapState, _ended: &[Ended]) {
        same(rt, "live points", state.version().counts().live, 40);
        holds(rt, "no breach", !is_breached(state.version(), 16));
    }
}

#[test]
fn settling_leaves_no_breach_behind_the_lock(rt: HostRuntime) {
    tried(&rt, rt.alloc(), 1, &EqualPoints);
    tried(&rt, rt.alloc(), 1, &PointsInARow);
}
