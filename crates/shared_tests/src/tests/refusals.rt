//! Updates that are refused. For lack of memory none is in a plain run: allocations are refused from outside.
use crate::tests::assertions::{found, made, same};
use crate::tests::trial::{Site, Trial, added, row, tried};
use map_fold::{Points, Update};
use point_geom::Point;
use published_map::{Ended, MapName, Pass};
use rebuild_core::{MapState, StateFault};
use std::alloc::Global;
use std::process::Abort;
use std::sync::Wait;

// The mark of the update, or of the other one where there was no memory for the first.
fn in_two_tries<L: MapName, R: Wait + Abort>(
    at: &Site<'_, L, R>,
    pass: &mut Pass<L>,
    update: Update,
    again: Update,
) -> Result<u64, StateFault> {
    match at.shared.update(at.rt, at.alloc, pass, update) {
        Err(StateFault::NoMemory) => at.shared.update(at.rt, at.alloc, pass, again),
        done => done,
    }
}

// An update for which there is no memory is made again.
struct MadeAgain;

impl<R: Wait + Abort> Trial<R> for MadeAgain {
    fn run<L: MapName>(&self, at: &Site<'_, L, R>, passes: &mut [Pass<L>]) {
        let pass = found(at.rt, passes.get_mut(0));
        for mark in 1..4u64 {
            let update = row(at.rt, at.alloc, 1, 9);
            let again = row(at.rt, at.alloc, 1, 9);
            let done = in_two_tries(at, pass, update, again);
            same(at.rt, "the mark", done.ok(), Some(mark));
        }
    }

    fn end(&self, rt: &R, state: &MapState, _ended: &[Ended]) {
        same(rt, "updates", state.history().len(), 3);
        same(rt, "the next number", state.next(), 24);
    }
}

#[test]
fn an_update_that_wanted_memory_gets_its_mark_later(rt: HostRuntime) {
    tried(&rt, rt.alloc(), 1, &MadeAgain);
}

// The second caller adds more points than there may be.
struct TooMany;

fn too_many(rt: &impl Abort, alloc: Global) -> Update {
    let point = made(rt, Point::new(0, 0, 0));
    let mut points = Points::new(alloc);
    for _ in 0..4_194_304u32 {
        made(rt, points.push(point));
    }
    Update::Add(points)
}

impl<R: Wait + Abort> Trial<R> for TooMany {
    fn run<L: MapName>(&self, at: &Site<'_, L, R>, passes: &mut [Pass<L>]) {
        added(at, passes, 1..2);
        let pass = found(at.rt, passes.get_mut(1));
        let points = too_many(at.rt, at.alloc);
        let answer = at.shared.update(at.rt, at.alloc, pass, points);
        let (next, asked) = (1, 4_194_304);
        let want = StateFault::TooManyPoints { next, asked };
        same(at.rt, "the fault", answer.err(), Some(want));
        // It was not renewed.
        same(at.rt, "updates that it sees", pass.version().len(), 1);
    }

    fn end(&self, rt: &R, state: &MapState, _ended: &[Ended]) {
        same(rt, "updates", state.history().len(), 1);
    }
}

#[test]
fn a_refused_update_shows_its_caller_what_the_other_did(rt: HostRuntime) {
    tried(&rt, rt.alloc(), 2, &TooMany);
}
