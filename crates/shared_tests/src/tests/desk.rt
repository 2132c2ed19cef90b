//! Subtrees that are detached behind the lock.
ghost use Rattle.map_items.specs.Ops.{Fit};
ghost use Rattle.kd_tree.specs.Contents.{contents};

use crate::tests::assertions::{found, holds, made, same};
use crate::tests::trial::{Site, Trial, added, cuboid, deleted, tried, updated};
use kd_search::nearest;
use map_fold::Op;
use point_geom::Point;
use published_map::{Ended, MapName, Pass};
use rebuild_core::{Built, Desk, Job, Late, LogAsk, MapState, SwapFault, Version};
use std::alloc::Global;
use std::process::Abort;
use std::sync::{Mutex, Wait};

fn detached<L: MapName, R: Wait + Abort>(at: &Site<'_, L, R>) -> Job {
    let job = made(at.rt, at.shared.detach(at.rt, at.alloc, 1));
    found(at.rt, job)
}

fn built(rt: &impl Abort, alloc: Global, job: Job) -> Built {
    found(rt, job.build(alloc, 16).ok())
}

// The points from 1 to 40 are rebuilt while more are added, of which 64 are few enough.
struct AddedMeanwhile {
    last: i64,
}

// The value of the first ticket.
fn first<L: MapName, R: Wait + Abort>(at: &Site<'_, L, R>) -> Built {
    let job = detached(at);
    same(at.rt, "the ticket", job.ticket(), 1);
    same(at.rt, "items", job.items().len(), 40);
    built(at.rt, at.alloc, job)
}

// The value, swapped in with all that it lacks done.
fn is_swapped<L: MapName, R: Wait + Abort>(at: &Site<'_, L, R>, built: Built) {
    let is_done = at.shared.swap(at.rt, at.alloc, built, false).is_ok();
    holds(at.rt, "it is swapped in", is_done);
}

// The value with its 65 operations done.
fn replayed(rt: &impl Abort, alloc: Global, built: Built, ops: &[Op]) -> Built
    requires { Fit (contents built.tree) ops.now }
{
    same(rt, "operations", ops.len(), 65);
    found(rt, built.replay(alloc, 16, ops).ok())
}

// Brings a value up to date that has 65 operations to do, and swaps it in.
fn catch_up<L: MapName, R: Wait + Abort>(at: &Site<'_, L, R>, built: Built) {
    let behind = SwapFault::Behind { left: 65 };
    let built = refused(at, built, false, behind);
    let ops = made(at.rt, at.shared.log_after(at.rt, at.alloc, &built));
    let built = replayed(at.rt, at.alloc, built, ops.as_slice());
    is_swapped(at, built);
}

// The value, which isn't swapped in for this fault.
fn refused<L: MapName, R: Wait + Abort>(
    at: &Site<'_, L, R>,
    built: Built,
    force: bool,
    fault: SwapFault,
) -> Built {
    let left = found(at.rt, at.shared.swap(at.rt, at.alloc, built, force).err());
    same(at.rt, "the fault", left.fault, fault);
    left.built
}

// A subtree that is detached afresh leaves the first value stale.
fn detach_twice<L: MapName, R: Wait + Abort>(at: &Site<'_, L, R>) {
    let second = detached(at);
    same(at.rt, "the second ticket", second.ticket(), 2);
    let third = detached(at);
    same(at.rt, "the third ticket", third.ticket(), 3);
    let second = built(at.rt, at.alloc, second);
    let asked = at.shared.log_after(at.rt, at.alloc, &second).err();
    same(
        at.rt,
        "the answer",
        asked,
        Some(LogAsk::Stale { ticket: 2 }),
    );
    is_stale(at, second, 2);
}

// The value is refused, though the swap is forced.
fn is_stale<L: MapName, R: Wait + Abort>(at: &Site<'_, L, R>, built: Built, ticket: u64) {
    let _built = refused(at, built, true, SwapFault::Stale { ticket });
}

impl<R: Wait + Abort> Trial<R> for AddedMeanwhile {
    fn run<L: MapName>(&self, at: &Site<'_, L, R>, passes: &mut [Pass<L>]) {
        let none = made(at.rt, at.shared.detach(at.rt, at.alloc, 1));
        holds(at.rt, "nothing to detach", none.is_none());
        added(at, passes, 1..41);
        let built = first(at);
        added(at, passes, 41..self.last);
        if self.last < 106 {
            is_swapped(at, built);
        } else {
            catch_up(at, built);
            detach_twice(at);
        }
    }

    // The third ticket's subtree is detached, and nothing is logged there, or nothing is detached.
    fn end(&self, rt: &R, state: &MapState, _ended: &[Ended]) {
        let next = i64::from(state.version().counts().live) + 1;
        same(rt, "the place behind the last point", next, self.last);
        let part = state.part(1).map(|part| (part.ticket, part.logged));
        let want = if self.last < 106 { None } else { Some((3, 0)) };
        same(rt, "what is detached", part, want);
    }
}

#[test]
fn a_value_that_is_64_behind_is_swapped_in(rt: HostRuntime) {
    tried(&rt, rt.alloc(), 1, &AddedMeanwhile { last: 105 });
}

#[test]
fn a_value_that_is_65_behind_catches_up_and_a_stale_one_is_refused(rt: HostRuntime) {
    tried(&rt, rt.alloc(), 1, &AddedMeanwhile { last: 106 });
}

// So many points are live, and nothing is detached.
fn all_are_live(rt: &impl Abort, state: &MapState, live: u32) {
    same(rt, "live points", state.version().counts().live, live);
    holds(rt, "nothing is detached", state.part(1).is_none());
}

// The value with all done that it is told it lacks.
fn told<L: MapName, R: Wait + Abort>(at: &Site<'_, L, R>, built: Built) -> Built {
    let late = at.shared.swap_or_log(at.rt, at.alloc, built, 64);
    let Err(Late::Behind { built, ops }) = late else {
        panic!(at.rt; "it isn't told what it lacks");
    };
    replayed(at.rt, at.alloc, built, ops.as_slice())
}

// In one call a value that is 65 behind is told what it lacks, and then it is swapped in.
struct ToldMeanwhile;

impl<R: Wait + Abort> Trial<R> for ToldMeanwhile {
    fn run<L: MapName>(&self, at: &Site<'_, L, R>, passes: &mut [Pass<L>]) {
        added(at, passes, 1..41);
        let built = first(at);
        added(at, passes, 41..106);
        let built = told(at, built);
        let done = at.shared.swap_or_log(at.rt, at.alloc, built, 0);
        holds(at.rt, "it is swapped in", done.is_ok());
    }

    fn end(&self, rt: &R, state: &MapState, _ended: &[Ended]) {
        all_are_live(rt, state, 105);
    }
}

#[test]
fn one_call_swaps_a_value_in_or_tells_what_it_lacks(rt: HostRuntime) {
    tried(&rt, rt.alloc(), 1, &ToldMeanwhile);
}

// Another map lends its value of the first ticket, which holds other points.
#[derive(Drop)]
struct Lent {
    built: Mutex<Option<Built>>,
}

// The lent value is stale, and this map's own is swapped in after it.
fn refuse<L: MapName, R: Wait + Abort>(at: &Site<'_, L, R>, lent: Built) {
    let own = first(at);
    let late = at.shared.swap_or_log(at.rt, at.alloc, lent, 64);
    let Err(Late::Stale { built }) = late else {
        panic!(at.rt; "the lent value isn't stale");
    };
    same(at.rt, "its ticket", built.ticket(), 1);
    is_stale(at, built, 1);
    is_swapped(at, own);
}

impl<R: Wait + Abort> Trial<R> for Lent {
    fn run<L: MapName>(&self, at: &Site<'_, L, R>, passes: &mut [Pass<L>]) {
        added(at, passes, 1..41);
        let mut built = self.built.lock(at.rt);
        let lent = found(at.rt, built.take());
        refuse(at, lent);
    }

    fn end(&self, rt: &R, state: &MapState, _ended: &[Ended]) {
        all_are_live(rt, state, 40);
    }
}

struct Lender;

impl<R: Wait + Abort> Trial<R> for Lender {
    fn run<L: MapName>(&self, at: &Site<'_, L, R>, passes: &mut [Pass<L>]) {
        added(at, passes, 2..42);
        let built = Mutex::new(Some(first(at)));
        tried(at.rt, at.alloc, 1, &Lent { built });
    }

    fn end(&self, rt: &R, state: &MapState, _ended: &[Ended]) {
        holds(rt, "a subtree is detached", state.part(1).is_some());
    }
}

#[test]
fn a_value_of_another_map_is_stale(rt: HostRuntime) {
    tried(&rt, rt.alloc(), 1, &Lender);
}

// A pass keeps a version while points are deleted and a built value is swapped in.
struct KeptMeanwhile;

// The second pass keeps the points from 1 to 40.
fn assert_kept(rt: &impl Abort, alloc: Global, version: &Version) {
    same(rt, "updates", version.len(), 1);
    same(rt, "live points", version.counts().live, 40);
    let query = made(rt, Point::new(0, 0, 0));
    let hits = made(rt, nearest(alloc, version.tree(), 9, &query, None));
    same(rt, "hits", hits.len(), 9);
    for (place, hit) in hits.as_slice().iter().enumerate() {
        same(rt, "the number in its place", hit.number as usize, place);
    }
}

// The second pass sees what there is.
fn renew<L: MapName>(rt: &impl Abort, passes: &mut [Pass<L>]) {
    found(rt, passes.get_mut(1)).renew();
}

impl<R: Wait + Abort> Trial<R> for KeptMeanwhile {
    fn run<L: MapName>(&self, at: &Site<'_, L, R>, passes: &mut [Pass<L>]) {
        added(at, passes, 1..41);
        renew(at.rt, passes);
        let built = first(at);
        let near = deleted(at.rt, at.alloc, cuboid(at.rt, 10, 1, 1));
        updated(at, passes, 0, near);
        is_swapped(at, built);
        // The step after a swap is the one that drops what was before it.
        added(at, passes, 41..42);
        let pass = found(at.rt, passes.get(1));
        assert_kept(at.rt, at.alloc, pass.version());
    }

    fn end(&self, rt: &R, state: &MapState, _ended: &[Ended]) {
        same(rt, "live points", state.version().counts().live, 32);
    }
}

#[test]
fn a_swap_leaves_a_version_that_a_pass_keeps(rt: HostRuntime) {
    tried(&rt, rt.alloc(), 2, &KeptMeanwhile);
}
