//! What a pass sees of the others' updates.
use crate::tests::assertions::{found, same};
use crate::tests::trial::{
    Site, Trial, added, are_distinct, cuboid, deleted, in_box, near, tried, updated,
};
use map_fold::{BoxReply, NearReply};
use published_map::{Ended, MapName, Pass};
use rebuild_core::MapState;
use std::process::Abort;
use std::sync::Wait;

// The point (1, 0, 0), alone.
fn assert_found(rt: &impl Abort, reply: NearReply) {
    same(rt, "the mark", reply.mark, 1);
    same(rt, "hits", reply.hits.len(), 1);
    for hit in reply.hits.as_slice() {
        same(rt, "the number", hit.number, 0);
        same(rt, "the squared distance", hit.dist2, 1);
    }
}

fn assert_empty(rt: &impl Abort, reply: NearReply, mark: u64) {
    same(rt, "the mark", reply.mark, mark);
    same(rt, "hits", reply.hits.len(), 0);
}

fn assert_boxed(rt: &impl Abort, reply: BoxReply) {
    same(rt, "the mark", reply.mark, 1);
    same(rt, "the count", reply.count, 1);
    same(rt, "items", reply.items.len(), 1);
    for item in reply.items.as_slice() {
        same(rt, "the number", item.number, 0);
    }
}

// One caller adds a point that the other deletes.
struct TwoCallers;

// The second caller deletes it, and no pass finds it then.
fn deletes<L: MapName, R: Wait + Abort>(at: &Site<'_, L, R>, passes: &mut [Pass<L>]) {
    let around = deleted(at.rt, at.alloc, cuboid(at.rt, 2, 1, 1));
    let mark = updated(at, passes, 1, around);
    same(at.rt, "the second mark", mark, 2);
    // No clause says that a query enters the published version.
    assert_empty(at.rt, near(at, passes, 1, 1), 2);
    assert_empty(at.rt, near(at, passes, 0, 1), 2);
}

impl<R: Wait + Abort> Trial<R> for TwoCallers {
    fn run<L: MapName>(&self, at: &Site<'_, L, R>, passes: &mut [Pass<L>]) {
        same(at.rt, "the first mark", added(at, passes, 1..2), 1);
        assert!(at.rt; are_distinct(passes));
        at.shared.meet(at.rt, passes);
        assert_found(at.rt, near(at, passes, 1, 1));
        assert_found(at.rt, near(at, passes, 1, 17));
        assert_boxed(at.rt, in_box(at, passes, 1));
        deletes(at, passes);
    }

    fn end(&self, rt: &R, state: &MapState, ended: &[Ended]) {
        same(rt, "updates", state.history().len(), 2);
        same(rt, "callers", ended.len(), 2);
        for (told, caller) in ended.iter().zip([1, 2]) {
            same(rt, "the caller", told.caller, caller);
            same(rt, "the caller's updates", told.updates, 1);
            same(rt, "the caller's mark", told.mark, 2);
        }
    }
}

#[test]
fn a_pass_sees_what_the_other_caller_does(rt: HostRuntime) {
    tried(&rt, rt.alloc(), 2, &TwoCallers);
}

// No update was seen before the first query.
struct NewPass;

// The second pass sees the first update only then.
fn is_renewed<L: MapName>(rt: &impl Abort, passes: &mut [Pass<L>]) {
    let pass = found(rt, passes.get_mut(1));
    same(rt, "no updates", pass.version().len(), 0);
    pass.renew();
    same(rt, "the caller", pass.caller(), 2);
    same(rt, "updates", pass.version().len(), 1);
    same(rt, "live points", pass.version().counts().live, 1);
}

impl<R: Wait + Abort> Trial<R> for NewPass {
    fn run<L: MapName>(&self, at: &Site<'_, L, R>, passes: &mut [Pass<L>]) {
        assert_empty(at.rt, near(at, passes, 1, 1), 0);
        added(at, passes, 1..2);
        is_renewed(at.rt, passes);
        added(at, passes, 2..3);
        let reply = in_box(at, passes, 1);
        same(at.rt, "the mark", reply.mark, 2);
        same(at.rt, "the count", reply.count, 2);
    }

    fn end(&self, rt: &R, state: &MapState, _ended: &[Ended]) {
        same(rt, "live points", state.version().counts().live, 2);
    }
}

#[test]
fn a_version_stays_until_it_is_renewed(rt: HostRuntime) {
    tried(&rt, rt.alloc(), 2, &NewPass);
}
