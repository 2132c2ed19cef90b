//! Versions that somebody holds while later updates make their nodes in the memory of others.
use crate::tests::assertions::{found, holds, made};
use crate::tests::draws::Draws;
use crate::tests::looks::live;
use crate::tests::steps::{on_new_map, update};
use map_fold::{Items, Settings, Update};
use rebuild_core::{MapState, Version};
use std::alloc::Global;
use std::process::Abort;
use std::sync::Arc;

#[derive(Drop)]
struct Held {
    version: Arc<Version>,
    items: Items,
}

fn assert_all_same(rt: &impl Abort, alloc: Global, held: &[Held]) {
    for one in held {
        let items = made(rt, one.version.tree().flatten(alloc));
        let are_same = items.as_slice() == one.items.as_slice();
        holds(rt, "what the version held", are_same);
    }
}

// Three scans: one is put, and two are thinned. Before the last, the caller gives back a version that nobody else has.
fn three_scans(rt: &impl Abort, alloc: Global, state: &mut MapState, draws: &mut Draws) {
    let scan = draws.scan(rt, alloc, 200);
    update(rt, alloc, state, Update::Add(scan));
    let version = made(rt, Arc::try_clone(state.version()));
    let scan = draws.scan(rt, alloc, 200);
    update(rt, alloc, state, Update::Thin(scan));
    state.recycle(version);
    let scan = draws.scan(rt, alloc, 300);
    update(rt, alloc, state, Update::Thin(scan));
}

#[test]
fn a_held_version_stays_while_others_nodes_are_reused(rt: HostRuntime) {
    on_new_map(&rt, rt.alloc(), Settings::new(1, 1_500), stay_the_same);
}

fn stay_the_same(rt: &impl Abort, alloc: Global, state: &mut MapState) {
    let mut draws = Draws::from(3);
    let mut held = Vec::new(alloc);
    for _ in 0..6 {
        three_scans(rt, alloc, state, &mut draws);
        let one = held_now(rt, alloc, state);
        found(rt, held.push(one).ok());
        assert_all_same(rt, alloc, held.as_slice());
    }
    holds(rt, "many are live", live(state) > 200);
}

fn held_now(rt: &impl Abort, alloc: Global, state: &MapState) -> Held {
    let version = made(rt, Arc::try_clone(state.version()));
    let items = made(rt, version.tree().flatten(alloc));
    Held { version, items }
}
