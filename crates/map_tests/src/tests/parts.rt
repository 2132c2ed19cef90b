//! Detached subtrees.
use crate::tests::assertions::{found, holds, made, same};
use crate::tests::draws::Draws;
use crate::tests::looks::{is_breached, live, logged, suspended};
use crate::tests::steps::{
    add, built, detached, is_balanced, is_of, is_stale, new_map, on_new_map, row, row_box, settled,
    swap_ends, swapped, update,
};
use map_fold::{Points, Settings, Update};
use point_geom::Point;
use rebuild_core::{Built, Job, MapState, SwapFault};
use std::alloc::Global;
use std::process::Abort;

#[test]
fn what_expires_in_a_detached_subtree_is_logged(rt: HostRuntime) {
    on_new_map(&rt, rt.alloc(), Settings::new(200, 16), expires_meanwhile);
}

fn holds_the_later(rt: &impl Abort, alloc: Global, state: &MapState) {
    let items = made(rt, state.version().tree().flatten(alloc));
    same(rt, "items", items.len(), 20);
    let first = items.as_slice().first().map(|item| item.number);
    same(rt, "the first number", first, Some(20));
}

fn expires_meanwhile(rt: &impl Abort, alloc: Global, state: &mut MapState) {
    add(rt, alloc, state, 1, 41);
    let job = detached(rt, alloc, state, 1);
    update(rt, alloc, state, Update::Expire(20));
    same(rt, "operations", logged(state, 1), Some(1));
    let built = built(rt, alloc, job);
    swap_ends(rt, alloc, state, built, false, None);
    holds_the_later(rt, alloc, state);
}

#[test]
fn an_action_that_is_pushed_into_a_detached_subtree_is_logged(rt: HostRuntime) {
    on_new_map(&rt, rt.alloc(), Settings::new(200, 16), pushes_meanwhile);
}

fn has_three_live(rt: &impl Abort, alloc: Global, state: &mut MapState) {
    holds(rt, "no breach", !is_breached(state, 16));
    same(rt, "live points", live(state), 3);
    same(rt, "suspended points", suspended(state), 41);
    holds(rt, "nothing to detach", is_balanced(rt, alloc, state, 1));
}

fn pushes_meanwhile(rt: &impl Abort, alloc: Global, state: &mut MapState) {
    let job = leaning(rt, alloc, state);
    pushes(rt, alloc, state);
    let built = built(rt, alloc, job);
    holds(rt, "a breach", is_breached(state, 16));
    swap_ends(rt, alloc, state, built, true, None);
    has_three_live(rt, alloc, state);
}

// Settles a row and puts points more at its end. Its right child leans to the right then, and is detached.
fn leaning(rt: &impl Abort, alloc: Global, state: &mut MapState) -> Job {
    add(rt, alloc, state, 1, 41);
    settled(rt, alloc, state);
    // The right child has 9 nodes on its left and 14 on its right now.
    add(rt, alloc, state, 41, 45);
    let job = detached(rt, alloc, state, 1);
    is_of(rt, &job, 1, 24);
    job
}

fn pushes(rt: &impl Abort, alloc: Global, state: &mut MapState) {
    let all = row_box(rt, alloc, 0, 100);
    update(rt, alloc, state, Update::Suspend(all));
    same(rt, "operations", logged(state, 1), Some(0));
    let three = row_box(rt, alloc, 30, 33);
    update(rt, alloc, state, Update::Restore(three));
    same(rt, "operations", logged(state, 1), Some(2));
}

#[test]
fn a_value_behind_catches_up_and_a_stale_one_is_refused(rt: HostRuntime) {
    on_new_map(&rt, rt.alloc(), Settings::new(200, 16), catches_up);
}

fn first_built(rt: &impl Abort, alloc: Global, state: &mut MapState) -> Built {
    holds(rt, "nothing to detach", is_balanced(rt, alloc, state, 1));
    add(rt, alloc, state, 1, 41);
    let job = detached(rt, alloc, state, 1);
    same(rt, "the first ticket", job.ticket(), 1);
    built(rt, alloc, job)
}

fn catches_up(rt: &impl Abort, alloc: Global, state: &mut MapState) {
    let first = first_built(rt, alloc, state);
    add(rt, alloc, state, 41, 106);
    let first = found_behind(rt, alloc, state, first);
    let first = caught_up(rt, alloc, state, first);
    swap_ends(rt, alloc, state, first, false, None);
    same(rt, "live points", live(state), 105);
    refuses_the_second_of_three(rt, alloc, state);
}

// The value, which is 65 operations behind.
fn found_behind(rt: &impl Abort, alloc: Global, state: &mut MapState, built: Built) -> Built {
    let left = found(rt, swapped(alloc, state, built, false).err());
    same(rt, "the fault", left.fault, SwapFault::Behind { left: 65 });
    left.built
}

// The value with those operations done on it.
fn caught_up(rt: &impl Abort, alloc: Global, state: &mut MapState, built: Built) -> Built {
    let ops = made(rt, state.log_after(alloc, &built));
    same(rt, "operations", ops.len(), 65);
    found(rt, built.replay(alloc, 16, ops.as_slice()).ok())
}

// A part that is detached afresh has a new ticket and an empty log.
fn refuses_the_second_of_three(rt: &impl Abort, alloc: Global, state: &mut MapState) {
    add(rt, alloc, state, 106, 160);
    let second = detached(rt, alloc, state, 1);
    same(rt, "the second ticket", second.ticket(), 2);
    detach_the_third(rt, alloc, state);
    let second = built(rt, alloc, second);
    is_stale(rt, alloc, state, second, 2);
}

fn detach_the_third(rt: &impl Abort, alloc: Global, state: &mut MapState) {
    let third = detached(rt, alloc, state, 1);
    same(rt, "the third ticket", third.ticket(), 3);
    same(rt, "operations", logged(state, 1), Some(0));
}

// Points beside a row leave its detached tree forgotten, and its value stale. So many are live then.
fn forgets_what_is_detached(rt: &impl Abort, alloc: Global, points: Points, all: u32) {
    let mut state = new_map(rt, alloc, Settings::new(200, 16));
    forgets(rt, alloc, &mut state, points);
    same(rt, "live points", live(&state), all);
}

fn forgets(rt: &impl Abort, alloc: Global, state: &mut MapState, points: Points) {
    add(rt, alloc, state, 1, 41);
    let job = detached(rt, alloc, state, 1);
    same(rt, "the ticket", job.ticket(), 1);
    update(rt, alloc, state, Update::Add(points));
    same(rt, "operations", logged(state, 1), None);
    let built = built(rt, alloc, job);
    let stale = SwapFault::Stale { ticket: 1 };
    swap_ends(rt, alloc, state, built, true, Some(stale));
}

#[test]
fn a_part_of_a_deep_tree_and_one_whose_log_is_full_are_forgotten(rt: HostRuntime) {
    let alloc = rt.alloc();
    // The tree grows too deep, and is rebuilt.
    let points = row(&rt, alloc, 41, 641);
    forgets_what_is_detached(&rt, alloc, points, 640);
    // The log is full, and the subtree is built anew.
    let points = hall(&rt, alloc);
    forgets_what_is_detached(&rt, alloc, points, 70_040);
}

// Points of a wide hall, seen from its middle.
fn hall(rt: &impl Abort, alloc: Global) -> Points {
    let mut draws = Draws::from(1);
    let mut points = Points::new(alloc);
    for _ in 0..70_000u32 {
        let x = draws.below(60_001) as i64 - 30_000;
        let y = draws.below(60_001) as i64 - 30_000;
        let z = draws.below(6_001) as i64 - 3_000;
        let point = made(rt, Point::new(x, y, z));
        made(rt, points.push(point));
    }
    points
}
