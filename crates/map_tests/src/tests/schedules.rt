//! A detached subtree beside hostile schedules: what its map meets between the detaching and the swap.
use crate::tests::assertions::{holds, made, same};
use crate::tests::looks::{cuboid, live, logged, suspended};
use crate::tests::steps::{
    add, add_row, add_row_and, built, detached, is_balanced, is_of, is_stale, new_map, on_new_map,
    row_box, settled, swap_ends, update,
};
use kd_search::nearest;
use map_fold::{Cuboids, Points, Settings, Update};
use point_geom::Point;
use rebuild_core::{Job, MapState, SwapFault};
use std::alloc::Global;
use std::process::Abort;

// The boxes from (first, 0, 0) to (last, 1, 1), so many times.
fn boxes(rt: &impl Abort, alloc: Global, first: i64, last: i64, times: u32) -> Cuboids {
    let cuboid = cuboid(rt, (first, 0, 0), (last, 1, 1));
    let mut boxes = Cuboids::new(alloc);
    for _ in 0..times {
        made(rt, boxes.push(cuboid));
    }
    boxes
}

// Puts 40 points in a row, the last of them at this place, and detaches their whole tree.
fn begun(rt: &impl Abort, alloc: Global, state: &mut MapState, last: i64) -> Job {
    add_row_and(rt, alloc, state, (1, 40), last);
    detached(rt, alloc, state, 1)
}

// The job is built and swapped in, and so many points are live then.
fn swaps(rt: &impl Abort, alloc: Global, state: &mut MapState, job: Job, force: bool, points: u32) {
    let built = built(rt, alloc, job);
    swap_ends(rt, alloc, state, built, force, None);
    same(rt, "live points", live(state), points);
}

#[test]
fn a_value_is_stale_once_its_map_was_settled(rt: HostRuntime) {
    on_new_map(&rt, rt.alloc(), Settings::new(200, 16), settles_meanwhile);
}

fn settles_meanwhile(rt: &impl Abort, alloc: Global, state: &mut MapState) {
    let job = begun(rt, alloc, state, 40);
    is_of(rt, &job, 1, 40);
    let built = built(rt, alloc, job);
    settled(rt, alloc, state);
    is_stale(rt, alloc, state, built, 1);
    same(rt, "operations", logged(state, 1), None);
    same(rt, "live points", live(state), 40);
}

#[test]
fn a_value_fits_another_map_and_is_stale_where_it_holds_another_point(rt: HostRuntime) {
    let alloc = rt.alloc();
    ends_elsewhere(&rt, alloc, 40, None);
    let stale = SwapFault::Stale { ticket: 1 };
    ends_elsewhere(&rt, alloc, 41, Some(stale));
}

// So ends the swap of a value of a map whose last point is at 40, in another, whose last point is at this place.
fn ends_elsewhere(rt: &impl Abort, alloc: Global, last: i64, fault: Option<SwapFault>) {
    let mut first = new_map(rt, alloc, Settings::new(200, 16));
    let job = begun(rt, alloc, &mut first, 40);
    let mut other = new_map(rt, alloc, Settings::new(200, 16));
    begun(rt, alloc, &mut other, last);
    let built = built(rt, alloc, job);
    swap_ends(rt, alloc, &mut other, built, false, fault);
    same(rt, "live points", live(&other), 40);
}

#[test]
fn a_forced_swap_does_all_that_is_left(rt: HostRuntime) {
    on_new_map(&rt, rt.alloc(), Settings::new(200, 16), grows_meanwhile);
}

fn grows_meanwhile(rt: &impl Abort, alloc: Global, state: &mut MapState) {
    let job = begun(rt, alloc, state, 40);
    add(rt, alloc, state, 41, 141);
    swaps(rt, alloc, state, job, true, 140);
}

#[test]
fn what_was_deleted_meanwhile_stays_so(rt: HostRuntime) {
    on_new_map(&rt, rt.alloc(), Settings::new(200, 16), empties_meanwhile);
}

fn empties_meanwhile(rt: &impl Abort, alloc: Global, state: &mut MapState) {
    let job = begun(rt, alloc, state, 40);
    let gone = row_box(rt, alloc, 0, 100);
    update(rt, alloc, state, Update::Delete(gone));
    swaps(rt, alloc, state, job, false, 0);
    stays_empty(rt, alloc, state);
    holds_only(rt, alloc, state, 40);
}

// Until a point is added.
fn stays_empty(rt: &impl Abort, alloc: Global, state: &mut MapState) {
    settled(rt, alloc, state);
    same(rt, "live points", live(state), 0);
    holds(rt, "nothing to detach", is_balanced(rt, alloc, state, 1));
    add_row(rt, alloc, state, &[5]);
}

// One point is live, and has this number.
fn holds_only(rt: &impl Abort, alloc: Global, state: &MapState, number: u32) {
    same(rt, "live points", live(state), 1);
    let query = made(rt, Point::new(0, 0, 0));
    let found = made(rt, nearest(alloc, state.version().tree(), 2, &query, None));
    same(rt, "hits", found.len(), 1);
    for hit in found.as_slice() {
        same(rt, "the number", hit.number, number);
    }
}

#[test]
fn a_voxel_that_was_thinned_meanwhile_keeps_its_winner(rt: HostRuntime) {
    on_new_map(&rt, rt.alloc(), Settings::new(200, 16), thins_meanwhile);
}

fn thins_meanwhile(rt: &impl Abort, alloc: Global, state: &mut MapState) {
    let job = begun(rt, alloc, state, 40);
    thin_at(rt, alloc, state, made(rt, Point::new(50, 100, 100)));
    let built = built(rt, alloc, job);
    // That its voxel's points are dropped, and the winner.
    same(rt, "operations", logged(state, 1), Some(2));
    swap_ends(rt, alloc, state, built, false, None);
    holds_only(rt, alloc, state, 40);
}

fn thin_at(rt: &impl Abort, alloc: Global, state: &mut MapState, point: Point) {
    let mut points = Points::new(alloc);
    made(rt, points.push(point));
    update(rt, alloc, state, Update::Thin(points));
}

#[test]
fn a_part_that_is_detached_afresh_takes_only_its_new_value(rt: HostRuntime) {
    on_new_map(&rt, rt.alloc(), Settings::new(200, 16), detaches_afresh);
}

fn detaches_afresh(rt: &impl Abort, alloc: Global, state: &mut MapState) {
    let job = begun(rt, alloc, state, 40);
    let old = built(rt, alloc, job);
    let job = detached(rt, alloc, state, 1);
    same(rt, "the ticket", job.ticket(), 2);
    same(rt, "operations", logged(state, 1), Some(0));
    is_stale(rt, alloc, state, old, 1);
    swaps(rt, alloc, state, job, false, 40);
}

// One operation more fills a log.
const NEARLY_FULL: u32 = 65_535;

#[test]
fn a_part_whose_log_is_full_is_forgotten(rt: HostRuntime) {
    on_new_map(&rt, rt.alloc(), Settings::new(200, 16), fills_a_log);
}

fn fills_a_log(rt: &impl Abort, alloc: Global, state: &mut MapState) {
    let job = begun(rt, alloc, state, 40);
    fill_its_log(rt, alloc, state);
    let built = built(rt, alloc, job);
    let stale = SwapFault::Stale { ticket: 1 };
    swap_ends(rt, alloc, state, built, true, Some(stale));
    // The box held the point of number 0.
    same(rt, "live points", live(state), 39);
}

fn fill_its_log(rt: &impl Abort, alloc: Global, state: &mut MapState) {
    let many = boxes(rt, alloc, 1, 2, NEARLY_FULL);
    update(rt, alloc, state, Update::Restore(many));
    same(rt, "operations", logged(state, 1), Some(NEARLY_FULL));
    let gone = row_box(rt, alloc, 1, 2);
    update(rt, alloc, state, Update::Delete(gone));
    same(rt, "operations", logged(state, 1), None);
}

// Points on either side of a row from 1 to 40.
const OUTER: [i64; 9] = [41, 42, 43, 44, 0, -1, -2, -3, -4];

// Leaves two children out of balance.
fn unbalance(rt: &impl Abort, alloc: Global, state: &mut MapState) {
    add(rt, alloc, state, 1, 41);
    settled(rt, alloc, state);
    add_row(rt, alloc, state, &OUTER);
}

// The job has this ticket, and its items begin at this x.
fn begins_at(rt: &impl Abort, job: &Job, ticket: u64, first: i64) {
    is_of(rt, job, ticket, 24);
    let least = job.items().iter().map(|item| item.point.x()).min();
    same(rt, "the least x", least, Some(first));
}

// So many operations are logged at each of two subtrees.
fn are_logged(rt: &impl Abort, state: &MapState, left: u32, right: u32) {
    same(rt, "operations on the left", logged(state, 1), Some(left));
    same(rt, "operations on the right", logged(state, 2), Some(right));
}

#[test]
fn what_two_detached_subtrees_met_is_done_on_both(rt: HostRuntime) {
    on_new_map(&rt, rt.alloc(), Settings::new(200, 16), swaps_both);
}

// Both are detached at once.
fn swaps_both(rt: &impl Abort, alloc: Global, state: &mut MapState) {
    unbalance(rt, alloc, state);
    let left = detached(rt, alloc, state, 1);
    let right = detached(rt, alloc, state, 2);
    begins_at(rt, &left, 1, -4);
    begins_at(rt, &right, 2, 21);
    meets_both(rt, alloc, state);
    let left = built(rt, alloc, left);
    let right = built(rt, alloc, right);
    swap_ends(rt, alloc, state, right, true, None);
    swap_ends(rt, alloc, state, left, true, None);
    holds_three(rt, alloc, state);
}

// An action that is done above both isn't logged at either, until it is handed down.
fn meets_both(rt: &impl Abort, alloc: Global, state: &mut MapState) {
    holds(rt, "nothing to detach", is_balanced(rt, alloc, state, 3));
    let hidden = row_box(rt, alloc, -100, 100);
    update(rt, alloc, state, Update::Suspend(hidden));
    are_logged(rt, state, 0, 0);
    let shown = row_box(rt, alloc, 30, 33);
    update(rt, alloc, state, Update::Restore(shown));
    are_logged(rt, state, 1, 2);
}

// The points at 29, 30 and 31 are live, and 46 are suspended.
fn holds_three(rt: &impl Abort, alloc: Global, state: &MapState) {
    let query = made(rt, Point::new(0, 0, 0));
    let found = made(rt, nearest(alloc, state.version().tree(), 5, &query, None));
    let numbers = found.as_slice().iter().map(|hit| (hit.number, hit.dist2));
    assert!(rt; numbers.eq([(29, 900), (30, 961), (31, 1024)]));
    same(rt, "live points", live(state), 3);
    same(rt, "suspended points", suspended(state), 46);
}
