//! Points in a row, and points at one place.
use crate::tests::assertions::{holds, made, same};
use crate::tests::looks::{is_breached, live};
use crate::tests::steps::{add_row, equal_points, on_new_map, row, settled, update, updated};
use kd_search::nearest;
use map_fold::{Hit, Settings, Update};
use point_geom::Point;
use rebuild_core::MapState;
use std::alloc::Global;
use std::process::Abort;

// That it is found whole is seen by a stored run.
#[test]
fn a_rising_row_fills_all_levels(rt: HostRuntime) {
    on_new_map(&rt, rt.alloc(), Settings::new(200, 16), rises);
}

fn rises(rt: &impl Abort, alloc: Global, state: &mut MapState) {
    let mut most_levels = 0;
    for x in 0..4_000 {
        add_row(rt, alloc, state, &[x]);
        most_levels = state.version().tree().levels().max(most_levels);
    }
    // No tree is higher, so this one was rebuilt on the way.
    same(rt, "the most levels", most_levels, 512);
}

#[test]
fn equal_points_are_settled_and_found_by_number(rt: HostRuntime) {
    on_new_map(
        &rt,
        rt.alloc(),
        Settings::new(200, 1_500),
        settles_equal_points,
    );
}

fn settles_equal_points(rt: &impl Abort, alloc: Global, state: &mut MapState) {
    let place = made(rt, Point::new(3, 3, 3));
    let points = equal_points(rt, alloc, place, 5_000);
    update(rt, alloc, state, Update::Add(points));
    settled(rt, alloc, state);
    holds(rt, "no breach", !is_breached(state, 10));
    same(rt, "live points", live(state), 5_000);
    finds_by_number(rt, alloc, state, &place);
}

fn finds_by_number(rt: &impl Abort, alloc: Global, state: &MapState, place: &Point) {
    let found = made(rt, nearest(alloc, state.version().tree(), 200, place, None));
    are_numbered(rt, found.as_slice());
}

// The points of the numbers from 0 on, found where they lie.
fn are_numbered(rt: &impl Abort, found: &[Hit]) {
    same(rt, "hits", found.len(), 200);
    for (hit, number) in found.iter().zip(0..200u32) {
        same(rt, "the number", hit.number, number);
        same(rt, "the squared distance", hit.dist2, 0);
    }
}

#[test]
fn a_row_that_is_settled_takes_one_more_point(rt: HostRuntime) {
    on_new_map(&rt, rt.alloc(), Settings::new(200, 16), takes_one_more);
}

fn settles_a_row(rt: &impl Abort, alloc: Global, state: &mut MapState) {
    let points = row(rt, alloc, 1, 41);
    let mark = made(rt, updated(alloc, state, 1, Update::Add(points)));
    same(rt, "the first mark", mark, 1);
    holds(rt, "a breach", is_breached(state, 10));
    settled(rt, alloc, state);
    holds(rt, "no breach", !is_breached(state, 10));
}

fn takes_one_more(rt: &impl Abort, alloc: Global, state: &mut MapState) {
    settles_a_row(rt, alloc, state);
    let points = row(rt, alloc, 0, 1);
    let mark = made(rt, updated(alloc, state, 8, Update::Add(points)));
    same(rt, "the second mark", mark, 2);
    same(rt, "live points", live(state), 41);
    finds_the_last(rt, alloc, state);
}

// The point of number 40, at 5 from the query.
fn finds_the_last(rt: &impl Abort, alloc: Global, state: &MapState) {
    let query = made(rt, Point::new(-5, 0, 0));
    let found = made(rt, nearest(alloc, state.version().tree(), 1, &query, None));
    for hit in found.as_slice() {
        same(rt, "the number", hit.number, 40);
        same(rt, "the squared distance", hit.dist2, 25);
    }
    same(rt, "hits", found.len(), 1);
}
