//! Many searches at once beside single ones: with a greatest distance, and none at all.
ghost use Rattle.kd_search.specs.Query.{IsQuery};

use crate::tests::assertions::{made, same};
use crate::tests::grown::restored;
use batch_near::nearest_each;
use kd_search::nearest;
use kd_tree::Tree;
use map_fold::{HitLists, Hits, Points};
use point_geom::Point;
use std::alloc::Global;
use std::process::Abort;

fn drawn(state: u32) -> u32 {
    state.wrapping_mul(1_664_525).wrapping_add(1_013_904_223)
}

// Points on a grid of a decimetre, so that some are equally far.
fn cloud(rt: &impl Abort, alloc: Global, count: u32, seed: u32) -> Vec<Point> {
    let mut points = Vec::new(alloc);
    let mut state = seed;
    for _ in 0..count {
        state = drawn(state);
        let x = (state / 65_536 % 64) as i64 * 100;
        state = drawn(state);
        let y = (state / 65_536 % 64) as i64 * 100;
        state = drawn(state);
        let z = (state / 65_536 % 16) as i64 * 100;
        let point = made(rt, Point::new(x, y, z));
        made(rt, points.push(point));
    }
    points
}

#[test]
fn each_list_is_what_a_single_search_finds(rt: HostRuntime) {
    let alloc = rt.alloc();
    let tree = restored(&rt, alloc, &cloud(&rt, alloc, 2_000, 1));
    // How many queries, how many hits for each, and how far these may be.
    // Up to 16 hits for each of 256 places or more, lists are filled where they are.
    for (count, k, within) in [
        (300, 17, Some(300)),
        (255, 16, Some(300)),
        (256, 16, Some(300)),
        (300, 5, None),
        (0, 1, None),
    ] {
        let queries = Points::from(cloud(&rt, alloc, count, 7));
        let lists = made(&rt, nearest_each(&rt, alloc, &tree, k, &queries, within));
        are_as_single(&rt, alloc, &lists, &tree, &queries, k, within);
    }
}

#[test]
fn many_queries_of_few_points_find_what_single_searches_find(rt: HostRuntime) {
    let alloc = rt.alloc();
    let tree = restored(&rt, alloc, &cloud(&rt, alloc, 300, 1));
    // By an index up to 16 hits, above by the tree.
    for (k, within) in [(1, None), (16, Some(300)), (17, Some(300))] {
        let queries = Points::from(cloud(&rt, alloc, 1_000, 7));
        let lists = made(&rt, nearest_each(&rt, alloc, &tree, k, &queries, within));
        are_as_single(&rt, alloc, &lists, &tree, &queries, k, within);
    }
}

/// Each list is what one search of the tree finds.
pub fn are_as_single(
    rt: &impl Abort,
    alloc: Global,
    lists: &HitLists,
    tree: &Tree,
    queries: &Points,
    k: u32,
    within: Option<u64>,
)
    requires { IsQuery k within }
{
    same(rt, "lists", lists.len(), queries.len());
    for (list, query) in lists.as_slice().iter().zip(queries.as_slice()) {
        is_as_single(rt, alloc, list, tree, query, k, within);
    }
}

/// The list is what one search of the tree finds.
pub fn is_as_single(
    rt: &impl Abort,
    alloc: Global,
    list: &Hits,
    tree: &Tree,
    query: &Point,
    k: u32,
    within: Option<u64>,
)
    requires { IsQuery k within }
{
    let want = made(rt, nearest(alloc, tree, k, query, within));
    assert_eq!(rt; list.as_slice(), want.as_slice());
}
