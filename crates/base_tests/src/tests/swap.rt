//! What no update of a map does.
use crate::tests::assertions::{holds, made, same};
use crate::tests::grown::grown;
use kd_search::{best_in, count_in, in_cuboid, nearest};
use map_fold::{Label, Tag};
use neighbour_sets::count_ball;
use point_geom::{Cuboid, Point};

#[test]
fn an_action_that_swaps_live_and_suspended_shows_in_each_search(rt: HostRuntime) {
    let alloc = rt.alloc();
    let place = made(&rt, Point::new(7, 7, 7));
    let swap = Tag {
        live: Label::Suspended,
        suspended: Label::Live,
    };
    // The third one was suspended.
    let tree = grown(&rt, alloc, &[place, place, place, place], swap);
    let unit = Cuboid::unit(&place);
    let hits = made(&rt, nearest(alloc, &tree, 3, &place, None));
    let is_third = hits.as_slice().iter().map(|h| h.number).eq([2]);
    holds(&rt, "the nearest", is_third);
    let items = made(&rt, in_cuboid(alloc, &tree, &unit, 5));
    let is_third = items.as_slice().iter().map(|i| i.number).eq([2]);
    holds(&rt, "the listed", is_third);
    same(&rt, "points in the box", count_in(&tree, &unit), 1);
    let best = best_in(&tree, &unit);
    same(&rt, "the best", best.map(|i| i.number), Some(2));
    same(&rt, "points in the ball", count_ball(&tree, &place, 0), 1);
}
