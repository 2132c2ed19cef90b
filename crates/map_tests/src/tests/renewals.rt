//! A new map of what another one holds.
use crate::tests::assertions::{holds, made, same};
use crate::tests::steps::{fill, on_new_map, row_box, update};
use kd_search::{count_in, nearest};
use map_fold::{Hit, Item, Label, Settings, Update};
use map_renewal::renewed;
use point_geom::Point;
use rebuild_core::MapState;
use std::alloc::Global;
use std::process::Abort;

// The x of each point of the new map, in the order of their numbers: the hidden ones come first.
const XS: &[i64] = &[2, 3, 0, 1, 4, 6, 7, 8, 9];

#[test]
fn a_renewed_map_holds_the_same_points_and_answers_the_same(rt: HostRuntime) {
    on_new_map(&rt, rt.alloc(), Settings::new(200, 16), is_renewed);
}

fn is_renewed(rt: &impl Abort, alloc: Global, old: &mut MapState) {
    // Of ten points two are hidden, and one is gone.
    fill(rt, alloc, old, 10, ((5, 6), (2, 4)));
    let settings = Settings::new(300, 17);
    let mut new = made(rt, renewed(alloc, old.version(), settings));
    is_as_told(rt, alloc, old, &mut new);
}

fn is_as_told(rt: &impl Abort, alloc: Global, old: &mut MapState, new: &mut MapState) {
    holds_all(rt, alloc, new);
    answers_as(rt, alloc, old, new);
    let shown = row_box(rt, alloc, 0, 10);
    update(rt, alloc, old, Update::Restore(shown));
    let shown = row_box(rt, alloc, 0, 10);
    update(rt, alloc, new, Update::Restore(shown));
    answers_as(rt, alloc, old, new);
}

fn holds_all(rt: &impl Abort, alloc: Global, new: &MapState) {
    let has_settings = new.settings() == &Settings::new(300, 17);
    holds(rt, "the settings", has_settings);
    same(rt, "updates", new.history().len(), 3);
    same(rt, "the next number", new.next(), 9);
    let items = made(rt, new.version().tree().flatten(alloc));
    are_in_order(rt, items.as_slice());
}

fn are_in_order(rt: &impl Abort, items: &[Item]) {
    same(rt, "items", items.len(), 9);
    for ((item, x), number) in items.iter().zip(XS).zip(0..9u32) {
        same(rt, "the number", item.number, number);
        same(rt, "the place", item.point.x(), *x);
        let is_hidden = item.label == Label::Suspended;
        same(rt, "whether it is hidden", is_hidden, number < 2);
    }
}

// Both find the same points, whose numbers are others.
fn answers_as(rt: &impl Abort, alloc: Global, old: &MapState, new: &MapState) {
    for x in 0..10 {
        let place = made(rt, Point::new(x, 0, 0));
        let found = made(rt, nearest(alloc, new.version().tree(), 4, &place, Some(5)));
        let want = made(rt, nearest(alloc, old.version().tree(), 4, &place, Some(5)));
        are_as_far(rt, found.as_slice(), want.as_slice());
    }
}

fn are_as_far(rt: &impl Abort, found: &[Hit], want: &[Hit]) {
    same(rt, "hits", found.len(), want.len());
    for (hit, other) in found.iter().zip(want) {
        same(rt, "the place", hit.point.x(), other.point.x());
        same(rt, "the squared distance", hit.dist2, other.dist2);
    }
}
