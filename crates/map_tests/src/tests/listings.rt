//! What a map holds, listed by number: of a row of 200 points some are hidden, and most of the first hundred are gone.
use crate::tests::assertions::{made, same};
use crate::tests::looks::cuboid;
use crate::tests::steps::{fill, on_new_map};
use item_lists::{ball_items, box_items, items_from};
use map_fold::{Items, Settings};
use point_geom::Point;
use rebuild_core::MapState;
use std::alloc::Global;
use std::process::Abort;

// The first number, the greatest length, and the numbers of the list.
type Page = (u32, usize, &'static [u32]);

// Of all that is held. The second begins before the gap, and goes on behind it.
const HELD: &[Page] = &[
    (0, 4, &[0, 1, 2, 3]),
    (0, 7, &[0, 1, 2, 3, 4, 100, 101]),
    (108, 8, &[108, 109, 110, 111, 112, 113, 114, 115]),
    (197, 9, &[197, 198, 199]),
    (200, 9, &[]),
    (0, 0, &[]),
];

// Of what is live from x = 3 on, and before x = 116.
const IN_BOX: &[Page] = &[
    (0, 5, &[3, 4, 100, 101, 102]),
    (4, 2, &[4, 100]),
    (108, 9, &[108, 109, 115]),
    (116, 9, &[]),
];

// Of what is live at most 4 mm from x = 117.
const IN_BALL: &[Page] = &[
    (0, 9, &[115, 116, 117, 118, 119, 120, 121]),
    (118, 2, &[118, 119]),
    (122, 9, &[]),
];

#[test]
fn what_is_held_is_listed_by_number(rt: HostRuntime) {
    on_new_map(&rt, rt.alloc(), Settings::new(200, 16), lists_all);
}

fn lists_all(rt: &impl Abort, alloc: Global, state: &mut MapState) {
    fill(rt, alloc, state, 200, ((5, 100), (110, 115)));
    lists_what_is_held(rt, alloc, state);
    lists_a_box(rt, alloc, state);
    lists_a_ball(rt, alloc, state);
}

fn lists_what_is_held(rt: &impl Abort, alloc: Global, state: &MapState) {
    for &(from, most, want) in HELD {
        let items = items_from(alloc, state.version().tree(), from, most);
        are_numbered(rt, made(rt, items), want);
    }
}

fn lists_a_box(rt: &impl Abort, alloc: Global, state: &MapState) {
    let cuboid = cuboid(rt, (3, 0, 0), (116, 1, 1));
    for &(from, most, want) in IN_BOX {
        let items = box_items(alloc, state.version().tree(), &cuboid, from, most);
        are_numbered(rt, made(rt, items), want);
    }
}

fn lists_a_ball(rt: &impl Abort, alloc: Global, state: &MapState) {
    let place = made(rt, Point::new(117, 0, 0));
    for &(from, most, want) in IN_BALL {
        let items = ball_items(alloc, state.version().tree(), &place, 4, from, most);
        are_numbered(rt, made(rt, items), want);
    }
}

fn are_numbered(rt: &impl Abort, items: Items, want: &[u32]) {
    same(rt, "items", items.len(), want.len());
    for (item, number) in items.as_slice().iter().zip(want) {
        same(rt, "the number", item.number, *number);
    }
}
