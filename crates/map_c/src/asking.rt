//! Questions to a map or a view, where the handle may hold either, and searches of a frozen index.
ghost use Rattle.std.specs.Prelude.{length};
ghost use Rattle.map_c.specs.Answers.{AreTold, IsCount, IsCountRefusal, IsInside, IsInsideRefusal, IsNearest, IsNearestEach, IsNearestEachRefusal, IsNearestRefusal, IsTold, items_in};
ghost use Rattle.map_c.specs.Frozen.{frozen_in};

use crate::handles::macros::ask;
use crate::searching::{search, search_each};
use crate::{Bounds, DONE, Handle, Hit, Index, Item, Place, Totals, count_in_box, list, totals_of};
use kd_tree::Tree;
use std::alloc::Global;

/// Writes the k nearest live points, the nearest first, and how many they are.
#[unsafe(no_mangle)]
pub extern "C" fn corv_map_nearest(
    alloc: Global,
    map: &mut Handle,
    place: &Place,
    k: u32,
    within: i64,
    hits: &mut [Hit],
    count: &mut usize,
) -> i32
    ensures { IsTold (IsNearest (items_in map.old.held.content) place.now k within hits.new count.new)
        (IsNearestRefusal (items_in map.old.held.content) place.now k within (length hits.old))
        map.old.held.content map.new.held.content count.new result }
{
    *count = 0;
    *count = ask!(alloc, map, |content| {
        search::<Tree>(alloc, &content, place, k, within, hits)
    });
    DONE
}

/// `corv_map_nearest`, on a view.
#[unsafe(no_mangle)]
pub extern "C" fn corv_view_nearest(
    alloc: Global,
    view: &mut Handle,
    place: &Place,
    k: u32,
    within: i64,
    hits: &mut [Hit],
    count: &mut usize,
) -> i32
    ensures { IsTold (IsNearest (items_in view.old.held.content) place.now k within hits.new count.new)
        (IsNearestRefusal (items_in view.old.held.content) place.now k within (length hits.old))
        view.old.held.content view.new.held.content count.new result }
{
    corv_map_nearest(alloc, view, place, k, within, hits, count)
}

/// `corv_map_nearest`, on a frozen index.
#[unsafe(no_mangle)]
pub extern "C" fn corv_frozen_nearest(
    alloc: Global,
    frozen: &mut Handle,
    place: &Place,
    k: u32,
    within: i64,
    hits: &mut [Hit],
    count: &mut usize,
) -> i32
    ensures { IsTold (IsNearest (frozen_in frozen.old.held.content) place.now k within hits.new count.new)
        (IsNearestRefusal (frozen_in frozen.old.held.content) place.now k within (length hits.old))
        frozen.old.held.content frozen.new.held.content count.new result }
{
    *count = 0;
    *count = ask!(alloc, frozen, |content| {
        search::<Index>(alloc, &content, place, k, within, hits)
    });
    DONE
}

/// `corv_map_nearest` for each place: the first place's hits, and right after them the next one's, with how many each place has.
#[unsafe(no_mangle)]
pub extern "C" fn corv_map_nearest_each(
    alloc: Global,
    map: &mut Handle,
    places: &[Place],
    k: u32,
    within: i64,
    hits: &mut [Hit],
    counts: &mut [u32],
    count: &mut usize,
) -> i32
    ensures { IsTold (IsNearestEach (items_in map.old.held.content) places.now k within hits.new counts.new count.new)
        (IsNearestEachRefusal (items_in map.old.held.content) places.now k within (length hits.old) (length counts.old))
        map.old.held.content map.new.held.content count.new result }
{
    *count = 0;
    *count = ask!(alloc, map, |content| {
        search_each::<Tree>(alloc, &content, places, k, within, hits, counts)
    });
    DONE
}

/// `corv_map_nearest_each`, on a view.
#[unsafe(no_mangle)]
pub extern "C" fn corv_view_nearest_each(
    alloc: Global,
    view: &mut Handle,
    places: &[Place],
    k: u32,
    within: i64,
    hits: &mut [Hit],
    counts: &mut [u32],
    count: &mut usize,
) -> i32
    ensures { IsTold (IsNearestEach (items_in view.old.held.content) places.now k within hits.new counts.new count.new)
        (IsNearestEachRefusal (items_in view.old.held.content) places.now k within (length hits.old) (length counts.old))
        view.old.held.content view.new.held.content count.new result }
{
    corv_map_nearest_each(alloc, view, places, k, within, hits, counts, count)
}

/// `corv_map_nearest_each`, on a frozen index.
#[unsafe(no_mangle)]
pub extern "C" fn corv_frozen_nearest_each(
    alloc: Global,
    frozen: &mut Handle,
    places: &[Place],
    k: u32,
    within: i64,
    hits: &mut [Hit],
    counts: &mut [u32],
    count: &mut usize,
) -> i32
    ensures { IsTold (IsNearestEach (frozen_in frozen.old.held.content) places.now k within hits.new counts.new count.new)
        (IsNearestEachRefusal (frozen_in frozen.old.held.content) places.now k within (length hits.old) (length counts.old))
        frozen.old.held.content frozen.new.held.content count.new result }
{
    *count = 0;
    *count = ask!(alloc, frozen, |content| {
        search_each::<Index>(alloc, &content, places, k, within, hits, counts)
    });
    DONE
}

/// Counts the live points in a box.
#[unsafe(no_mangle)]
pub extern "C" fn corv_map_count(
    alloc: Global,
    map: &mut Handle,
    bounds: &Bounds,
    live: &mut u32,
) -> i32
    ensures { IsTold (IsCount map.old.held.content bounds.now live.new) (IsCountRefusal map.old.held.content bounds.now)
        map.old.held.content map.new.held.content live.new result }
{
    *live = 0;
    *live = ask!(alloc, map, |content| count_in_box(&content, bounds));
    DONE
}

/// `corv_map_count`, on a view.
#[unsafe(no_mangle)]
pub extern "C" fn corv_view_count(
    alloc: Global,
    view: &mut Handle,
    bounds: &Bounds,
    live: &mut u32,
) -> i32
    ensures { IsTold (IsCount view.old.held.content bounds.now live.new) (IsCountRefusal view.old.held.content bounds.now)
        view.old.held.content view.new.held.content live.new result }
{
    corv_map_count(alloc, view, bounds, live)
}

/// Writes the live points in a box by number, the first `most` where there are more, and how many they are.
#[unsafe(no_mangle)]
pub extern "C" fn corv_map_inside(
    alloc: Global,
    map: &mut Handle,
    bounds: &Bounds,
    most: u32,
    items: &mut [Item],
    count: &mut usize,
) -> i32
    ensures { IsTold (IsInside map.old.held.content bounds.now most items.new count.new)
        (IsInsideRefusal map.old.held.content bounds.now most (length items.old))
        map.old.held.content map.new.held.content count.new result }
{
    *count = 0;
    *count = ask!(alloc, map, |content| {
        list(alloc, &content, bounds, most, items)
    });
    DONE
}

/// `corv_map_inside`, on a view.
#[unsafe(no_mangle)]
pub extern "C" fn corv_view_inside(
    alloc: Global,
    view: &mut Handle,
    bounds: &Bounds,
    most: u32,
    items: &mut [Item],
    count: &mut usize,
) -> i32
    ensures { IsTold (IsInside view.old.held.content bounds.now most items.new count.new)
        (IsInsideRefusal view.old.held.content bounds.now most (length items.old))
        view.old.held.content view.new.held.content count.new result }
{
    corv_map_inside(alloc, view, bounds, most, items, count)
}

/// How many updates there were, how many points, and how many of those are live and suspended.
#[unsafe(no_mangle)]
pub extern "C" fn corv_map_totals(alloc: Global, map: &mut Handle, totals: &mut Totals) -> i32
    ensures { AreTold map.old.held.content map.new.held.content totals.new result }
{
    *totals = ask!(alloc, map, |content| totals_of(&content));
    DONE
}

/// `corv_map_totals`, on a view.
#[unsafe(no_mangle)]
pub extern "C" fn corv_view_totals(alloc: Global, view: &mut Handle, totals: &mut Totals) -> i32
    ensures { AreTold view.old.held.content view.new.held.content totals.new result }
{
    corv_map_totals(alloc, view, totals)
}
