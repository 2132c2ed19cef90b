//! What a handle shows, listed by number from a number on, as far as there is room.
ghost use Rattle.std.specs.Prelude.{IfErr, IfOk, Some};
ghost use Rattle.map_c.specs.{Answers.{IsTold}, Pages.{IsBallPage, IsBallPageRefusal, IsBoxPage, IsBoxPageRefusal, IsPage, IsPageRefusal}, Status.{code}};

use crate::handles::macros::ask;
use crate::handles::reading::read_box;
use crate::handles::writing::write_all;
use crate::{Bounds, Content, DONE, Handle, Item, Place, Refusal, read_place, shown};
use item_lists::{ball_items, box_items, items_from};
use map_fold::MAX_WITHIN;
use std::alloc::Global;

/// Writes the live and suspended points of number `from` and up, by number, as far as there is room, and how many it wrote.
#[unsafe(no_mangle)]
pub extern "C" fn corv_map_items(
    alloc: Global,
    map: &mut Handle,
    from: u32,
    items: &mut [Item],
    count: &mut usize,
) -> i32
    ensures { IsTold (IsPage map.old.held.content from items.new count.new)
        (IsPageRefusal map.old.held.content)
        map.old.held.content map.new.held.content count.new result }
{
    *count = 0;
    *count = ask!(alloc, map, |content| {
        list_items(alloc, &content, from, items)
    });
    DONE
}

fn list_items(
    alloc: Global,
    content: &Content,
    from: u32,
    items: &mut [Item],
) -> Result<usize, Refusal>
    ensures found { IfOk result (IsPage (Some content.now) from items.new) }
    ensures refused { IfErr result (λ r. IsPageRefusal (Some content.now) (code r)) }
{
    let version = shown(content)?;
    let found = items_from(alloc, version.tree(), from, items.len())?;
    Ok(write_all(found.as_slice(), items))
}

/// `corv_map_items`, on a view.
#[unsafe(no_mangle)]
pub extern "C" fn corv_view_items(
    alloc: Global,
    view: &mut Handle,
    from: u32,
    items: &mut [Item],
    count: &mut usize,
) -> i32
    ensures { IsTold (IsPage view.old.held.content from items.new count.new)
        (IsPageRefusal view.old.held.content)
        view.old.held.content view.new.held.content count.new result }
{
    corv_map_items(alloc, view, from, items, count)
}

/// Writes the live points in the box, of number `from` and up, by number, as far as there is room, and how many it wrote.
#[unsafe(no_mangle)]
pub extern "C" fn corv_map_box_items(
    alloc: Global,
    map: &mut Handle,
    bounds: &Bounds,
    from: u32,
    items: &mut [Item],
    count: &mut usize,
) -> i32
    ensures { IsTold (IsBoxPage map.old.held.content bounds.now from items.new count.new)
        (IsBoxPageRefusal map.old.held.content bounds.now)
        map.old.held.content map.new.held.content count.new result }
{
    *count = 0;
    *count = ask!(alloc, map, |content| {
        list_box(alloc, &content, bounds, from, items)
    });
    DONE
}

fn list_box(
    alloc: Global,
    content: &Content,
    bounds: &Bounds,
    from: u32,
    items: &mut [Item],
) -> Result<usize, Refusal>
    ensures found { IfOk result (IsBoxPage (Some content.now) bounds.now from items.new) }
    ensures refused { IfErr result (λ r. IsBoxPageRefusal (Some content.now) bounds.now (code r)) }
{
    let version = shown(content)?;
    let cuboid = read_box(bounds)?;
    let found = box_items(alloc, version.tree(), &cuboid, from, items.len())?;
    Ok(write_all(found.as_slice(), items))
}

/// `corv_map_box_items`, on a view.
#[unsafe(no_mangle)]
pub extern "C" fn corv_view_box_items(
    alloc: Global,
    view: &mut Handle,
    bounds: &Bounds,
    from: u32,
    items: &mut [Item],
    count: &mut usize,
) -> i32
    ensures { IsTold (IsBoxPage view.old.held.content bounds.now from items.new count.new)
        (IsBoxPageRefusal view.old.held.content bounds.now)
        view.old.held.content view.new.held.content count.new result }
{
    corv_map_box_items(alloc, view, bounds, from, items, count)
}

/// Writes the live points at most `r` millimetres from a place, of number `from` and up, by number, as far as there is room, and
/// how many it wrote.
#[unsafe(no_mangle)]
pub extern "C" fn corv_map_ball_items(
    alloc: Global,
    map: &mut Handle,
    place: &Place,
    r: u64,
    from: u32,
    items: &mut [Item],
    count: &mut usize,
) -> i32
    ensures { IsTold (IsBallPage map.old.held.content place.now r from items.new count.new)
        (IsBallPageRefusal map.old.held.content place.now r)
        map.old.held.content map.new.held.content count.new result }
{
    *count = 0;
    *count = ask!(alloc, map, |content| {
        list_ball(alloc, &content, place, r, from, items)
    });
    DONE
}

fn list_ball(
    alloc: Global,
    content: &Content,
    place: &Place,
    r: u64,
    from: u32,
    items: &mut [Item],
) -> Result<usize, Refusal>
    ensures found { IfOk result (IsBallPage (Some content.now) place.now r from items.new) }
    ensures refused { IfErr result (λ c. IsBallPageRefusal (Some content.now) place.now r (code c)) }
{
    let version = shown(content)?;
    if MAX_WITHIN < r {
        return Err(Refusal::BadNumber);
    }
    let point = read_place(place)?;
    let found = ball_items(alloc, version.tree(), &point, r, from, items.len())?;
    Ok(write_all(found.as_slice(), items))
}

/// `corv_map_ball_items`, on a view.
#[unsafe(no_mangle)]
pub extern "C" fn corv_view_ball_items(
    alloc: Global,
    view: &mut Handle,
    place: &Place,
    r: u64,
    from: u32,
    items: &mut [Item],
    count: &mut usize,
) -> i32
    ensures { IsTold (IsBallPage view.old.held.content place.now r from items.new count.new)
        (IsBallPageRefusal view.old.held.content place.now r)
        view.old.held.content view.new.held.content count.new result }
{
    corv_map_ball_items(alloc, view, place, r, from, items, count)
}
