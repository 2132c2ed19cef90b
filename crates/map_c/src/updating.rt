//! Updates of a map. All updates of C are those of one caller.
ghost use Rattle.std.specs.Prelude.{◌≡◌, IfErr, OnOk, OnErr, Some};
ghost use Rattle.map_items.specs.declared.update.Update.TheVariants.{Add, Delete, Expire, Restore, Suspend, Thin};
ghost use Rattle.map_c.specs.{Forms.{boxes_at, points_at}, Maps.{IsAnswer, IsBoxesAnswer, IsUpdated, IsPointsAnswer, IsUpdateRefusal}, Status.{code}};

use crate::handles::macros::or_status;
use crate::{Bounds, Content, Handle, Point, Refusal, read_all, status_of};
use map_fold::Update;
use std::alloc::Global;

/// Adds points, each under the next number.
#[unsafe(no_mangle)]
pub extern "C" fn corv_map_add(alloc: Global, map: &mut Handle, all: &[Point]) -> i32
    ensures { IsPointsAnswer (Add (points_at all.now)) all.now map.old.held.content map.new.held.content result }
{
    if map.is_empty() {
        return Refusal::Empty.status();
    }
    let points = or_status!(read_all(alloc, all));
    updated(alloc, map, Update::Add(points))
}

/// Adds points, and keeps of each one's voxel the one nearest to its centre.
#[unsafe(no_mangle)]
pub extern "C" fn corv_map_thin(alloc: Global, map: &mut Handle, all: &[Point]) -> i32
    ensures { IsPointsAnswer (Thin (points_at all.now)) all.now map.old.held.content map.new.held.content result }
{
    if map.is_empty() {
        return Refusal::Empty.status();
    }
    let points = or_status!(read_all(alloc, all));
    updated(alloc, map, Update::Thin(points))
}

/// Drops for good what is in each box.
#[unsafe(no_mangle)]
pub extern "C" fn corv_map_delete(alloc: Global, map: &mut Handle, boxes: &[Bounds]) -> i32
    ensures { IsBoxesAnswer (Delete (boxes_at boxes.now)) boxes.now map.old.held.content map.new.held.content result }
{
    if map.is_empty() {
        return Refusal::Empty.status();
    }
    let boxes = or_status!(read_all(alloc, boxes));
    updated(alloc, map, Update::Delete(boxes))
}

/// Hides what is live in each box.
#[unsafe(no_mangle)]
pub extern "C" fn corv_map_suspend(alloc: Global, map: &mut Handle, boxes: &[Bounds]) -> i32
    ensures { IsBoxesAnswer (Suspend (boxes_at boxes.now)) boxes.now map.old.held.content map.new.held.content result }
{
    if map.is_empty() {
        return Refusal::Empty.status();
    }
    let boxes = or_status!(read_all(alloc, boxes));
    updated(alloc, map, Update::Suspend(boxes))
}

/// Shows again what was hidden in each box.
#[unsafe(no_mangle)]
pub extern "C" fn corv_map_restore(alloc: Global, map: &mut Handle, boxes: &[Bounds]) -> i32
    ensures { IsBoxesAnswer (Restore (boxes_at boxes.now)) boxes.now map.old.held.content map.new.held.content result }
{
    if map.is_empty() {
        return Refusal::Empty.status();
    }
    let boxes = or_status!(read_all(alloc, boxes));
    updated(alloc, map, Update::Restore(boxes))
}

/// Drops for good what is held under a number below this one.
#[unsafe(no_mangle)]
pub extern "C" fn corv_map_expire(alloc: Global, map: &mut Handle, number: u32) -> i32
    ensures { IsAnswer (Expire number) map.old.held.content map.new.held.content result }
{
    updated(alloc, map, Update::Expire(number))
}

// Makes one more update of the map, if the handle holds one.
fn updated(alloc: Global, map: &mut Handle, update: Update) -> i32
    ensures { IsAnswer update map.old.held.content map.new.held.content result }
{
    let Some(mut content) = map.take(alloc) else {
        return Refusal::Empty.status();
    };
    let status = status_of(changed(alloc, &mut content, update));
    *map = Handle::of(content);
    status
}

fn changed(alloc: Global, content: &mut Content, update: Update) -> Result<(), Refusal>
    ensures made { OnOk result (IsUpdated update (Some content.old) (Some content.new)) }
    ensures refused { IfErr result (λ r. IsUpdateRefusal update (Some content.old) (code r)) }
    ensures same { OnErr result (content.new ≡ content.old) }
{
    let Content::Map(kept) = content else {
        return Err(Refusal::Empty);
    };
    kept.state.update_uncounted(alloc, 1, update)?;
    Ok(())
}
