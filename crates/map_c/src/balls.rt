//! The live points of a ball, written where C wants them.
ghost use Rattle.std.specs.Prelude.{◌≡◌, ◌≤◌, IfErr, IfOk, OnOk, Some, false, length, true};
ghost use Rattle.map_c.specs.{Answers.{IsTold, shown_in}, Status.{code}, Balls.{IsAskRefusal, IsBall, IsBallAsked, IsBallRefusal}};

use crate::handles::macros::ask;
use crate::handles::writing::write_all;
use crate::{Content, DONE, Handle, Item, Place, Refusal, read_place, shown};
use map_fold::{MAX_FOUND, MAX_WITHIN};
use neighbour_sets::in_ball;
use rebuild_core::Version;
use std::alloc::Global;
use std::sync::Arc;

/// Writes the live points at most `r` millimetres from a place by number, the first `most` where there are more, and how many they
/// are.
#[unsafe(no_mangle)]
pub extern "C" fn corv_map_ball(
    alloc: Global,
    map: &mut Handle,
    place: &Place,
    r: u64,
    most: u32,
    items: &mut [Item],
    count: &mut usize,
) -> i32
    ensures { IsTold (IsBall map.old.held.content place.now r most items.new count.new)
        (IsBallRefusal map.old.held.content place.now r most (length items.old))
        map.old.held.content map.new.held.content count.new result }
{
    *count = 0;
    *count = ask!(alloc, map, |content| {
        list_ball(alloc, &content, place, r, most, items)
    });
    DONE
}

/// `corv_map_ball`, on a view.
#[unsafe(no_mangle)]
pub extern "C" fn corv_view_ball(
    alloc: Global,
    view: &mut Handle,
    place: &Place,
    r: u64,
    most: u32,
    items: &mut [Item],
    count: &mut usize,
) -> i32
    ensures { IsTold (IsBall view.old.held.content place.now r most items.new count.new)
        (IsBallRefusal view.old.held.content place.now r most (length items.old))
        view.old.held.content view.new.held.content count.new result }
{
    corv_map_ball(alloc, view, place, r, most, items, count)
}

fn list_ball(
    alloc: Global,
    content: &Content,
    place: &Place,
    r: u64,
    most: u32,
    items: &mut [Item],
) -> Result<usize, Refusal>
    ensures found { IfOk result (IsBall (Some content.now) place.now r most items.new) }
    ensures refused { IfErr result (λ c. IsBallRefusal (Some content.now) place.now r most (length items.old) (code c)) }
{
    let version = shown_if_asked(content, r, most, items.len())?;
    let point = read_place(place)?;
    let found = in_ball(alloc, version.tree(), &point, r, most)?;
    Ok(write_all(found.as_slice(), items))
}

/// The version that is shown, if so many points may be asked for within this radius, and have room.
pub(crate) fn shown_if_asked(
    content: &Content,
    r: u64,
    most: u32,
    room: usize,
) -> Result<&Arc<Version>, Refusal>
    ensures shown { IfOk result (λ v. shown_in (Some content.now) ≡ Some v.now.value) }
    ensures asked { OnOk result (IsBallAsked r most) }
    ensures room { OnOk result (most ≤ room) }
    ensures refused { IfErr result (λ c. IsAskRefusal (Some content.now) r most room (code c)) }
{
    let version = shown(content)?;
    if !is_asked(r, most) {
        return Err(Refusal::BadNumber);
    }
    if room < most as usize {
        return Err(Refusal::NoRoom);
    }
    Ok(version)
}

fn is_asked(r: u64, most: u32) -> bool
    ensures yes { result ≡ true → IsBallAsked r most }
    ensures no { result ≡ false → IsBallAsked r most → ⊥ }
{
    1 <= most && most <= MAX_FOUND && r <= MAX_WITHIN
}
