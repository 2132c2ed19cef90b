//! As `log_put`, for the points of a scan in their order.
ghost use Rattle.std.specs.Prelude.{◌≡◌, ◌+◌, ◌≤◌, true, false, [], ◌++◌, length, OnOk};
ghost use Rattle.map_items.specs.Ops.{Extends};
ghost use Rattle.kd_tree.specs.Walk.{tagged};
ghost use Rattle.kd_mark.specs.Watches.{AreExtended, AreMore};
ghost use Rattle.kd_update.specs.Crossing.{HaveRoomAtOnce, going, logged_scan, puts_of, with_scan};

use crate::points::insert::goes_left;
use crate::points::sides::goes_to;
use kd_mark::{Watch, Watches, note, step_down};
use kd_tree::{Side, Tree};
use map_items::{Item, NoMemory, Op, Tag};
use op_logger::{MAX_LOGGED, OpLog};
use point_geom::{Axis, Point};
use std::alloc::Global;

pub(crate) fn log_scans(
    alloc: Global,
    tree: &Tree,
    watches: &mut Watches,
    items: &[Item],
) -> Result<(), NoMemory>
    requires { HaveRoomAtOnce (length items.now) watches.old }
    ensures logged { OnOk result (watches.new ≡ with_scan items.now tree.now watches.old) }
    ensures begins { AreExtended watches.old watches.new }
    ensures few { AreMore (length items.now + 1) watches.old watches.new }
{
    log_each_scan(alloc, tree, watches.items.as_mut_slice(), items)
}

fn log_each_scan(
    alloc: Global,
    tree: &Tree,
    watches: &mut [Watch],
    items: &[Item],
) -> Result<(), NoMemory>
    requires { HaveRoomAtOnce (length items.now) watches.old }
    ensures logged { OnOk result (watches.new ≡ with_scan items.now tree.now watches.old) }
    ensures begins { AreExtended watches.old watches.new }
    ensures few { AreMore (length items.now + 1) watches.old watches.new }
{
    let Some((watch, rest)) = watches.split_first_mut() else {
        return Ok(());
    };
    let mut items_there = Vec::from_slice(alloc, items)?;
    log_scan(
        tree,
        Tag::KEEP,
        watch.path.as_slice(),
        &mut items_there,
        &mut watch.log,
    )?;
    log_each_scan(alloc, tree, rest, items)
}

// Of the items those that come to the subtree remain.
fn log_scan(
    tree: &Tree,
    pending: Tag,
    sides: &[Side],
    items: &mut Vec<Item>,
    log: &mut OpLog,
) -> Result<(), NoMemory>
    requires { length log.old + length (logged_scan sides.now items.old.items (tagged pending tree.now)) ≤ MAX_LOGGED }
    ensures logged { OnOk result (log.new ≡ log.old ++ logged_scan sides.now items.old.items (tagged pending tree.now)) }
    ensures begins { Extends log.old log.new }
    ensures few { length log.new ≤ length log.old + length (logged_scan sides.now items.old.items (tagged pending tree.now)) }
{
    let Some((side, rest)) = sides.split_first() else {
        return note_puts(log, items.as_slice());
    };
    if is_none(items.as_slice()) {
        return Ok(());
    }
    let Some(top) = tree.top() else {
        return Ok(());
    };
    let (next, pending) = step_down(&top, pending, *side, rest, log)?;
    keep_going(items, *side, top.axis, &top.item.point);
    log_scan(next, pending, rest, items, log)
}

fn is_none(items: &[Item]) -> bool
    ensures none { result ≡ true → items.now ≡ [] }
    ensures some { result ≡ false → items.now ≡ [] → ⊥ }
{
    items.is_empty()
}

fn keep_going(items: &mut Vec<Item>, side: Side, axis: Axis, point: &Point)
    ensures { items.new.items ≡ going side axis point.now items.old.items }
{
    items.retain(|i| goes_to(side, goes_left(&i.point, axis, point)));
}

fn note_puts(log: &mut OpLog, items: &[Item]) -> Result<(), NoMemory>
    requires { length log.old + length (puts_of items.now) ≤ MAX_LOGGED }
    ensures logged { OnOk result (log.new ≡ log.old ++ puts_of items.now) }
    ensures begins { Extends log.old log.new }
    ensures few { length log.new ≤ length log.old + length (puts_of items.now) }
{
    for item in items {
        let Item { number, point, .. } = *item;
        note(log, Op::Put { number, point })?;
    }
    Ok(())
}
