//! What a point does to watched subtrees, logged first.
ghost use Rattle.std.specs.Prelude.{◌≡◌, ◌+◌, ◌≤◌, ◌++◌, length, OnOk};
ghost use Rattle.map_items.specs.Ops.{Extends};
ghost use Rattle.kd_tree.specs.Walk.{tagged};
ghost use Rattle.kd_update.specs.{Watch.{logged_put}, Watches.{with_puts}};
ghost use Rattle.kd_mark.specs.Watches.{AreExtended, AreFewMore, HaveRoom};

use crate::points::insert::goes_left;
use crate::points::sides::goes_to;
use kd_mark::{Watch, Watches, note, step_down};
use kd_tree::{Side, Tree};
use map_items::{NoMemory, Op, Tag};
use op_logger::{MAX_LOGGED, OpLog};
use point_geom::Point;

pub(crate) fn log_puts(
    tree: &Tree,
    watches: &mut Watches,
    number: u32,
    point: Point,
) -> Result<(), NoMemory>
    requires { HaveRoom watches.old }
    ensures logged { OnOk result (watches.new ≡ with_puts number point tree.now watches.old) }
    ensures begins { AreExtended watches.old watches.new }
    ensures few { AreFewMore watches.old watches.new }
{
    log_each_put(tree, watches.items.as_mut_slice(), number, point)
}

fn log_each_put(
    tree: &Tree,
    watches: &mut [Watch],
    number: u32,
    point: Point,
) -> Result<(), NoMemory>
    requires { HaveRoom watches.old }
    ensures logged { OnOk result (watches.new ≡ with_puts number point tree.now watches.old) }
    ensures begins { AreExtended watches.old watches.new }
    ensures few { AreFewMore watches.old watches.new }
{
    let Some((watch, rest)) = watches.split_first_mut() else {
        return Ok(());
    };
    log_put(
        tree,
        Tag::KEEP,
        watch.path.as_slice(),
        number,
        point,
        &mut watch.log,
    )?;
    log_each_put(tree, rest, number, point)
}

// For the subtree at the sides, of a tree with this pending action.
fn log_put(
    tree: &Tree,
    pending: Tag,
    sides: &[Side],
    number: u32,
    point: Point,
    log: &mut OpLog,
) -> Result<(), NoMemory>
    requires { length log.old + length (logged_put number point sides.now (tagged pending tree.now)) ≤ MAX_LOGGED }
    ensures logged { OnOk result (log.new ≡ log.old ++ logged_put number point sides.now (tagged pending tree.now)) }
    ensures begins { Extends log.old log.new }
    ensures few { length log.new ≤ length log.old + length (logged_put number point sides.now (tagged pending tree.now)) }
{
    let Some((side, rest)) = sides.split_first() else {
        return note(log, Op::Put { number, point });
    };
    let Some(top) = tree.top() else {
        return Ok(());
    };
    let goes_on = goes_to(*side, goes_left(&point, top.axis, &top.item.point));
    let (next, pending) = step_down(&top, pending, *side, rest, log)?;
    if !goes_on {
        return Ok(());
    }
    log_put(next, pending, rest, number, point, log)
}
