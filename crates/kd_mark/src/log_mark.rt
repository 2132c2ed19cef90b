//! What an action on chosen items does to watched subtrees, logged before it is done.
ghost use Rattle.std.specs.Prelude.{◌≡◌, ◌+◌, ◌≤◌, ◌++◌, length, IfOk, OnOk};
ghost use Rattle.node_labels.specs.Labels.{composed};
ghost use Rattle.map_items.specs.Ops.{Extends};
ghost use Rattle.kd_tree.specs.{Parts.{child}, Walk.{tagged}};
ghost use Rattle.kd_mark.specs.{Watch.{handed, is_met, logged_mark}, Watches.{AreExtended, AreFewMore, HaveRoom, with_marks}};

use crate::reach::{covers, meets, reach_of};
use crate::watch::{Watch, note};
use kd_tree::{Side, Top, Tree};
use map_items::{Choice, NoMemory, Op, Tag};
use op_logger::{MAX_LOGGED, OpLog};

/// Logs for each watch what the action does to its subtree.
pub fn log_each_mark(
    tree: &Tree,
    watches: &mut [Watch],
    choice: &Choice,
    tag: Tag,
) -> Result<(), NoMemory>
    requires { HaveRoom watches.old }
    ensures logged { OnOk result (watches.new ≡ with_marks choice.now tag tree.now watches.old) }
    ensures begins { AreExtended watches.old watches.new }
    ensures few { AreFewMore watches.old watches.new }
{
    let Some((watch, rest)) = watches.split_first_mut() else {
        return Ok(());
    };
    log_mark(
        tree,
        Tag::KEEP,
        watch.path.as_slice(),
        choice,
        tag,
        &mut watch.log,
    )?;
    log_each_mark(tree, rest, choice, tag)
}

// `pending` is the action from above the tree.
fn log_mark(
    tree: &Tree,
    pending: Tag,
    sides: &[Side],
    choice: &Choice,
    tag: Tag,
    log: &mut OpLog,
) -> Result<(), NoMemory>
    requires { length log.old + length (logged_mark choice.now tag sides.now (tagged pending tree.now)) ≤ MAX_LOGGED }
    ensures logged { OnOk result (log.new ≡ log.old ++ logged_mark choice.now tag sides.now (tagged pending tree.now)) }
    ensures begins { Extends log.old log.new }
    ensures few { length log.new ≤ length log.old + length (logged_mark choice.now tag sides.now (tagged pending tree.now)) }
{
    let Some((side, rest)) = sides.split_first() else {
        if !is_met(choice, tree) {
            return Ok(());
        }
        let choice = *choice;
        return note(log, Op::Mark { choice, tag });
    };
    let Some(reach) = reach_of(tree) else {
        return Ok(());
    };
    if !meets(choice, &reach) {
        return Ok(());
    }
    if covers(choice, &reach) {
        return Ok(());
    }
    let Some(top) = tree.top() else {
        return Ok(());
    };
    let (next, pending) = step_down(&top, pending, *side, rest, log)?;
    log_mark(next, pending, rest, choice, tag, log)
}

/// The child on the way to a watched root, and the action that is pending for it by then, which is logged where the child
/// is that root: `rest` is the path from there.
#[inline]
pub fn step_down<'a>(
    top: &Top<'a>,
    pending: Tag,
    side: Side,
    rest: &[Side],
    log: &mut OpLog,
) -> Result<(&'a Tree, Tag), NoMemory>
    requires { length log.old + length (handed rest.now (composed top.now.pending pending)) ≤ MAX_LOGGED }
    ensures next { IfOk result (λ r. r.0.now ≡ child side top.now.left.now top.now.right.now) }
    ensures pending { IfOk result (λ r. r.1 ≡ composed top.now.pending pending) }
    ensures logged { OnOk result (log.new ≡ log.old ++ handed rest.now (composed top.now.pending pending)) }
    ensures begins { Extends log.old log.new }
    ensures few { length log.new ≤ length log.old + length (handed rest.now (composed top.now.pending pending)) }
{
    let below = top.pending.then(pending);
    note_pending(below, rest, log)?;
    Ok((top.child(side), below))
}

// Logs the action handed down to a child, where that is the watched root: `rest` is the path from there.
fn note_pending(pending: Tag, rest: &[Side], log: &mut OpLog) -> Result<(), NoMemory>
    requires { length log.old + length (handed rest.now pending) ≤ MAX_LOGGED }
    ensures logged { OnOk result (log.new ≡ log.old ++ handed rest.now pending) }
    ensures begins { Extends log.old log.new }
    ensures few { length log.new ≤ length log.old + length (handed rest.now pending) }
{
    if !rest.is_empty() || pending == Tag::KEEP {
        return Ok(());
    }
    let choice = Choice::ALL;
    note(
        log,
        Op::Mark {
            choice,
            tag: pending,
        },
    )
}

fn is_met(choice: &Choice, tree: &Tree) -> bool
    ensures { result ≡ is_met choice.now tree.now }
{
    match reach_of(tree) {
        None => false,
        Some(reach) => meets(choice, &reach),
    }
}
