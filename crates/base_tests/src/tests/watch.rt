//! Watched subtrees beside plain lists.
use crate::tests::assertions::{found, holds, made, same};
use crate::tests::draw::{Action, Draw, mark_plainly};
use crate::tests::numbered::{Numbered, between};
use crate::tests::watching::{Watching, is_large};
use kd_tree::{Path, Side, Tree};
use kd_update::{Watch, Watches};
use map_fold::{Choice, Item, Label, Op, Tag};
use op_logger::OpLog;
use point_geom::Point;
use std::alloc::{AllocError, Global};
use std::process::Abort;

// What the subtree at the path holds by itself.
pub fn own(rt: &impl Abort, alloc: Global, tree: &Tree, path: &Path) -> Vec<Item> {
    let child = found(rt, tree.subtree_at(path));
    let items = made(rt, child.flatten(alloc));
    made(rt, Vec::from_slice(alloc, items.as_slice()))
}

// The items of the list after what was logged. The points that are put have rising numbers.
fn replay_plainly(rt: &impl Abort, alloc: Global, items: &mut Vec<Item>, log: &OpLog) {
    let ops = made(rt, log.after(alloc, 0));
    for op in ops.as_slice() {
        made(rt, perform_plainly(items, op));
    }
}

pub fn perform_plainly(items: &mut Vec<Item>, op: &Op) -> Result<(), AllocError> {
    match op {
        Op::Mark { choice, tag } => mark_plainly(items, choice, *tag),
        Op::Put { number, point } => items.push(Item {
            number: *number,
            point: *point,
            label: Label::Live,
        })?,
    }
    Ok(())
}

// Four places, two levels down.
pub fn grandchildren() -> [Path; 4] {
    let left = Path::root().down(Side::Left);
    let right = Path::root().down(Side::Right);
    [
        left.down(Side::Left),
        left.down(Side::Right),
        right.down(Side::Left),
        right.down(Side::Right),
    ]
}

type Logged = (u32, u32, u32, u32);

// How many operations are logged at each of four watches.
fn logged(watches: &Watches) -> Option<Logged> {
    match watches.as_slice() {
        [a, b, c, d] => Some((a.log.len(), b.log.len(), c.log.len(), d.log.len())),
        _ => None,
    }
}

// The map after an action on the points from `from` to `to` less one, which leaves so many logged.
fn acted(
    rt: &impl Abort,
    alloc: Global,
    at: Watching,
    (from, to, tag, want): (i64, i64, Tag, Logged),
) -> Watching {
    let at = marked_row(rt, alloc, at, (from, to), tag);
    have_logged(rt, &at.watches, (from, to), want);
    at
}

// The points from `from` to `to` less one.
fn row(rt: &impl Abort, from: i64, to: i64) -> Choice {
    let cuboid = made(rt, between((from, 0, 0), (to, 1, 1)));
    Choice::within(&cuboid)
}

fn marked_row(
    rt: &impl Abort,
    alloc: Global,
    at: Watching,
    (from, to): (i64, i64),
    tag: Tag,
) -> Watching {
    let choice = row(rt, from, to);
    at.marked(rt, alloc, &Action { choice, tag })
}

// So many operations are logged after a change from `from` to `to`.
fn have_logged(rt: &impl Abort, watches: &Watches, (from, to): (i64, i64), want: Logged) {
    let are_so_many = logged(watches) == Some(want);
    assert!(rt; are_so_many, "from {from} to {to}");
}

// The map after a point more, which leaves so many logged.
fn with_point(rt: &impl Abort, alloc: Global, at: Watching, (x, want): (i64, Logged)) -> Watching {
    let point = made(rt, Point::new(x, 0, 0));
    let at = at.put(rt, alloc, point);
    have_logged(rt, &at.watches, (x, x), want);
    at
}

// A settled row.
fn balanced(rt: &impl Abort, alloc: Global, from: i64, to: i64) -> Numbered {
    let map = Numbered::new(16).risen(rt, alloc, from, to);
    made(rt, map.settled(alloc))
}

#[test]
fn an_action_is_logged_where_it_meets_a_watched_root_that_is_not_covered_from_above(
    rt: HostRuntime,
) {
    let alloc = rt.alloc();
    // Four subtrees: 1 to 19, 21 to 39, 41 to 59 and 61 to 80.
    let map = balanced(&rt, alloc, 1, 81);
    let mut at = Watching::new(&rt, alloc, map, &grandchildren());
    for row in [
        // It covers the first root, touches the first two, and misses all.
        (1, 20, Tag::SUSPEND, (1, 0, 0, 0)),
        (19, 22, Tag::RESTORE, (2, 1, 0, 0)),
        (20, 21, Tag::SUSPEND, (2, 1, 0, 0)),
        (0, 1, Tag::DELETE, (2, 1, 0, 0)),
        // It covers the whole tree, and rests at its top.
        (0, 100, Tag::SUSPEND, (2, 1, 0, 0)),
        // What rests is pushed into both children of the node above the first two, and into the parent of the others.
        (30, 33, Tag::RESTORE, (3, 3, 0, 0)),
    ] {
        at = acted(&rt, alloc, at, row);
    }
    // Here the parent pushes it on, also into the root that the point doesn't go to.
    for row in [(50, (3, 3, 2, 1)), (90, (3, 3, 2, 2)), (5, (4, 3, 2, 2))] {
        at = with_point(&rt, alloc, at, row);
    }
    same(&rt, "watches", at.watches.into_vec().len(), 4);
}

#[test]
fn what_rests_above_a_watched_root_is_logged_when_pushed_in(rt: HostRuntime) {
    let alloc = rt.alloc();
    let map = balanced(&rt, alloc, 1, 41);
    let map = map.risen(&rt, alloc, 41, 45);
    let right = Path::root().down(Side::Right);
    let at = Watching::new(&rt, alloc, map, &[right]);
    let at = marked_row(&rt, alloc, at, (0, 100), Tag::SUSPEND);
    let at = marked_row(&rt, alloc, at, (30, 33), Tag::RESTORE);
    let is_large = is_large(&at.map.tree, 24, &right);
    holds(&rt, "a large subtree", is_large);
    has_logged_both(&rt, alloc, &at.watches, (30, 33));
}

// The first watch has that all were suspended, and that the points from `from` to `to` less one were restored.
fn has_logged_both(rt: &impl Abort, alloc: Global, watches: &Watches, (from, to): (i64, i64)) {
    let watch = found(rt, watches.as_slice().first());
    let suspended = Op::Mark {
        choice: Choice::ALL,
        tag: Tag::SUSPEND,
    };
    let restored = Op::Mark {
        choice: row(rt, from, to),
        tag: Tag::RESTORE,
    };
    let ops = made(rt, watch.log.after(alloc, 0));
    let are_both = ops.as_slice() == [suspended, restored].as_slice();
    holds(rt, "what was logged", are_both);
}

#[test]
fn what_was_logged_makes_a_watched_subtree_of_what_it_was(rt: HostRuntime) {
    let alloc = rt.alloc();
    let [first, second, ..] = grandchildren();
    let left = Path::root().down(Side::Left);
    beside(&rt, alloc, &[left]);
    beside(&rt, alloc, &[second, left]);
    beside(&rt, alloc, &[first, second]);
    beside(&rt, alloc, &grandchildren());
}

// A settled map of drawn points.
pub fn drawn_map(rt: &impl Abort, alloc: Global, draw: &mut Draw) -> Numbered {
    let mut map = Numbered::new(16).risen(rt, alloc, 0, 16);
    for _ in 0..200 {
        map = map.put(rt, alloc, draw.point(rt));
    }
    made(rt, map.settled(alloc))
}

// What each subtree holds.
pub fn held_at(rt: &impl Abort, alloc: Global, tree: &Tree, paths: &[Path]) -> Vec<Vec<Item>> {
    let mut lists = Vec::new(alloc);
    for path in paths {
        let items = own(rt, alloc, tree, path);
        made(rt, lists.push(items));
    }
    lists
}

// Random updates of a settled row beside the watches, and in the end each subtree beside its list.
fn beside(rt: &impl Abort, alloc: Global, paths: &[Path]) {
    let mut draw = Draw { state: 7 };
    let map = drawn_map(rt, alloc, &mut draw);
    let olds = held_at(rt, alloc, &map.tree, paths);
    let at = Watching::new(rt, alloc, map, paths);
    let at = changed_often(rt, alloc, at, &mut draw);
    all_became(rt, alloc, &at, olds);
}

fn changed_often(rt: &impl Abort, alloc: Global, at: Watching, draw: &mut Draw) -> Watching {
    let mut at = at;
    for _ in 0..300 {
        at = changed(rt, alloc, at, draw);
    }
    at
}

// What was logged at each watch makes of its old items what its subtree holds.
pub fn all_became(rt: &impl Abort, alloc: Global, at: &Watching, olds: Vec<Vec<Item>>) {
    let mut olds = olds.into_iter();
    for watch in at.watches.as_slice() {
        let items = found(rt, olds.next());
        became(rt, alloc, &at.map.tree, watch, items);
    }
}

fn changed(rt: &impl Abort, alloc: Global, at: Watching, draw: &mut Draw) -> Watching {
    if draw.sixteenth() < 8 {
        return at.put(rt, alloc, draw.point(rt));
    }
    let action = draw.action(rt);
    at.marked(rt, alloc, &action)
}

// What was logged makes of these items what the subtree holds.
fn became(rt: &impl Abort, alloc: Global, tree: &Tree, watch: &Watch, items: Vec<Item>) {
    let mut items = items;
    replay_plainly(rt, alloc, &mut items, &watch.log);
    let held = own(rt, alloc, tree, &watch.path);
    let are_same = held.as_slice() == items.as_slice();
    holds(rt, "what the subtree holds", are_same);
}
