//! Trees that are taken apart at their tops, and put together.
ghost use Rattle.std.specs.Prelude.{◌≡◌};
ghost use Rattle.node_labels.specs.Labels.{keep_tag};
ghost use Rattle.kd_tree.specs.{Shape.{leaf, fork}, Counter.{IsBlankOf}};

use crate::tests::assertions::{made, same};
use crate::tests::forty::{forty_after, is_suspended, item};
use crate::tests::lists::holds_all;
use kd_tree::{Fork, Path, Side, Steps, Tree};
use map_fold::{Item, Tag};
use point_geom::Axis;
use std::alloc::Global;
use std::marker::Brand;
use std::process::Abort;
use std::sync::ledger::{Blank, Ledger};

// A tree of one item.
fn alone<L: Ledger>(rt: &impl Abort, alloc: Global, item: Item, steps: &mut Steps<L>) -> Tree
    ensures { result ≡ fork (record { item = item; axis = Axis.X; pending = keep_tag }) leaf leaf }
{
    let parts = Fork {
        item,
        axis: Axis::X,
        left: Tree::empty(),
        right: Tree::empty(),
    };
    made(rt, Tree::pull_up(alloc, parts, steps))
}

fn joined<L: Ledger>(rt: &impl Abort, alloc: Global, steps: &mut Steps<L>) -> Tree {
    let parts = Fork {
        item: item(rt, 1, 2),
        axis: Axis::X,
        left: alone(rt, alloc, item(rt, 0, 1), steps),
        right: alone(rt, alloc, item(rt, 2, 3), steps),
    };
    made(rt, Tree::pull_up(alloc, parts, steps))
}

// The tree with its top's pending action done to both children.
pub fn pushed<L: Ledger>(rt: &impl Abort, alloc: Global, tree: Tree, steps: &mut Steps<L>) -> Tree {
    let Some(parts) = made(rt, tree.push_down(alloc, steps)) else {
        panic!(rt; "no top");
    };
    made(rt, Tree::pull_up(alloc, parts, steps))
}

fn three_joined<L: Ledger>(rt: &impl Abort, alloc: Global, blank: Blank)
    requires blank { IsBlankOf L.name L.parts blank }
{
    let mut steps: Steps<L> = Steps::new(blank);
    let tree = joined(rt, alloc, &mut steps);
    let copy = made(rt, tree.copy(alloc, &mut steps));
    hold_the_same(rt, alloc, &tree, &copy);
    are_suspended(rt, alloc, tree, &mut steps);
    // The copy still has the nodes that were shared.
    same(rt, "live items of the copy", copy.counts().live, 3);
}

fn hold_the_same(rt: &impl Abort, alloc: Global, tree: &Tree, copy: &Tree) {
    let items = made(rt, tree.flatten(alloc));
    holds_all(rt, alloc, copy, items.as_slice());
    same(rt, "live items", copy.counts().live, 3);
}

fn are_suspended<L: Ledger>(rt: &impl Abort, alloc: Global, tree: Tree, steps: &mut Steps<L>) {
    let tree = made(rt, tree.tagged(alloc, Tag::SUSPEND, steps));
    is_suspended(rt, alloc, &tree, 3);
    let tree = pushed(rt, alloc, tree, steps);
    is_suspended(rt, alloc, &tree, 3);
}

#[test]
fn three_joined_items_are_suspended_through_push_down_and_pull_up(rt: HostRuntime) {
    three_joined::<Brand>(&rt, rt.alloc(), Blank::new(1));
}

// The tree taken apart and put together, where 40 items are suspended: 19 on its left, one at its top and 20 on its right.
fn reassembled<L: Ledger>(
    rt: &impl Abort,
    alloc: Global,
    tree: Tree,
    steps: &mut Steps<L>,
) -> Tree {
    let Some(node) = made(rt, tree.take_apart(alloc, steps)) else {
        panic!(rt; "no top");
    };
    same(rt, "suspended left", node.left.counts().suspended, 19);
    same(rt, "suspended right", node.right.counts().suspended, 20);
    let tree = made(rt, Tree::put_together(alloc, node, steps));
    is_suspended(rt, alloc, &tree, 40);
    tree
}

fn taken_apart<L: Ledger>(rt: &impl Abort, alloc: Global, tree: &Tree, blank: Blank)
    requires blank { IsBlankOf L.name L.parts blank }
{
    let mut steps: Steps<L> = Steps::new(blank);
    let shared = made(rt, tree.copy(alloc, &mut steps));
    let own = reassembled(rt, alloc, shared, &mut steps);
    // Its top is no longer shared.
    let _own = reassembled(rt, alloc, own, &mut steps);
}

#[test]
fn forty_suspended_items_stay_so_when_taken_apart(rt: HostRuntime) {
    let alloc = rt.alloc();
    let tree = forty_after(&rt, alloc, Tag::SUSPEND);
    is_suspended(&rt, alloc, &tree, 40);
    taken_apart::<Brand>(&rt, alloc, &tree, Blank::new(1));
    is_suspended(&rt, alloc, &tree, 40);
}

fn put_back<L: Ledger>(rt: &impl Abort, alloc: Global, tree: Tree, blank: Blank) -> Tree
    requires blank { IsBlankOf L.name L.parts blank }
{
    let mut steps: Steps<L> = Steps::new(blank);
    let _size = tree.size();
    let Some(top) = tree.top() else {
        panic!(rt; "no top");
    };
    let child = made(rt, top.left.copy(alloc, &mut steps));
    made(rt, tree.with_child(alloc, Side::Left, child, &mut steps))
}

#[test]
fn a_child_that_is_put_back_is_below_the_pending_action(rt: HostRuntime) {
    let alloc = rt.alloc();
    let tree = forty_after(&rt, alloc, Tag::SUSPEND);
    is_live_left(&rt, &tree);
    let tree = put_back::<Brand>(&rt, alloc, tree, Blank::new(1));
    is_live_left(&rt, &tree);
    is_suspended(&rt, alloc, &tree, 40);
}

// The left child by itself doesn't know what is pending for it.
fn is_live_left(rt: &impl Abort, tree: &Tree) {
    let left = Path::root().down(Side::Left);
    let live = tree.subtree_at(&left).map(|t| t.counts().live);
    same(rt, "live items of the left child", live, Some(19));
}
