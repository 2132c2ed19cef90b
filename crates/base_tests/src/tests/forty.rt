//! Forty items in a row, and the tree of them.
ghost use Rattle.std.specs.Prelude.{◌≡◌, ◌≤◌, length, IfOk};
ghost use Rattle.map_items.specs.Contents.{live_at};
ghost use Rattle.kd_tree.specs.{Contents.{AreDistinct, AreKept}, Counter.{IsBlankOf}};

use crate::tests::assertions::{holds, made, same};
use crate::tests::lists::{holds_all, top_of};
use kd_tree::{Path, Side, Steps, Tree};
use map_fold::{Item, Label, Tag};
use point_geom::{Axis, Point};
use std::alloc::{AllocError, Global};
use std::marker::Brand;
use std::process::Abort;
use std::sync::ledger::{Blank, Ledger};

// A live item.
pub fn item(rt: &impl Abort, number: u32, x: i64) -> Item
    ensures x { result.point.x ≡ x }
    ensures live { result ≡ live_at number result.point }
{
    Item {
        number,
        point: made(rt, Point::new(x, 0, 0)),
        label: Label::Live,
    }
}

// Live items at x from 1 on.
fn forty_items(rt: &impl Abort, alloc: Global) -> Result<Vec<Item>, AllocError>
    ensures kept { IfOk result (λ v. AreKept v.items) }
    ensures distinct { IfOk result (λ v. AreDistinct v.items) }
    ensures few { IfOk result (λ v. length v.items ≤ 40) }
{
    let mut items = Vec::new(alloc);
    for number in 0..40 {
        items.push(item(rt, number, number as i64 + 1))?;
    }
    Ok(items)
}

pub fn forty<L: Ledger>(rt: &impl Abort, alloc: Global, steps: &mut Steps<L>) -> Tree {
    let items = made(rt, forty_items(rt, alloc));
    made(rt, Tree::build(alloc, &items, steps))
}

// The tree of the items, with this action done to all.
pub fn forty_after(rt: &impl Abort, alloc: Global, tag: Tag) -> Tree {
    tagged_forty::<Brand>(rt, alloc, tag, Blank::new(1))
}

fn tagged_forty<L: Ledger>(rt: &impl Abort, alloc: Global, tag: Tag, blank: Blank) -> Tree
    requires blank { IsBlankOf L.name L.parts blank }
{
    let mut steps: Steps<L> = Steps::new(blank);
    let tree = forty(rt, alloc, &mut steps);
    made(rt, tree.tagged(alloc, tag, &mut steps))
}

// The tree holds the numbers from 0 to n - 1, all suspended.
pub fn is_suspended(rt: &impl Abort, alloc: Global, tree: &Tree, n: u32) {
    let items = made(rt, tree.flatten(alloc));
    let mut next = 0;
    for item in items.as_slice() {
        same(rt, "the number", item.number, next);
        same(rt, "the label", item.label, Label::Suspended);
        next = item.number.saturating_add(1);
    }
    same(rt, "items", next, n);
    same(rt, "suspended items", tree.counts().suspended, n);
}

#[test]
fn forty_items_are_built_by_medians(rt: HostRuntime) {
    let alloc = rt.alloc();
    let tree = forty_after(&rt, alloc, Tag::KEEP);
    let items = made(&rt, forty_items(&rt, alloc));
    holds_all(&rt, alloc, &tree, items.as_slice());
    is_halved(&rt, &tree);
}

fn is_halved(rt: &impl Abort, tree: &Tree) {
    adds_up(rt, tree);
    halves_each_row(rt, tree);
    begins_with_a_leaf(rt, tree);
}

fn adds_up(rt: &impl Abort, tree: &Tree) {
    same(rt, "nodes", tree.size(), 40);
    same(rt, "levels", tree.levels(), 6);
    same(rt, "live items", tree.counts().live, 40);
    let numbers = tree.numbers().map(|n| (n.least, n.greatest));
    same(rt, "the numbers", numbers, Some((0, 39)));
    let is_even = tree.first_breach(10).is_none();
    holds(rt, "no breach", is_even);
}

fn halves_each_row(rt: &impl Abort, tree: &Tree) {
    let Some(top) = tree.top() else {
        panic!(rt; "no top");
    };
    holds(rt, "the axis", top.axis == Axis::X);
    same(rt, "the top", top_of(rt, tree), (20, 19, 20));
    same(rt, "the left child", top_of(rt, top.left), (10, 9, 9));
    same(rt, "the right child", top_of(rt, top.right), (30, 9, 10));
}

// The least item has no child.
fn begins_with_a_leaf(rt: &impl Abort, tree: &Tree) {
    let twice = Path::root().down(Side::Left).down(Side::Left);
    let least = twice.down(Side::Left).down(Side::Left);
    same(rt, "the least item", size_at(tree, &least), Some(1));
    let past = least.down(Side::Left);
    same(rt, "its left child", size_at(tree, &past), Some(0));
    let farther = past.down(Side::Right);
    same(rt, "a child of that", size_at(tree, &farther), None);
}

fn size_at(tree: &Tree, path: &Path) -> Option<u32> {
    tree.subtree_at(path).map(|t| t.size())
}
