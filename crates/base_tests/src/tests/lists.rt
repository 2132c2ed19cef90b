//! The shapes that a rising row takes, and what a tree holds.
use crate::tests::assertions::{found, holds, made, same};
use crate::tests::numbered::Numbered;
use kd_tree::{Path, Side, Tree};
use map_fold::Item;
use std::alloc::Global;
use std::process::Abort;

// The top's x, and how many nodes its children have.
pub fn top_of(rt: &impl Abort, tree: &Tree) -> (i64, u32, u32) {
    let Some(top) = tree.top() else {
        panic!(rt; "no top");
    };
    (top.item.point.x(), top.left.size(), top.right.size())
}

#[test]
fn a_rising_row_leans_to_the_right_until_it_is_settled(rt: HostRuntime) {
    let alloc = rt.alloc();
    let map = Numbered::new(16).risen(&rt, alloc, 1, 41);
    same(&rt, "the top", top_of(&rt, &map.tree), (7, 6, 33));

    let map = made(&rt, map.settled(alloc));
    same(&rt, "the settled top", top_of(&rt, &map.tree), (20, 19, 20));

    let map = map.risen(&rt, alloc, 41, 45);
    same(&rt, "the last top", top_of(&rt, &map.tree), (20, 19, 24));
    leans_to_the_right(&rt, &map.tree);
}

fn leans_to_the_right(rt: &impl Abort, tree: &Tree) {
    let right = Path::root().down(Side::Right);
    let child = found(rt, tree.subtree_at(&right));
    let (_, left, below) = top_of(rt, child);
    same(rt, "the right child", (left, below), (9, 14));
    let is_first = tree.first_breach(16) == Some(right);
    holds(rt, "the first breach", is_first);
    holds(rt, "a whole that may stand", !tree.is_breached());
}

pub fn holds_all(rt: &impl Abort, alloc: Global, tree: &Tree, held: &[Item]) {
    let items = made(rt, tree.flatten(alloc));
    holds(rt, "what was held", items.as_slice() == held);
}
