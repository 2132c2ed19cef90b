//! Subtrees replaced with ample memory.
ghost use Rattle.std.specs.Prelude.{◌≡◌, true, IfOk};
ghost use Rattle.kd_tree.specs.{Apart.{IsClear}, Contents.{contents}, Counter.{IsBlankOf}};
ghost use Rattle.kd_mark.specs.Several.{AreLargeAt};

use crate::tests::assertions::{found, holds, made, same};
use crate::tests::lists::holds_all;
use crate::tests::script::Script;
use crate::tests::watching::is_large;
use kd_tree::{Path, Side, Steps, Tree};
use kd_update::{Replaced, replaced, replayed};
use map_fold::{Choice, Item, Items, NoMemory, Tag};
use std::alloc::Global;
use std::marker::Brand;
use std::process::Abort;
use std::sync::ledger::{Blank, Ledger};

// What stays as it is: the subtrees at these paths, which have so many nodes or more.
#[derive(Clone, Copy)]
struct Staying<'a> {
    paths: &'a [Path],
    nodes: u32,
}

// The tree with the other at the path, where both hold the same there.
fn put_in<L: Ledger>(
    rt: &impl Abort,
    alloc: Global,
    tree: Tree,
    path: &Path,
    with: Tree,
    staying: Staying<'_>,
    blank: Blank,
) -> Result<Replaced, NoMemory>
    requires blank { IsBlankOf L.name L.parts blank }
    requires there { AreLargeAt staying.nodes staying.paths.now tree }
    requires apart { IsClear path.now staying.paths.now }
{
    let Some(node) = tree.subtree_at(path) else {
        panic!(rt; "no subtree");
    };
    let Ok(are_same) = hold_the_same(alloc, &with, node) else {
        panic!(rt; "no memory");
    };
    if !are_same {
        panic!(rt; "other items");
    }
    let mut steps: Steps<L> = Steps::new(blank);
    let Staying { paths, nodes } = staying;
    replaced(alloc, tree, nodes, path, with, paths, &mut steps)
}

// Whether both hold the same.
fn hold_the_same(alloc: Global, one: &Tree, other: &Tree) -> Result<bool, NoMemory>
    ensures { IfOk result (λ b. b ≡ true → contents one.now ≡ contents other.now) }
{
    let there = other.flatten(alloc)?;
    let held = one.flatten(alloc)?;
    Ok(held.as_slice() == there.as_slice())
}

// Points at x from 0 on, each the right child of the one before. The first so many are dropped.
fn chain(rt: &impl Abort, alloc: Global, points: i64, dropped: i64) -> Tree {
    let script = Script::new(alloc).risen(rt, 0, dropped);
    let script = made(rt, script.mark(Choice::ALL, Tag::DELETE));
    done(rt, alloc, script.risen(rt, dropped, points))
}

// The tree that these operations make of none.
fn done(rt: &impl Abort, alloc: Global, script: Script) -> Tree {
    made(rt, replayed(alloc, Tree::empty(), 0, script.as_slice()))
}

#[test]
fn a_subtree_that_is_too_deep_has_the_whole_tree_built_anew(rt: HostRuntime) {
    let alloc = rt.alloc();
    for (start, anew) in [(100, false), (112, false), (113, true), (200, true)] {
        is_replaced(&rt, alloc, start, anew);
    }
}

// The subtree that starts there is replaced by a deeper one, in a tree rebuilt or in the old one.
fn is_replaced(rt: &impl Abort, alloc: Global, start: i64, anew: bool) {
    let tree = chain(rt, alloc, 400, 0);
    let with = chain(rt, alloc, 400, start);
    let held = made(rt, tree.flatten(alloc));
    let path = right(rt, start);
    let none = Staying {
        paths: &[],
        nodes: 0,
    };
    let done = made(
        rt,
        put_in::<Brand>(rt, alloc, tree, &path, with, none, Blank::new(1)),
    );
    same(rt, "rebuilt", done.anew, anew);
    holds_all(rt, alloc, &done.tree, held.as_slice());
    let levels = if anew { 9 } else { start.saturating_add(400) };
    same(rt, "levels", i64::from(done.tree.levels()), levels);
}

// So many times to the right.
fn right(rt: &impl Abort, times: i64) -> Path {
    let mut path = Path::root();
    for _ in 0..times {
        assert!(rt; path.as_slice().len() < 511);
        path = path.down(Side::Right);
    }
    path
}

#[test]
fn what_stands_at_another_path_stays(rt: HostRuntime) {
    let alloc = rt.alloc();
    let tree = forked(&rt, alloc);
    let with = under_a_dropped_point(&rt, alloc);
    let right = Path::root().down(Side::Right);
    let held = held_at(&rt, alloc, &tree, &right);
    let done = put_left(&rt, alloc, tree, with);
    holds(&rt, "not rebuilt", !done.anew);
    is_put_left(&rt, alloc, &done.tree, held.as_slice());
}

// The tree has the row with the dropped point on its left, and on its right what was held there.
fn is_put_left(rt: &impl Abort, alloc: Global, tree: &Tree, held: &[Item]) {
    let left = Path::root().down(Side::Left);
    let right = Path::root().down(Side::Right);
    is_line(rt, tree, &left, 33);
    is_line(rt, tree, &right, 32);
    let still_held = held_at(rt, alloc, tree, &right);
    let are_same = still_held.as_slice() == held;
    holds(rt, "what was held on the right", are_same);
}

// A top with 32 points in a row on either side.
fn forked(rt: &impl Abort, alloc: Global) -> Tree {
    let script = Script::new(alloc).risen(rt, 32, 33);
    let script = script.risen(rt, 0, 32);
    done(rt, alloc, script.risen(rt, 33, 65))
}

// The left row once more, under a point that is dropped.
fn under_a_dropped_point(rt: &impl Abort, alloc: Global) -> Tree {
    let script = Script::new(alloc).risen(rt, 0, 1);
    let script = made(rt, script.mark(Choice::ALL, Tag::DELETE));
    done(rt, alloc, script.risen(rt, 0, 32))
}

// The tree with the other on its left, where its right child has 16 nodes and more, which stay.
fn put_left(rt: &impl Abort, alloc: Global, tree: Tree, with: Tree) -> Replaced {
    let left = Path::root().down(Side::Left);
    let right = Path::root().down(Side::Right);
    assert!(rt; is_large(&tree, 16, &right));
    let staying = Staying {
        paths: &[right],
        nodes: 16,
    };
    made(
        rt,
        put_in::<Brand>(rt, alloc, tree, &left, with, staying, Blank::new(1)),
    )
}

fn held_at(rt: &impl Abort, alloc: Global, tree: &Tree, path: &Path) -> Items {
    let node = found(rt, tree.subtree_at(path));
    made(rt, node.flatten(alloc))
}

// The subtree there has so many nodes, each on a level of its own.
fn is_line(rt: &impl Abort, tree: &Tree, path: &Path, nodes: u32) {
    let node = found(rt, tree.subtree_at(path));
    same(rt, "nodes", node.size(), nodes);
    same(rt, "levels", node.levels(), nodes);
}
