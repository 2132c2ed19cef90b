//! Which breach is the first, and which are free.
ghost use Rattle.std.specs.Prelude.{◌≤◌};
ghost use Rattle.kd_tree.specs.Counter.{IsBlankOf};

use crate::tests::apart::pushed;
use crate::tests::assertions::{made, same};
use crate::tests::forty::{forty, forty_after};
use kd_tree::{Fork, Path, Side, Steps, Tree};
use kd_update::marked;
use map_fold::{Choice, Tag};
use std::alloc::Global;
use std::marker::Brand;
use std::process::Abort;
use std::sync::ledger::{Blank, Ledger};

// The tree of forty items with all dropped that is left of its top, and nothing rebuilt.
pub fn left_dropped<L: Ledger>(
    rt: &impl Abort,
    alloc: Global,
    tree: Tree,
    steps: &mut Steps<L>,
) -> Tree {
    let left = Choice::below(19);
    made(rt, marked(alloc, tree, 0, &left, Tag::DELETE, steps))
}

// The tree without its right child.
fn leaning<L: Ledger>(rt: &impl Abort, alloc: Global, tree: Tree, steps: &mut Steps<L>) -> Tree {
    let Some(parts) = made(rt, tree.push_down(alloc, steps)) else {
        panic!(rt; "no top");
    };
    let right = Tree::empty();
    let parts = Fork { right, ..parts };
    made(rt, Tree::pull_up(alloc, parts, steps))
}

fn first_breaches<L: Ledger>(rt: &impl Abort, alloc: Global, blank: Blank)
    requires blank { IsBlankOf L.name L.parts blank }
{
    let mut steps: Steps<L> = Steps::new(blank);
    // 19 of 40 dropped are fewer than half, and all of the left child's.
    let tree = forty(rt, alloc, &mut steps);
    let dropped = left_dropped(rt, alloc, tree, &mut steps);
    begin(rt, &dropped, Path::root().down(Side::Left), 20);
    // All of the 19 nodes below the top stand on one side.
    let tree = forty(rt, alloc, &mut steps);
    let leaning = leaning(rt, alloc, tree, &mut steps);
    begin(rt, &leaning, Path::root(), 21);
}

// The first breach of 10 nodes or more is this, and none has so many.
fn begin(rt: &impl Abort, tree: &Tree, first: Path, many: u32)
    requires { 10 ≤ many }
{
    begins(rt, tree, 10, Some(first));
    begins(rt, tree, many, None);
}

// The first breach of so many nodes or more.
fn begins(rt: &impl Abort, tree: &Tree, least: u32, want: Option<Path>)
    requires { 10 ≤ least }
{
    same(rt, "the first breach", tree.first_breach(least), want);
}

#[test]
fn the_first_breach_is_the_node_before_its_children(rt: HostRuntime) {
    first_breaches::<Brand>(&rt, rt.alloc(), Blank::new(1));
}

// A tree whose top and both children breach a criterion: all of its items are dropped, and the children know it.
fn dropped<L: Ledger>(rt: &impl Abort, alloc: Global, blank: Blank) -> Tree
    requires blank { IsBlankOf L.name L.parts blank }
{
    let mut steps: Steps<L> = Steps::new(blank);
    let tree = forty_after(rt, alloc, Tag::DELETE);
    pushed(rt, alloc, tree, &mut steps)
}

#[test]
fn a_breach_is_free_that_is_neither_above_nor_below_an_excepted_node(rt: HostRuntime) {
    let tree = dropped::<Brand>(&rt, rt.alloc(), Blank::new(1));
    let root = Path::root();
    is_free(&rt, &tree, 10, &[], Some(root));
    is_free(&rt, &tree, 10, &[root], None);
    are_free(&rt, &tree);
}

// Beside one of its children and what is below them.
fn are_free(rt: &impl Abort, tree: &Tree) {
    let root = Path::root();
    let (left, right) = (root.down(Side::Left), root.down(Side::Right));
    let rights = right.down(Side::Left);
    is_free(rt, tree, 10, &[left], Some(right));
    is_free(rt, tree, 10, &[left.down(Side::Left)], Some(right));
    is_free(rt, tree, 10, &[rights], Some(left));
    is_free(rt, tree, 20, &[rights], None);
    is_free(rt, tree, 10, &[right, left.down(Side::Right)], None);
}

// The first breach of so many nodes or more, beside the excepted ones.
fn is_free(rt: &impl Abort, tree: &Tree, least: u32, except: &[Path], want: Option<Path>)
    requires { 10 ≤ least }
{
    let found = tree.first_free_breach(least, except);
    same(rt, "the first free breach", found, want);
}
