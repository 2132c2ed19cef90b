//! Trees that are rebuilt in one scratch.
ghost use Rattle.std.specs.{Prelude.{◌≡◌, ◌<◌, true}, List.{AllByRecursion}};
ghost use Rattle.kd_tree.specs.Counter.{IsBlankOf};

use crate::tests::assertions::{made, same};
use crate::tests::breaches::left_dropped;
use crate::tests::forty::{forty, item};
use crate::tests::lists::holds_all;
use kd_tree::{Scratch, Steps, Tree};
use map_fold::{Item, Items, NoMemory, Tag};
use std::alloc::Global;
use std::marker::Brand;
use std::process::Abort;
use std::sync::ledger::{Blank, Ledger};

fn all_below(items: &[Item], n: u32) -> bool
    ensures { result ≡ true → AllByRecursion (λ i. i.number < n) items.now }
{
    match items.split_first() {
        None => true,
        Some((first, rest)) => first.number < n && all_below(rest, n),
    }
}

// What trees are built and rebuilt with.
#[derive(Drop)]
struct Tools<L: Ledger> {
    alloc: Global,
    scratch: Scratch,
    steps: Steps<L>,
}

impl<L: Ledger> Tools<L> {
    // Of forty items 19 are dropped, and the others suspended, which the children of the top are yet to hear.
    fn half_left(&mut self, rt: &impl Abort) -> Tree {
        let tree = forty(rt, self.alloc, &mut self.steps);
        let tree = left_dropped(rt, self.alloc, tree, &mut self.steps);
        made(rt, tree.tagged(self.alloc, Tag::SUSPEND, &mut self.steps))
    }

    // The tree rebuilt with a live item more, whose number is 100.
    fn with_hundredth(&mut self, rt: &impl Abort, tree: Tree) -> Result<Tree, NoMemory> {
        let _size = tree.size();
        let items = tree.flatten(self.alloc)?;
        if !all_below(items.as_slice(), 100) {
            panic!(rt; "a number from 100 on");
        }
        let more = [item(rt, 100, 101)];
        tree.rebuilt_with(self.alloc, &more, &mut self.scratch, &mut self.steps)
    }

    // A copy rebuilt so. The nodes are the tree's too, which stays as it is.
    fn rebuilt_beside(&mut self, rt: &impl Abort, tree: &Tree) -> Tree {
        let copy = made(rt, tree.copy(self.alloc, &mut self.steps));
        let copy = made(rt, self.with_hundredth(rt, copy));
        same(rt, "the rebuilt tree", counts(&copy), (1, 21, 0));
        same(rt, "the tree beside it", counts(tree), (0, 21, 19));
        copy
    }

    // A restored copy of a tree that is dropped. The tree gives up its nodes, but for those that the copy has.
    fn restored(&mut self, rt: &impl Abort) -> Tree {
        let tree = self.half_left(rt);
        let copy = made(rt, tree.copy(self.alloc, &mut self.steps));
        let restored = made(rt, copy.tagged(self.alloc, Tag::RESTORE, &mut self.steps));
        self.scratch.reclaim(tree);
        restored
    }

    // What the first tree holds when it is rebuilt, beside itself and in its own nodes.
    fn rebuilt_first(&mut self, rt: &impl Abort) -> Items {
        let tree = self.half_left(rt);
        let items = self.held_when_rebuilt(rt, &tree);
        are_from_19_on(rt, items.as_slice());
        // The tree's own nodes are used again, and some of them are left over.
        let rebuilt = made(rt, self.with_hundredth(rt, tree));
        holds_all(rt, self.alloc, &rebuilt, items.as_slice());
        items
    }

    fn held_when_rebuilt(&mut self, rt: &impl Abort, tree: &Tree) -> Items {
        let copy = self.rebuilt_beside(rt, tree);
        made(rt, copy.flatten(self.alloc))
    }

    // The nodes that are left over take the next trees.
    fn rebuilt_next(&mut self, rt: &impl Abort, items: &[Item]) {
        let other = self.half_left(rt);
        self.holds_when_rebuilt(rt, &other, items);
        let restored = self.restored(rt);
        self.holds_when_rebuilt(rt, &other, items);
        same(rt, "the restored tree", counts(&restored), (21, 0, 19));
    }

    fn holds_when_rebuilt(&mut self, rt: &impl Abort, tree: &Tree, items: &[Item]) {
        let copy = self.rebuilt_beside(rt, tree);
        holds_all(rt, self.alloc, &copy, items);
    }
}

// How many items are live, suspended and dropped.
fn counts(tree: &Tree) -> (u32, u32, u32) {
    let counts = tree.counts();
    (counts.live, counts.suspended, counts.dropped)
}

// What was left, and the new item.
fn are_from_19_on(rt: &impl Abort, items: &[Item]) {
    let number = |at: usize| items.get(at).map(|i| i.number);
    same(rt, "the first number", number(0), Some(19));
    same(rt, "the last number that was left", number(20), Some(39));
    same(rt, "the new number", number(21), Some(100));
    same(rt, "no more", number(22), None);
}

fn rebuilt_with<L: Ledger>(rt: &impl Abort, alloc: Global, blank: Blank)
    requires blank { IsBlankOf L.name L.parts blank }
{
    let mut tools: Tools<L> = Tools {
        alloc,
        scratch: Scratch::new(alloc),
        steps: Steps::new(blank),
    };
    let items = tools.rebuilt_first(rt);
    tools.rebuilt_next(rt, items.as_slice());
}

#[test]
fn trees_built_anew_hold_what_was_left_and_the_new_items(rt: HostRuntime) {
    rebuilt_with::<Brand>(&rt, rt.alloc(), Blank::new(1));
}
