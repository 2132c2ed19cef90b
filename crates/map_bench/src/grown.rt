//! A tree that grows scan by scan.
ghost use Rattle.std.specs.Prelude.{◌<◌, ◌≤◌, ℕ, Contains};
ghost use Rattle.kd_tree.specs.Shape.{numbers};
ghost use Rattle.map_items.specs.declared.limits.TheConstants.{MAX_POINTS};

use crate::bench::Bench;
use crate::course::Scan;
use crate::growing::Growing;
use crate::stop::Stop;
use kd_tree::{Scratch, Steps, Tree};
use kd_update::{marked, put_points};
use map_fold::{Choice, MAX_POINTS, NoMemory, Points, Tag};
use std::alloc::Global;
use std::mem;
use std::sync::ledger::Ledger;

/// A million: the update itself rebuilds whatever lost its balance, since nothing here works beside it. The plain tree
/// does the same.
pub const LARGE: u32 = 1_000_000;

// Done, or memory ran out.
type Done = Result<(), NoMemory>;

/// A tree whose numbers lie below the next one.
#[derive(Drop)]
pub struct Grown {
    pub tree: Tree,
    // What new nodes are made in.
    scratch: Scratch,
    // Whether the version before each scan is held until the scan is done.
    holds: bool,
    next: u32,
    ghost below: { (n : ℕ) → Contains (numbers tree) n → n < next },
    ghost few: { next ≤ MAX_POINTS },
}

impl Grown {
    pub fn new(alloc: Global, holds: bool) -> Grown {
        Grown {
            tree: Tree::empty(),
            scratch: Scratch::new(alloc),
            holds,
            next: 0,
        }
    }

    // The version before a scan, where it is held.
    fn held<L: Ledger>(&self, alloc: Global, steps: &mut Steps<L>) -> Result<Tree, NoMemory> {
        if self.holds {
            self.tree.copy(alloc, steps)
        } else {
            Ok(Tree::empty())
        }
    }

    fn change<L: Ledger>(&mut self, alloc: Global, scan: &Scan, steps: &mut Steps<L>) -> Done {
        self.put_all(alloc, &scan.points, steps)?;
        match &scan.left {
            None => Ok(()),
            Some(left) => self.delete(alloc, &Choice::within(left), steps),
        }
    }

    // Where too few numbers are left for all of them, none is put.
    fn put_all<L: Ledger>(&mut self, alloc: Global, points: &Points, steps: &mut Steps<L>) -> Done {
        let points = points.as_slice();
        let next = self.next;
        if points.len() > (MAX_POINTS - next) as usize {
            return Ok(());
        }
        let tree = mem::replace(&mut self.tree, Tree::empty());
        let _size = tree.size();
        self.tree = put_points(alloc, tree, LARGE, next, points, &mut self.scratch, steps)?;
        self.next = next + points.len() as u32;
        Ok(())
    }

    // Deletes what a choice chooses, as `delete` does.
    fn delete<L: Ledger>(&mut self, alloc: Global, choice: &Choice, steps: &mut Steps<L>) -> Done {
        delete(alloc, &mut self.tree, choice, steps)
    }
}

/// Deletes what a choice chooses from a tree. Where memory runs out, nothing is left of it.
pub fn delete<L: Ledger>(
    alloc: Global,
    tree: &mut Tree,
    choice: &Choice,
    steps: &mut Steps<L>,
) -> Done
    ensures { (n : ℕ) → Contains (numbers tree.new) n → Contains (numbers tree.old) n }
{
    let old = mem::replace(tree, Tree::empty());
    *tree = marked(alloc, old, LARGE, choice, Tag::DELETE, steps)?;
    Ok(())
}

impl Growing for Grown {
    fn tree(&self) -> &Tree {
        &self.tree
    }

    fn take_in<L: Ledger, R>(&mut self, at: &mut Bench<'_, L, R>, scan: &Scan) -> Result<(), Stop> {
        let held = self.held(at.alloc, &mut at.steps)?;
        let done = self.change(at.alloc, scan, &mut at.steps);
        // A version that is dropped gives its nodes' memory to the next scan.
        self.scratch.reclaim(held);
        Ok(done?)
    }
}
