//! Rebuilt subtrees, which are brought up to date. Nothing here knows the state that they come from.
ghost use Rattle.std.specs.Prelude.{◌≡◌, ◌+◌, ◌≤◌, [], ◌++◌, length, IfErr, IfOk};
ghost use Rattle.map_items.specs.Ops.{Fit, numbers_put, replay};
ghost use Rattle.kd_tree.specs.{Shape.{levels, nodes, numbers}, Contents.{contents}, Criteria.{AllMeetCriteria}, Counter.{IsBlankOf}};
ghost use Rattle.kd_mark.specs.{Refresh.{AreAmong}, Update.{IsBalancedBelow}};
ghost use Rattle.rebuild_parts.specs.Built.{AreNumbersOf, IsLawfulBuilt, IsReplayOf};

use crate::Job;
use crate::balanced::is_balanced;
use crate::detached_items::copied_by;
use kd_mark::rebuilt;
use kd_tree::{Steps, Tree};
use kd_update::replayed;
use map_items::{Item, NoMemory, Op};
use std::alloc::Global;
use std::marker::{Brand, Model};
use std::sync::ledger::{Blank, Ledger};

/// A tree that was built of a detached subtree's items, with some operations done on it since.
pub struct Built {
    pub(crate) job: Job,
    done: Vec<Op>,
    tree: Tree,
    large: u32,
}

impl Model for Built {
    ghost use Rattle.rebuild_parts.specs.Built.{BuiltAt, IsLawfulBuilt};
    ghost use Rattle.kd_mark.specs.Update.{IsBalancedBelow};

    ghost Value = { BuiltAt };

    ghost use Rattle.std.specs.Coded.{codes};
    ghost use Rattle.kd_tree.specs.ShapeCode.{coded_shape};

    ghost coded = { Prim.hlevel (codes, coded_shape) };

    ghost view = { λ b. record { ticket = b.job.ticket; items = b.job.items; done = b.done.items; tree = b.tree; large = b.large } };

    ghost invariant = { λ b. IsLawfulBuilt (record { ticket = b.job.ticket; items = b.job.items; done = b.done.items; tree = b.tree; large = b.large }) × IsBalancedBelow b.large b.tree };
}

// Manual, as `Job`'s.
impl Drop for Built {
    fn drop(self) {
        let Built {
            job: _job,
            done: _done,
            tree: _tree,
            large: _large,
        } = self;
    }
}

/// A value as it was, on `NoMemory`.
#[derive(Drop)]
pub struct BuiltLeft {
    pub built: Built,
}

impl Built {
    pub(crate) fn new(alloc: Global, job: Job, large: u32, tree: Tree) -> Built
        requires held { contents tree ≡ job.items }
        requires numbers { AreNumbersOf job.items tree }
        requires criteria { AllMeetCriteria 10 tree }
        ensures { result ≡ record { ticket = job.ticket; items = job.items; done = []; tree = tree; large = large } }
    {
        Built {
            job,
            done: Vec::new(alloc),
            tree,
            large,
        }
    }

    /// Its tree, and the `large` for which it is balanced.
    pub fn into_tree(self) -> (Tree, u32)
        ensures tree { result.0 ≡ self.tree }
        ensures large { result.1 ≡ self.large }
        ensures balanced { IsBalancedBelow result.1 result.0 }
    {
        let Built {
            job: _job,
            done: _done,
            tree,
            large,
        } = self;
        (tree, large)
    }

    /// The ticket of the subtree.
    pub fn ticket(&self) -> u64
        ensures { result ≡ self.now.ticket }
    {
        self.job.ticket()
    }

    /// What the subtree held, by itself, when it was detached.
    pub fn items(&self) -> &[Item]
        ensures { result.now ≡ self.now.items }
    {
        self.job.items()
    }

    /// The operations that were done since, in order.
    pub fn done(&self) -> &[Op]
        ensures value { result.now ≡ self.now.done }
        ensures lawful { IsLawfulBuilt self.now }
    {
        self.done.as_slice()
    }

    /// What the operations make of the items.
    pub fn tree(&self) -> &Tree
        ensures value { result.now ≡ self.now.tree }
        ensures lawful { IsLawfulBuilt self.now }
    {
        &self.tree
    }

    /// The tree's nodes of at least 10 and fewer than `large` nodes meet the balance criterion.
    pub fn large(&self) -> u32
        ensures value { result ≡ self.now.large }
        ensures balanced { IsBalancedBelow result self.now.tree }
    {
        self.large
    }

    /// The same value once more, sharing its list and nodes. The operations are copied.
    pub fn try_clone(&self, alloc: Global) -> Result<Built, NoMemory>
        ensures { IfOk result (λ b. b ≡ self.now) }
    {
        let job = self.job.try_clone()?;
        let mut done = Vec::new(alloc);
        done.extend_from_slice(self.done.as_slice())?;
        let tree = copied_by::<Brand>(alloc, &self.tree, Blank::new(1))?;
        Ok(Built {
            job,
            done,
            tree,
            large: self.large,
        })
    }

    /// The value with these operations done too, as `replayed` does them. A tree that is unbalanced for this `large`,
    /// since it was built with another, is rebuilt by medians before. On `NoMemory` the value is handed back as it was.
    pub fn replay(self, alloc: Global, large: u32, ops: &[Op]) -> Result<Built, BuiltLeft>
        requires { Fit (contents self.tree) ops.now }
        ensures replayed { IfOk result (IsReplayOf self ops.now) }
        ensures large { IfOk result (λ b. b.large ≡ large) }
        ensures balance { IfOk result (λ b. IsBalancedBelow large b.tree) }
        ensures handed_back { IfErr result (λ l. l.built ≡ self) }
    {
        let Ok(copy) = self.try_clone(alloc) else {
            return Err(BuiltLeft { built: self });
        };
        let Ok(built) = copy.replay_in_place(alloc, large, ops) else {
            return Err(BuiltLeft { built: self });
        };
        Ok(built)
    }

    /// `replay` in the value's own nodes, none of which is copied: so on `NoMemory` the value is dropped.
    pub fn replay_in_place(self, alloc: Global, large: u32, ops: &[Op]) -> Result<Built, NoMemory>
        requires { Fit (contents self.tree) ops.now }
        ensures replayed { IfOk result (IsReplayOf self ops.now) }
        ensures large { IfOk result (λ b. b.large ≡ large) }
        ensures balance { IfOk result (λ b. IsBalancedBelow large b.tree) }
    {
        let Built {
            job,
            mut done,
            tree,
            large: made_with,
        } = self;
        done.extend_from_slice(ops)?;
        let tree = replayed_from::<Brand>(alloc, tree, made_with, large, ops, Blank::new(1))?;
        Ok(Built {
            job,
            done,
            tree,
            large,
        })
    }
}

fn replayed_from<L: Ledger>(
    alloc: Global,
    tree: Tree,
    made_with: u32,
    large: u32,
    ops: &[Op],
    blank: Blank,
) -> Result<Tree, NoMemory>
    requires blank { IsBlankOf L.name L.parts blank }
    requires balanced { IsBalancedBelow made_with tree }
    requires fit { Fit (contents tree) ops.now }
    ensures contents { IfOk result (λ t. contents t ≡ replay (contents tree) ops.now) }
    ensures numbers { IfOk result (λ t. AreAmong (numbers t) (numbers_put ops.now ++ numbers tree)) }
    ensures balance { IfOk result (λ t. IsBalancedBelow large t) }
{
    let mut steps: Steps<L> = Steps::new(blank);
    replayed_onto(alloc, tree, made_with, large, ops, &mut steps)
}

/// The tree after the operations, done as by `replay`. On `NoMemory` it is dropped.
pub fn replayed_onto<L: Ledger>(
    alloc: Global,
    tree: Tree,
    made_with: u32,
    large: u32,
    ops: &[Op],
    steps: &mut Steps<L>,
) -> Result<Tree, NoMemory>
    requires balanced { IsBalancedBelow made_with tree }
    requires fit { Fit (contents tree) ops.now }
    ensures contents { IfOk result (λ t. contents t ≡ replay (contents tree) ops.now) }
    ensures numbers { IfOk result (λ t. AreAmong (numbers t) (numbers_put ops.now ++ numbers tree)) }
    ensures balance { IfOk result (λ t. IsBalancedBelow large t) }
    ensures low { IfOk result (λ t. levels t ≤ levels tree + length (numbers_put ops.now)) }
    ensures few { IfOk result (λ t. nodes t ≤ nodes tree + length (numbers_put ops.now)) }
    ensures same { ops.now ≡ [] → IsBalancedBelow large tree → IfOk result (λ t. t ≡ tree) }
    ensures no_nodes_made { ops.now ≡ [] → IsBalancedBelow large tree → steps.new ≡ steps.old }
{
    let tree = balanced_for(alloc, tree, made_with, large, steps)?;
    if ops.is_empty() {
        return Ok(tree);
    }
    replayed(alloc, tree, large, ops)
}

// Only a tree that was made with another `large` is looked at.
fn balanced_for<L: Ledger>(
    alloc: Global,
    tree: Tree,
    made_with: u32,
    large: u32,
    steps: &mut Steps<L>,
) -> Result<Tree, NoMemory>
    requires { IsBalancedBelow made_with tree }
    ensures contents { IfOk result (λ t. contents t ≡ contents tree) }
    ensures numbers { IfOk result (λ t. AreAmong (numbers t) (numbers tree)) }
    ensures balance { IfOk result (λ t. IsBalancedBelow large t) }
    ensures low { IfOk result (λ t. levels t ≤ levels tree) }
    ensures few { IfOk result (λ t. nodes t ≤ nodes tree) }
    ensures same { IsBalancedBelow large tree → IfOk result (λ t. t ≡ tree) }
    ensures no_nodes_made { IsBalancedBelow large tree → steps.new ≡ steps.old }
{
    if made_with == large {
        return Ok(tree);
    }
    if is_balanced(&tree, large) {
        return Ok(tree);
    }
    rebuilt(alloc, tree, steps)
}
