//! Nothing here knows where operations were logged.
ghost use Rattle.std.specs.Prelude.{◌≡◌, ◌+◌, ◌<◌, ◌≤◌, [], ◌∷◌, ◌++◌, length, IfOk};
ghost use Rattle.map_items.specs.Ops.{Fit, numbers_put, perform, replay};
ghost use Rattle.kd_tree.specs.{Shape.{levels, nodes, numbers}, Contents.{contents}, Counter.{IsBlankOf}};
ghost use Rattle.kd_mark.specs.{Refresh.{AreAmong}, Update.{IsBalancedBelow}};
ghost use Rattle.kd_update.specs.Replay.{IsPerformed, IsRun};

use crate::replaying::runs::{most_at_once, put_run};
use crate::{put, with_room};
use kd_mark::marked;
use kd_tree::{Scratch, Steps, Tree};
use map_items::{NoMemory, Op};
use std::alloc::Global;
use std::marker::Brand;
use std::sync::ledger::{Blank, Ledger};

/// The tree after these operations, one after the other. Runs of at least 64 points are put in passes of fewer than
/// `large`. Where a point finds 512 levels or 4,194,304 nodes, the tree is rebuilt by medians first. On `NoMemory` it
/// is dropped.
pub fn replayed(alloc: Global, tree: Tree, large: u32, ops: &[Op]) -> Result<Tree, NoMemory>
    requires fit { Fit (contents tree) ops.now }
    ensures contents { IfOk result (λ t. contents t ≡ replay (contents tree) ops.now) }
    ensures numbers { IfOk result (λ t. AreAmong (numbers t) (numbers_put ops.now ++ numbers tree)) }
    ensures balance { IsBalancedBelow large tree → IfOk result (λ t. IsBalancedBelow large t) }
    // Each point adds a level and a node at most.
    ensures low { IfOk result (λ t. levels t ≤ levels tree + length (numbers_put ops.now)) }
    ensures few { IfOk result (λ t. nodes t ≤ nodes tree + length (numbers_put ops.now)) }
{
    replayed_by::<Brand>(alloc, tree, large, ops, Blank::new(1))
}

fn replayed_by<L: Ledger>(
    alloc: Global,
    tree: Tree,
    large: u32,
    ops: &[Op],
    blank: Blank,
) -> Result<Tree, NoMemory>
    requires blank { IsBlankOf L.name L.parts blank }
    requires fit { Fit (contents tree) ops.now }
    ensures { IfOk result (λ t. IsPerformed large tree ops.now t) }
{
    let mut steps: Steps<L> = Steps::new(blank);
    let mut scratch = Scratch::new(alloc);
    let mut tree = tree;
    let mut rest = ops;
    while !rest.is_empty() {
        let count = most_at_once(&tree, large, rest);
        let (piece, more) = rest.split_at(count);
        tree = done(alloc, tree, large, piece, &mut scratch, &mut steps)?;
        rest = more;
    }
    Ok(tree)
}

fn done<L: Ledger>(
    alloc: Global,
    tree: Tree,
    large: u32,
    piece: &[Op],
    scratch: &mut Scratch,
    steps: &mut Steps<L>,
) -> Result<Tree, NoMemory>
    requires fit { Fit (contents tree) piece.now }
    requires run { 1 < length piece.now → IsRun large piece.now tree }
    ensures { IfOk result (λ t. IsPerformed large tree piece.now t) }
{
    let Some((op, others)) = piece.split_first() else {
        return Ok(tree);
    };
    if others.is_empty() {
        return performed(alloc, tree, large, op, steps);
    }
    put_run(alloc, tree, large, piece, scratch, steps)
}

fn performed<L: Ledger>(
    alloc: Global,
    tree: Tree,
    large: u32,
    op: &Op,
    steps: &mut Steps<L>,
) -> Result<Tree, NoMemory>
    requires fit { Fit (contents tree) (op.now ∷ []) }
    ensures contents { IfOk result (λ t. contents t ≡ perform (contents tree) op.now) }
    ensures numbers { IfOk result (λ t. AreAmong (numbers t) (numbers_put (op.now ∷ []) ++ numbers tree)) }
    ensures balance { IsBalancedBelow large tree → IfOk result (λ t. IsBalancedBelow large t) }
    ensures low { IfOk result (λ t. levels t ≤ levels tree + length (numbers_put (op.now ∷ []))) }
    ensures few { IfOk result (λ t. nodes t ≤ nodes tree + length (numbers_put (op.now ∷ []))) }
{
    match op {
        Op::Mark { choice, tag } => marked(alloc, tree, large, choice, *tag, steps),
        Op::Put { number, point } => {
            let tree = with_room(alloc, tree, steps)?;
            put(alloc, tree, large, *number, *point, steps)
        }
    }
}
