ghost use Rattle.std.specs.Prelude.{◌≡◌, ◌<◌, ◌≤◌, take, length, IfOk};
ghost use Rattle.map_items.specs.Ops.{Fit};
ghost use Rattle.kd_tree.specs.Contents.{contents};
ghost use Rattle.kd_update.specs.Replay.{ArePuts, IsPerformed, IsRun, is_put, items_put};

use crate::{MAX_PASS_LEVELS, PASS_FROM, put_at_once};
use kd_tree::{MAX_NODES, Scratch, Steps, Tree};
use map_items::{Item, NoMemory, Op};
use point_geom::Axis;
use std::alloc::Global;
use std::sync::ledger::Ledger;

// A run, as far as one pass may take it, or one operation alone.
pub(crate) fn most_at_once(tree: &Tree, large: u32, ops: &[Op]) -> usize
    requires { 1 ≤ length ops.now }
    ensures some { 1 ≤ result }
    ensures within { result ≤ length ops.now }
    ensures run { 1 < result → IsRun large (take result ops.now) tree.now }
{
    let size = tree.size();
    if tree.levels() > MAX_PASS_LEVELS || size >= MAX_NODES {
        return 1;
    }
    let most = (large.clamp(2, MAX_NODES) - 1).min(MAX_NODES - size) as usize;
    if most < PASS_FROM {
        return 1;
    }
    let count = run_length(ops, most);
    if count < PASS_FROM {
        return 1;
    }
    count
}

fn run_length(ops: &[Op], most: usize) -> usize
    ensures most { result ≤ most }
    ensures within { result ≤ length ops.now }
    ensures puts { ArePuts (take result ops.now) }
{
    let mut count = 0;
    for op in ops {
        if count == most || !is_put(op) {
            return count;
        }
        count += 1;
    }
    count
}

fn is_put(op: &Op) -> bool
    ensures { result ≡ is_put op.now }
{
    match op {
        Op::Mark { .. } => false,
        Op::Put { .. } => true,
    }
}

pub(crate) fn put_run<L: Ledger>(
    alloc: Global,
    tree: Tree,
    large: u32,
    run: &[Op],
    scratch: &mut Scratch,
    steps: &mut Steps<L>,
) -> Result<Tree, NoMemory>
    requires fit { Fit (contents tree) run.now }
    requires run { IsRun large run.now tree }
    ensures { IfOk result (λ t. IsPerformed large tree run.now t) }
{
    let _size = tree.size();
    let mut items = items_put(alloc, run)?;
    let items = items.as_mut_slice();
    put_at_once(alloc, tree, large, items, Axis::X, scratch, steps)
}

fn items_put(alloc: Global, ops: &[Op]) -> Result<Vec<Item>, NoMemory>
    ensures { IfOk result (λ v. v.items ≡ items_put ops.now) }
{
    let mut items = Vec::with_capacity(alloc, ops.len())?;
    for op in ops {
        if let Op::Put { number, point } = op {
            items.push(Item::live(*number, *point))?;
        }
    }
    Ok(items)
}
