//! Nothing here knows what is logged, or the bounds of a tree.
ghost use Rattle.std.specs.Prelude.{ℕ, IfOk};
ghost use Rattle.kd_tree.specs.Apart.{AreAllApart};
ghost use Rattle.kd_update.specs.{Scan.{IsPiece}, Crossing.{IsCrossed, IsWholeGrown}};
ghost use Rattle.kd_mark.specs.{Several.{AreLargeAt}, Ways.{paths_of}};

use crate::scans::one_pass::{put_at_once, put_first};
use crate::scans::part_items::moved_left;
use kd_mark::{Watched, Ways, joined};
use kd_tree::{OpenNode, Scratch, Side, Steps, Tree};
use map_items::{Item, NoMemory};
use point_geom::Axis;
use std::alloc::Global;
use std::sync::ledger::Ledger;

// `put_at_once`, with nothing rebuilt above the ends of the ways, at them or below them.
pub(crate) fn put_beside<L: Ledger>(
    alloc: Global,
    tree: Tree,
    large: u32,
    items: &mut [Item],
    axis: Axis,
    ways: &Watched<'_>,
    scratch: &mut Scratch,
    steps: &mut Steps<L>,
) -> Result<Tree, NoMemory>
    requires piece { IsPiece large tree items.old }
    requires there { AreLargeAt large (paths_of ways.now) tree }
    requires apart { AreAllApart (paths_of ways.now) }
    ensures { IfOk result (λ t. IsCrossed large (paths_of ways.now) tree items.old t) }
{
    let _size = tree.size();
    if ways.is_empty() {
        return put_at_once(alloc, tree, large, items, axis, scratch, steps);
    }
    if ways.is_here() {
        return put_within(alloc, tree, items, axis, scratch, steps);
    }
    if items.is_empty() {
        return Ok(tree);
    }
    let Some(node) = tree.take_apart(alloc, steps)? else {
        return Ok(Tree::empty());
    };
    let count = moved_left(items, node.axis, &node.item.point);
    let next = node.axis.next();
    let (lefts, rights) = items.split_at_mut(count);
    let on_left = ways.onward(Side::Left);
    let left = put_beside(
        alloc, node.left, large, lefts, next, &on_left, scratch, steps,
    )?;
    let on_right = ways.onward(Side::Right);
    let right = put_beside(
        alloc, node.right, large, rights, next, &on_right, scratch, steps,
    )?;
    let node = OpenNode {
        left,
        right,
        block: node.block.or_of(scratch),
        ..node
    };
    joined(alloc, node, steps)
}

// No node is rebuilt: only where there is none are items built by medians.
fn put_within<L: Ledger>(
    alloc: Global,
    tree: Tree,
    items: &mut [Item],
    axis: Axis,
    scratch: &mut Scratch,
    steps: &mut Steps<L>,
) -> Result<Tree, NoMemory>
    requires { (large : ℕ) × IsPiece large tree items.old }
    ensures { IfOk result (λ t. IsWholeGrown tree items.old t) }
{
    let _size = tree.size();
    if items.is_empty() {
        return Ok(tree);
    }
    let Some(node) = tree.take_apart(alloc, steps)? else {
        return put_first(alloc, items, axis, scratch, steps);
    };
    let count = moved_left(items, node.axis, &node.item.point);
    let next = node.axis.next();
    let (lefts, rights) = items.split_at_mut(count);
    let node = OpenNode {
        left: put_within(alloc, node.left, lefts, next, scratch, steps)?,
        right: put_within(alloc, node.right, rights, next, scratch, steps)?,
        block: node.block.or_of(scratch),
        ..node
    };
    joined(alloc, node, steps)
}
