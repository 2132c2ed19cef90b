//! Nothing here knows whether the bounds of a tree allow a pass.
ghost use Rattle.std.specs.Prelude.{◌+◌, ◌<◌, max, length, IfOk};
ghost use Rattle.kd_tree.specs.{Shape.{leaf, nodes}, Contents.{AreDistinct}, Criteria.{AllMeetCriteria}};
ghost use Rattle.kd_mark.specs.Update.{IsBalancedBelow};
ghost use Rattle.kd_update.specs.{Scan.{AreLive, IsGrown, IsPiece}, Crossing.{IsWholeGrown}};

use crate::points::insert::leaf;
use crate::scans::part_items::parted;
use kd_mark::joined_and_rebuilt_if_due;
use kd_tree::{MAX_NODES, OpenNode, Scratch, Steps, Tree};
use map_items::{Item, NoMemory};
use point_geom::Axis;
use std::alloc::Global;
use std::sync::ledger::Ledger;

/// The tree with the items put in one pass, which moves them about. The axis is that of a new leaf in the empty tree.
/// Each node on their routes is made anew once, in the memory of the old one or of the scratch while there is any; a
/// subtree that is due is rebuilt with its points, at the topmost node. n items take time in the order of n times the
/// tree's levels, without what is rebuilt. On `NoMemory` the tree is dropped.
pub fn put_at_once<L: Ledger>(
    alloc: Global,
    tree: Tree,
    large: u32,
    items: &mut [Item],
    axis: Axis,
    scratch: &mut Scratch,
    steps: &mut Steps<L>,
) -> Result<Tree, NoMemory>
    requires { IsPiece large tree items.old }
    ensures grown { IfOk result (λ t. IsGrown tree items.old t) }
    ensures balance { IfOk result (λ t. IsBalancedBelow large tree → IsBalancedBelow large t) }
{
    let _size = tree.size();
    if items.is_empty() {
        return Ok(tree);
    }
    let Some(count) = parted(&tree, large, items) else {
        return put_here(alloc, tree, large, items, axis, scratch, steps);
    };
    let Some(node) = tree.take_apart(alloc, steps)? else {
        return Ok(Tree::empty());
    };
    let next = node.axis.next();
    let (lefts, rights) = items.split_at_mut(count);
    let left = put_at_once(alloc, node.left, large, lefts, next, scratch, steps)?;
    let right = put_at_once(alloc, node.right, large, rights, next, scratch, steps)?;
    let node = OpenNode {
        left,
        right,
        block: node.block.or_of(scratch),
        ..node
    };
    joined_and_rebuilt_if_due(alloc, node, large, steps)
}

// No item goes on to a child. No large subtree is built.
fn put_here<L: Ledger>(
    alloc: Global,
    tree: Tree,
    large: u32,
    items: &[Item],
    axis: Axis,
    scratch: &mut Scratch,
    steps: &mut Steps<L>,
) -> Result<Tree, NoMemory>
    requires piece { IsPiece large tree items.now }
    requires small { nodes tree + length items.now < max 2 large }
    ensures grown { IfOk result (λ t. IsGrown tree items.now t) }
    ensures balance { IfOk result (λ t. IsBalancedBelow large t) }
{
    if tree.size() == 0 {
        return put_first(alloc, items, axis, scratch, steps);
    }
    tree.rebuilt_with(alloc, items, scratch, steps)
}

// One item is a leaf; more are built by medians.
pub(crate) fn put_first<L: Ledger>(
    alloc: Global,
    items: &[Item],
    axis: Axis,
    scratch: &mut Scratch,
    steps: &mut Steps<L>,
) -> Result<Tree, NoMemory>
    requires live { AreLive items.now }
    requires distinct { AreDistinct items.now }
    requires short { length items.now < MAX_NODES }
    ensures grown { IfOk result (λ t. IsWholeGrown leaf items.now t) }
    ensures criteria { IfOk result (λ t. AllMeetCriteria 10 t) }
{
    if items.len() == 1 {
        let block = scratch.block();
        return leaf(alloc, items[0], axis, block, steps);
    }
    Tree::empty().rebuilt_with(alloc, items, scratch, steps)
}
