//! Nothing here knows what is logged of watched subtrees.
ghost use Rattle.std.specs.Prelude.{◌≡◌, ◌+◌, ◌*◌, ◌<◌, ◌≤◌, ◌∷◌, IfOk};
ghost use Rattle.node_labels.specs.Labels.{keep_tag};
ghost use Rattle.map_items.specs.Contents.{live_at, put};
ghost use Rattle.kd_tree.specs.{Shape.{levels, nodes, numbers}, Walk.{times}, Contents.{contents}};
ghost use Rattle.kd_mark.specs.{Refresh.{AreAmong, IsRefresh}, Update.{IsBalancedBelow}, Several.{AreLargeAt, IsUpdatedClear}};
ghost use Rattle.kd_update.specs.{Made.{entered_put}, Put.{RebuildsNoneOnRoute, goes_left, leaf_of, put_from, put_shape, side_of}};

use crate::points::sides::by_side;
use kd_mark::{Unwatched, Ways, joined_and_rebuilt_if_due, spared_from};
use kd_tree::{Block, MAX_LEVELS, MAX_NODES, OpenNode, Side, Steps, Tree};
use map_items::{Item, NoMemory};
use point_geom::{Axis, Point};
use std::alloc::Global;
use std::sync::ledger::Ledger;

/// The tree with this point under this number, live.
///
/// The point goes left where its coordinate on a node's axis is smaller than the node's, and else right, to be a leaf
/// with the axis after its parent's, or X in the empty tree. On the way out each node of the route with at least 10 and
/// fewer than `large` nodes is rebuilt where it breaches a criterion; which, no clause says. On `NoMemory` the tree is
/// dropped.
pub fn put<L: Ledger>(
    alloc: Global,
    tree: Tree,
    large: u32,
    number: u32,
    point: Point,
    steps: &mut Steps<L>,
) -> Result<Tree, NoMemory>
    requires low { levels tree < MAX_LEVELS }
    requires few { nodes tree < MAX_NODES }
    requires new { times number keep_tag tree ≡ 0 }
    ensures contents { IfOk result (λ t. contents t ≡ put (contents tree) number point) }
    ensures numbers { IfOk result (λ t. AreAmong (numbers t) (number ∷ numbers tree)) }
    ensures balance { IsBalancedBelow large tree → IfOk result (λ t. IsBalancedBelow large t) }
    ensures refresh { IfOk result (λ t. IsRefresh (put_shape number point tree) t) }
    ensures unrebuilt { RebuildsNoneOnRoute large point (put_shape number point tree)
        → IfOk result (λ t. t ≡ put_shape number point tree) }
    // On errors too.
    ensures nodes_made { RebuildsNoneOnRoute large point (put_shape number point tree)
        → steps.new ≤ steps.old + 5 * entered_put point tree + 1 }
{
    let _size = tree.size();
    let item = Item::live(number, point);
    let block = Block::none();
    put_below(alloc, tree, large, item, Axis::X, &Unwatched, block, steps)
}

// `put` by shape, with nothing rebuilt above the ends of the ways, at them or below them. The axis is that of a new
// leaf in the empty tree.
pub(crate) fn put_below<L: Ledger, W: Ways>(
    alloc: Global,
    tree: Tree,
    large: u32,
    item: Item,
    axis: Axis,
    ways: &W,
    block: Block,
    steps: &mut Steps<L>,
) -> Result<Tree, NoMemory>
    requires live { item ≡ live_at item.number item.point }
    requires low { levels tree < MAX_LEVELS }
    requires few { nodes tree < MAX_NODES }
    requires new { times item.number keep_tag tree ≡ 0 }
    requires there { AreLargeAt large (W.paths ways.now) tree }
    ensures updated { let plain = put_from item.number item.point axis tree in
        IfOk result (λ t. IsUpdatedClear large (W.paths ways.now) tree plain (RebuildsNoneOnRoute large item.point plain) t) }
    ensures nodes_made { RebuildsNoneOnRoute large item.point (put_from item.number item.point axis tree)
        → steps.new ≤ steps.old + (3 * entered_put item.point tree + 1) }
{
    let _size = tree.size();
    let Some(node) = tree.take_apart(alloc, steps)? else {
        return leaf(alloc, item, axis, block, steps);
    };
    let large = spared_from(ways, large);
    let next = node.axis.next();
    let side = side_of(&item.point, node.axis, &node.item.point);
    let below = ways.onward(side);
    let (near, far) = by_side(side, node.left, node.right);
    let near = put_below(alloc, near, large, item, next, &below, block, steps)?;
    let (left, right) = by_side(side, near, far);
    let node = OpenNode {
        left,
        right,
        ..node
    };
    joined_and_rebuilt_if_due(alloc, node, large, steps)
}

pub(crate) fn leaf<L: Ledger>(
    alloc: Global,
    item: Item,
    axis: Axis,
    block: Block,
    steps: &mut Steps<L>,
) -> Result<Tree, NoMemory>
    ensures shape { IfOk result (λ t. t ≡ leaf_of item axis) }
    ensures nodes_made { steps.new ≤ steps.old + 1 }
{
    let node = OpenNode {
        item,
        axis,
        left: Tree::empty(),
        right: Tree::empty(),
        block,
    };
    Tree::put_together(alloc, node, steps)
}

pub(crate) fn goes_left(point: &Point, axis: Axis, other: &Point) -> bool
    ensures { result ≡ goes_left axis point.now other.now }
{
    point.on(axis) < other.on(axis)
}

#[inline]
pub(crate) fn side_of(point: &Point, axis: Axis, other: &Point) -> Side
    ensures { result ≡ side_of axis point.now other.now }
{
    if goes_left(point, axis, other) {
        Side::Left
    } else {
        Side::Right
    }
}
