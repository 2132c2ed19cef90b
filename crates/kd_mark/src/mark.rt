//! Actions on chosen items. A subtree that the choice covers is relabelled at its top, and one that it misses is left
//! alone.
ghost use Rattle.std.specs.Prelude.{◌≡◌, ◌+◌, ◌*◌, ◌≤◌, IfOk};
ghost use Rattle.map_items.specs.Contents.{chosen_by, mark};
ghost use Rattle.kd_tree.specs.{Shape.{numbers}, Contents.{contents}};
ghost use Rattle.kd_mark.specs.{Refresh.{AreAmong, IsRefresh}, Update.{IsBalancedBelow}, Made.{entered_mark, made_mark}};
ghost use Rattle.kd_mark.specs.{Mark.{RebuildsNoneEntered, marked_shape}, Several.{AreLargeAt, IsUpdatedClear}};

use crate::reach::{covers, meets, reach_of};
use crate::rebuild::joined_and_rebuilt_if_due;
use crate::ways::{Unwatched, Ways, spared_from};
use kd_tree::{OpenNode, Side, Steps, Tree};
use map_items::{Choice, NoMemory, Tag};
use std::alloc::Global;
use std::sync::ledger::Ledger;

/// The tree after this action on the chosen items. On `NoMemory` the tree is dropped.
///
/// A node is entered where its parent is, and the choice neither covers nor misses its subtree. Only entered nodes and
/// their children are made. On the way out an entered node of 10 to `large - 1` nodes is rebuilt where it breaches a
/// criterion.
pub fn marked<L: Ledger>(
    alloc: Global,
    tree: Tree,
    large: u32,
    choice: &Choice,
    tag: Tag,
    steps: &mut Steps<L>,
) -> Result<Tree, NoMemory>
    ensures contents { IfOk result (λ t. contents t ≡ mark (contents tree) (chosen_by choice.now) tag) }
    ensures numbers { IfOk result (λ t. AreAmong (numbers t) (numbers tree)) }
    ensures balance { IsBalancedBelow large tree → IfOk result (λ t. IsBalancedBelow large t) }
    // The unrebuilt result, with some subtrees rebuilt.
    ensures refresh { IfOk result (λ t. IsRefresh (marked_shape choice.now tag tree) t) }
    ensures unrebuilt { RebuildsNoneEntered large choice.now (marked_shape choice.now tag tree)
        → IfOk result (λ t. t ≡ marked_shape choice.now tag tree) }
    // On an error too.
    ensures nodes_made { RebuildsNoneEntered large choice.now (marked_shape choice.now tag tree)
        → steps.new ≤ steps.old + 5 * entered_mark choice.now tree + 1 }
{
    let _size = tree.size();
    marked_within(alloc, tree, large, choice, tag, &Unwatched, steps)
}

/// `marked` by shape, where nothing is rebuilt above the ends of the ways, at them or below.
pub fn marked_within<L: Ledger, W: Ways>(
    alloc: Global,
    tree: Tree,
    large: u32,
    choice: &Choice,
    tag: Tag,
    ways: &W,
    steps: &mut Steps<L>,
) -> Result<Tree, NoMemory>
    requires { AreLargeAt large (W.paths ways.now) tree }
    ensures updated { let plain = marked_shape choice.now tag tree in
        IfOk result (λ t. IsUpdatedClear large (W.paths ways.now) tree plain (RebuildsNoneEntered large choice.now plain) t) }
    ensures nodes_made { RebuildsNoneEntered large choice.now (marked_shape choice.now tag tree)
        → steps.new ≤ steps.old + made_mark choice.now tree }
{
    let _size = tree.size();
    let Some(reach) = reach_of(&tree) else {
        return Ok(tree);
    };
    if !meets(choice, &reach) {
        return Ok(tree);
    }
    if covers(choice, &reach) {
        return tree.tagged(alloc, tag, steps);
    }
    let Some(node) = tree.take_apart(alloc, steps)? else {
        return Ok(Tree::empty());
    };
    let large = spared_from(ways, large);
    let item = node.item.marked(choice, tag);
    let lefts = ways.onward(Side::Left);
    let left = marked_within(alloc, node.left, large, choice, tag, &lefts, steps)?;
    let rights = ways.onward(Side::Right);
    let right = marked_within(alloc, node.right, large, choice, tag, &rights, steps)?;
    let node = OpenNode {
        item,
        left,
        right,
        ..node
    };
    joined_and_rebuilt_if_due(alloc, node, large, steps)
}
