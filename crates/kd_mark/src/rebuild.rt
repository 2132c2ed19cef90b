//! Rebuilding by medians.
ghost use Rattle.std.specs.Prelude.{◌≡◌, ◌+◌, ◌≤◌, IfOk, length};
ghost use Rattle.node_labels.specs.Labels.{keep_tag};
ghost use Rattle.kd_tree.specs.{Shape.{levels, nodes, numbers}, Sound.{IsSoundFork}, Contents.{contents}, Criteria.{AllMeetCriteria}, Parts.{fork_of, joined}};
ghost use Rattle.kd_mark.specs.Refresh.{AreAmong, IsRefresh, IsNotDue, RefreshesIfDue};

use kd_tree::{OpenNode, Scratch, Steps, Tree};
use map_items::NoMemory;
use std::alloc::Global;
use std::sync::ledger::Ledger;

/// Smaller subtrees are never rebuilt for themselves.
pub const LEAST: u32 = 10;

/// With this for `large` none is rebuilt, as no subtree is smaller.
pub const NEVER: u32 = 0;

/// The remaining items, rebuilt by medians in O(n log n), as `Tree::rebuilt_with` does it with a new scratch. On
/// `NoMemory` the tree is dropped.
pub fn rebuilt<L: Ledger>(alloc: Global, tree: Tree, steps: &mut Steps<L>) -> Result<Tree, NoMemory>
    ensures contents { IfOk result (λ t. contents t ≡ contents tree) }
    ensures numbers { IfOk result (λ t. AreAmong (numbers t) (numbers tree)) }
    ensures refresh { IfOk result (λ t. IsRefresh tree t) }
    ensures criteria { IfOk result (λ t. AllMeetCriteria 10 t) }
    ensures nodes { IfOk result (λ t. nodes t ≡ length (contents tree)) }
    ensures levels { IfOk result (λ t. levels t ≤ 23) }
    // On an error too.
    ensures nodes_made { steps.new ≤ steps.old + length (contents tree) }
{
    let _size = tree.size();
    tree.rebuilt_with(alloc, &[], &mut Scratch::new(alloc), steps)
}

/// `joined`, then `rebuilt_if_due`.
#[inline]
pub fn joined_and_rebuilt_if_due<L: Ledger>(
    alloc: Global,
    node: OpenNode,
    large: u32,
    steps: &mut Steps<L>,
) -> Result<Tree, NoMemory>
    requires { IsSoundFork (record { item = node.item; axis = node.axis; pending = keep_tag })
        node.left node.right }
    ensures due { IfOk result (λ t. RefreshesIfDue large (joined (fork_of node)) t) }
    ensures nodes_made { IsNotDue large (joined (fork_of node)) → steps.new ≤ steps.old + 1 }
{
    let tree = joined(alloc, node, steps)?;
    rebuilt_if_due(alloc, tree, large, steps)
}

/// The joined parts, without rebuilding.
#[inline]
pub fn joined<L: Ledger>(
    alloc: Global,
    node: OpenNode,
    steps: &mut Steps<L>,
) -> Result<Tree, NoMemory>
    requires { IsSoundFork (record { item = node.item; axis = node.axis; pending = keep_tag })
        node.left node.right }
    ensures shape { IfOk result (λ t. t ≡ joined (fork_of node)) }
    ensures nodes_made { steps.new ≤ steps.old + 1 }
{
    Tree::put_together(alloc, node, steps)
}

/// The tree, rebuilt where it has 10 to `large - 1` nodes and its top breaches a criterion.
#[inline]
pub fn rebuilt_if_due<L: Ledger>(
    alloc: Global,
    tree: Tree,
    large: u32,
    steps: &mut Steps<L>,
) -> Result<Tree, NoMemory>
    ensures due { IfOk result (λ t. RefreshesIfDue large tree t) }
    ensures no_nodes_made { IsNotDue large tree → steps.new ≡ steps.old }
{
    let size = tree.size();
    if size < LEAST || large <= size || !tree.is_breached() {
        return Ok(tree);
    }
    rebuilt(alloc, tree, steps)
}
