//! Nothing here knows which point is put.
ghost use Rattle.std.specs.Prelude.{◌≡◌, ◌+◌, ◌<◌, ◌≤◌, IfOk, length};
ghost use Rattle.kd_tree.specs.{Shape.{levels, nodes, numbers}, Contents.{contents}};
ghost use Rattle.kd_mark.specs.{Refresh.{AreAmong, IsRefresh}, Update.{KeepsBalance}};

use kd_mark::rebuilt;
use kd_tree::{MAX_LEVELS, MAX_NODES, Steps, Tree};
use map_items::NoMemory;
use std::alloc::Global;
use std::sync::ledger::Ledger;

/// The tree with room for one more point: rebuilt with its remaining items if it has 512 levels or 4,194,304 nodes. On
/// `NoMemory` it is dropped.
pub fn with_room<L: Ledger>(
    alloc: Global,
    tree: Tree,
    steps: &mut Steps<L>,
) -> Result<Tree, NoMemory>
    requires { length (contents tree) < MAX_NODES }
    ensures contents { IfOk result (λ t. contents t ≡ contents tree) }
    ensures numbers { IfOk result (λ t. AreAmong (numbers t) (numbers tree)) }
    ensures balance { IfOk result (λ t. KeepsBalance tree t) }
    ensures refresh { IfOk result (λ t. IsRefresh tree t) }
    ensures low { IfOk result (λ t. levels t < MAX_LEVELS) }
    ensures few { IfOk result (λ t. nodes t < MAX_NODES) }
    ensures unrebuilt { levels tree < MAX_LEVELS → nodes tree < MAX_NODES → IfOk result (λ t. t ≡ tree) }
    ensures no_nodes_made { levels tree < MAX_LEVELS → nodes tree < MAX_NODES → steps.new ≡ steps.old }
    // On errors too.
    ensures nodes_made { steps.new ≤ steps.old + length (contents tree) }
{
    if tree.levels() < MAX_LEVELS && tree.size() < MAX_NODES {
        return Ok(tree);
    }
    rebuilt(alloc, tree, steps)
}
