//! Actions on chosen items while subtrees are watched: logged first, then done.
ghost use Rattle.std.specs.Prelude.{◌≡◌, ◌+◌, ◌*◌, ◌≤◌, IfOk, OnOk};
ghost use Rattle.map_items.specs.Contents.{chosen_by, mark};
ghost use Rattle.kd_tree.specs.{Shape.{numbers}, Contents.{contents}};
ghost use Rattle.kd_mark.specs.{Refresh.{AreAmong, IsRefresh}, Made.{entered_mark}, Mark.{RebuildsNoneEntered, marked_shape}};
ghost use Rattle.kd_mark.specs.{Several.{AreLargeAt, AreWatched, IsBalancedClear}, Watch.{IsWatched, logged_mark}};
ghost use Rattle.kd_mark.specs.Watches.{AreExtended, AreFewMore, HaveRoom, paths_in, with_marks};

use crate::log_mark::log_each_mark;
use crate::mark::{marked, marked_within};
use crate::watches::Watches;
use crate::ways::Watched;
use kd_tree::{Steps, Tree};
use map_items::{Choice, NoMemory, Tag};
use std::alloc::Global;
use std::sync::ledger::Ledger;

/// `marked`, but no node above a watched subtree, at its top or in it is rebuilt, and what the subtree meets is put at
/// the end of its log. On `NoMemory` the tree is dropped, and logs may have grown.
pub fn marked_watched<L: Ledger>(
    alloc: Global,
    tree: Tree,
    large: u32,
    choice: &Choice,
    tag: Tag,
    watches: &mut Watches,
    steps: &mut Steps<L>,
) -> Result<Tree, NoMemory>
    requires there { AreLargeAt large (paths_in watches.old) tree }
    requires room { HaveRoom watches.old }
    ensures contents { IfOk result (λ t. contents t ≡ mark (contents tree) (chosen_by choice.now) tag) }
    ensures numbers { IfOk result (λ t. AreAmong (numbers t) (numbers tree)) }
    // Outside the watched subtrees.
    ensures balance { IsBalancedClear large (paths_in watches.old) tree
        → IfOk result (λ t. IsBalancedClear large (paths_in watches.old) t) }
    ensures refresh { IfOk result (λ t. IsRefresh (marked_shape choice.now tag tree) t) }
    ensures there { IfOk result (λ t. AreLargeAt large (paths_in watches.old) t) }
    // On an error too.
    ensures begins { AreExtended watches.old watches.new }
    ensures few { AreFewMore watches.old watches.new }
    ensures logged { OnOk result (watches.new ≡ with_marks choice.now tag tree watches.old) }
    // The logged operations make the new own contents of the old ones.
    ensures watched { IfOk result (λ t. AreWatched (λ p. IsWatched p tree t (logged_mark choice.now tag p tree)) (paths_in watches.old)) }
    ensures unrebuilt { RebuildsNoneEntered large choice.now (marked_shape choice.now tag tree)
        → IfOk result (λ t. t ≡ marked_shape choice.now tag tree) }
    // On an error too.
    ensures nodes_made { RebuildsNoneEntered large choice.now (marked_shape choice.now tag tree)
        → steps.new ≤ steps.old + 5 * entered_mark choice.now tree + 1 }
{
    if watches.is_empty() {
        return marked(alloc, tree, large, choice, tag, steps);
    }
    let _size = tree.size();
    log_marks(&tree, watches, choice, tag)?;
    let ways = Watched::of(watches.as_slice());
    marked_within(alloc, tree, large, choice, tag, &ways, steps)
}

// By itself: a caller's proof then has the watches' list in sight, and no borrow of it.
fn log_marks(tree: &Tree, watches: &mut Watches, choice: &Choice, tag: Tag) -> Result<(), NoMemory>
    requires { HaveRoom watches.old }
    ensures logged { OnOk result (watches.new ≡ with_marks choice.now tag tree.now watches.old) }
    ensures begins { AreExtended watches.old watches.new }
    ensures few { AreFewMore watches.old watches.new }
{
    log_each_mark(tree, watches.items.as_mut_slice(), choice, tag)
}
