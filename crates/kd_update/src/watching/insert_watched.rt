ghost use Rattle.std.specs.Prelude.{◌≡◌, ◌+◌, ◌*◌, ◌<◌, ◌≤◌, ◌∷◌, IfOk, OnOk};
ghost use Rattle.node_labels.specs.Labels.{keep_tag};
ghost use Rattle.map_items.specs.Contents.{put};
ghost use Rattle.kd_tree.specs.{Shape.{levels, nodes, numbers}, Walk.{times}, Contents.{contents}};
ghost use Rattle.kd_mark.specs.{Refresh.{AreAmong, IsRefresh}, Several.{AreLargeAt, AreWatched, IsBalancedClear}, Watch.{IsWatched}};
ghost use Rattle.kd_mark.specs.Watches.{AreExtended, AreFewMore, HaveRoom, paths_in};
ghost use Rattle.kd_update.specs.{Made.{entered_put}, Put.{RebuildsNoneOnRoute, put_shape}, Watch.{logged_put}, Watches.{with_puts}};

use crate::points::insert::{put, put_below};
use crate::watching::log_put::log_puts;
use kd_mark::{Watched, Watches};
use kd_tree::{Block, MAX_LEVELS, MAX_NODES, Steps, Tree};
use map_items::{Item, NoMemory};
use point_geom::{Axis, Point};
use std::alloc::Global;
use std::sync::ledger::Ledger;

/// `put`, while the subtrees at the watches' paths are watched: no node above one, at its top or in it is rebuilt, and
/// what it meets is logged first. On `NoMemory` the tree is dropped, and logs may have grown.
pub fn put_watched<L: Ledger>(
    alloc: Global,
    tree: Tree,
    large: u32,
    number: u32,
    point: Point,
    watches: &mut Watches,
    steps: &mut Steps<L>,
) -> Result<Tree, NoMemory>
    requires low { levels tree < MAX_LEVELS }
    requires few { nodes tree < MAX_NODES }
    requires new { times number keep_tag tree ≡ 0 }
    requires there { AreLargeAt large (paths_in watches.old) tree }
    requires room { HaveRoom watches.old }
    ensures contents { IfOk result (λ t. contents t ≡ put (contents tree) number point) }
    ensures numbers { IfOk result (λ t. AreAmong (numbers t) (number ∷ numbers tree)) }
    // Outside the watched subtrees.
    ensures balance { IsBalancedClear large (paths_in watches.old) tree
        → IfOk result (λ t. IsBalancedClear large (paths_in watches.old) t) }
    ensures refresh { IfOk result (λ t. IsRefresh (put_shape number point tree) t) }
    ensures there { IfOk result (λ t. AreLargeAt large (paths_in watches.old) t) }
    // On errors too.
    ensures begins { AreExtended watches.old watches.new }
    ensures few { AreFewMore watches.old watches.new }
    ensures logged { OnOk result (watches.new ≡ with_puts number point tree watches.old) }
    ensures watched { IfOk result (λ t. AreWatched (λ p. IsWatched p tree t (logged_put number point p tree)) (paths_in watches.old)) }
    ensures unrebuilt { RebuildsNoneOnRoute large point (put_shape number point tree)
        → IfOk result (λ t. t ≡ put_shape number point tree) }
    // On errors too.
    ensures nodes_made { RebuildsNoneOnRoute large point (put_shape number point tree)
        → steps.new ≤ steps.old + 5 * entered_put point tree + 1 }
{
    if watches.is_empty() {
        return put(alloc, tree, large, number, point, steps);
    }
    let _size = tree.size();
    log_puts(&tree, watches, number, point)?;
    let ways = Watched::of(watches.as_slice());
    let item = Item::live(number, point);
    let block = Block::none();
    put_below(alloc, tree, large, item, Axis::X, &ways, block, steps)
}
