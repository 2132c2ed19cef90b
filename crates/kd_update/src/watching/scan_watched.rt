ghost use Rattle.std.specs.Prelude.{◌≡◌, ◌+◌, ◌<◌, ◌≤◌, max, ◌++◌, length, IfOk, OnOk};
ghost use Rattle.kd_tree.specs.{Shape.{levels, nodes, numbers}, Contents.{contents}, Apart.{AreAllApart}};
ghost use Rattle.kd_mark.specs.{Refresh.{AreAmong}, Several.{AreLargeAt, AreWatched, IsBalancedClear}, Watch.{IsWatched}};
ghost use Rattle.kd_mark.specs.Watches.{AreExtended, AreMore, paths_in};
ghost use Rattle.kd_update.specs.{Scan.{MayJoin, numbers_in, put_each}, Crossing.{HaveRoomAtOnce, logged_scan, with_scan}};
ghost use Rattle.kd_update.specs.declared.limits.TheConstants.{MAX_PASS_LEVELS};

use crate::watching::log_scan::log_scans;
use crate::watching::put_beside::put_beside;
use kd_mark::{Watched, Watches};
use kd_tree::{MAX_NODES, Scratch, Steps, Tree};
use map_items::{Item, NoMemory};
use point_geom::Axis;
use std::alloc::Global;
use std::sync::ledger::Ledger;

/// A pass of `put_all`, while the subtrees at the watches' paths are watched: no node above one, at its top or in it is
/// rebuilt. Where items come to one, its log gets the pending action of the last node above it, and then these items in
/// the order of the list. On `NoMemory` the tree is dropped, and logs may have grown.
pub fn put_all_watched<L: Ledger>(
    alloc: Global,
    tree: Tree,
    large: u32,
    items: &[Item],
    watches: &mut Watches,
    scratch: &mut Scratch,
    steps: &mut Steps<L>,
) -> Result<Tree, NoMemory>
    requires fit { MayJoin (contents tree) items.now }
    requires small { length items.now < max 2 large }
    requires short { length items.now < MAX_NODES }
    requires low { levels tree ≤ MAX_PASS_LEVELS }
    requires few { nodes tree + length items.now ≤ MAX_NODES }
    requires there { AreLargeAt large (paths_in watches.old) tree }
    requires apart { AreAllApart (paths_in watches.old) }
    requires room { HaveRoomAtOnce (length items.now) watches.old }
    ensures contents { IfOk result (λ t. contents t ≡ put_each (contents tree) items.now) }
    ensures numbers { IfOk result (λ t. AreAmong (numbers t) (numbers_in items.now ++ numbers tree)) }
    ensures nodes { IfOk result (λ t. nodes t ≤ nodes tree + length items.now) }
    ensures levels { IfOk result (λ t. levels t ≤ levels tree + 22) }
    // Outside the watched subtrees.
    ensures balance { IsBalancedClear large (paths_in watches.old) tree
        → IfOk result (λ t. IsBalancedClear large (paths_in watches.old) t) }
    ensures there { IfOk result (λ t. AreLargeAt large (paths_in watches.old) t) }
    // On errors too.
    ensures begins { AreExtended watches.old watches.new }
    ensures few { AreMore (length items.now + 1) watches.old watches.new }
    ensures logged { OnOk result (watches.new ≡ with_scan items.now tree watches.old) }
    ensures watched { IfOk result (λ t. AreWatched (λ p. IsWatched p tree t (logged_scan p items.now tree)) (paths_in watches.old)) }
{
    let _size = tree.size();
    log_scans(alloc, &tree, watches, items)?;
    let ways = Watched::of(watches.as_slice());
    let mut items = Vec::from_slice(alloc, items)?;
    let items = items.as_mut_slice();
    put_beside(alloc, tree, large, items, Axis::X, &ways, scratch, steps)
}
