//! Many boxes thinned in one pass. Nothing here knows what comes into them, and nothing is watched.
ghost use Rattle.std.specs.Prelude.{◌≡◌, ◌≤◌, true, false, length, take, drop, All, IfOk, IsPermutation};
ghost use Rattle.std.specs.List.{list_any};
ghost use Rattle.point_geom.specs.{Boxes.{holds}, Extents.{covers, meets}};
ghost use Rattle.node_labels.specs.Labels.{thin_tag};
ghost use Rattle.map_items.specs.Contents.{marked_item};
ghost use Rattle.kd_mark.specs.Update.{IsBalancedBelow};
ghost use Rattle.map_update.specs.Clearing.{IsCleared, in_some};

use kd_mark::joined_and_rebuilt_if_due;
use kd_tree::{OpenNode, Steps, Tree};
use map_items::{Item, NoMemory, Tag};
use point_geom::{Cuboid, Extent, Point};
use std::alloc::Global;
use std::sync::ledger::Ledger;

/// The tree after what is live in any of the cuboids was dropped, which moves them about. Each node that one of them meets
/// is made anew once, however many do; one that they all miss isn't entered. On `NoMemory` the tree is dropped.
pub(crate) fn cleared_at_once<L: Ledger>(
    alloc: Global,
    tree: Tree,
    large: u32,
    cuboids: &mut [Cuboid],
    steps: &mut Steps<L>,
) -> Result<Tree, NoMemory>
    ensures cleared { IfOk result (IsCleared cuboids.old tree) }
    ensures balance { IfOk result (λ t. IsBalancedBelow large tree → IsBalancedBelow large t) }
    ensures moved { IsPermutation cuboids.old cuboids.new }
{
    let _size = tree.size();
    let Some(extent) = tree.extent() else {
        return Ok(tree);
    };
    let count = moved_front(cuboids, &extent);
    let (met, _missed) = cuboids.split_at_mut(count);
    if met.is_empty() {
        return Ok(tree);
    }
    if is_covered(&extent, met) {
        return tree.tagged(alloc, Tag::THIN, steps);
    }
    let Some(node) = tree.take_apart(alloc, steps)? else {
        return Ok(Tree::empty());
    };
    let item = thinned(node.item, met);
    let left = cleared_at_once(alloc, node.left, large, met, steps)?;
    let right = cleared_at_once(alloc, node.right, large, met, steps)?;
    let node = OpenNode {
        item,
        left,
        right,
        ..node
    };
    joined_and_rebuilt_if_due(alloc, node, large, steps)
}

// One of them covers it.
fn is_covered(extent: &Extent, cuboids: &[Cuboid]) -> bool
    ensures { result ≡ list_any (λ c. covers c extent.now) cuboids.now }
{
    cuboids.iter().any(|cuboid| cuboid.covers(extent))
}

// Dropped where it is live in one of them.
fn thinned(item: Item, cuboids: &[Cuboid]) -> Item
    ensures { result ≡ marked_item (in_some cuboids.now) thin_tag item }
{
    if is_held(&item.point, cuboids) {
        item.relabelled(Tag::THIN)
    } else {
        item
    }
}

// One of them holds it.
fn is_held(point: &Point, cuboids: &[Cuboid]) -> bool
    ensures { result ≡ list_any (λ c. holds c point.now) cuboids.now }
{
    cuboids.iter().any(|cuboid| cuboid.holds(point))
}

// Moves the cuboids that meet the extent to the front, and returns how many.
fn moved_front(cuboids: &mut [Cuboid], extent: &Extent) -> usize
    ensures moved { IsPermutation cuboids.old cuboids.new }
    ensures count { result ≤ length cuboids.new }
    ensures met { All (λ c. meets c extent.now ≡ true) (take result cuboids.new) }
    ensures missed { All (λ c. meets c extent.now ≡ false) (drop result cuboids.new) }
{
    let mut count = 0;
    for i in 0..cuboids.len() {
        if cuboids[i].meets(extent) {
            cuboids.swap(count, i);
            count += 1;
        }
    }
    count
}
