//! Where the points of a list go at the top of a tree.
ghost use Rattle.std.specs.Prelude.{◌≡◌, ◌+◌, ◌<◌, ◌≤◌, true, false, max, length, take, drop, All, IfSome, IsNone, IsPermutation};
ghost use Rattle.kd_tree.specs.Shape.{nodes};
ghost use Rattle.kd_update.specs.{Put.{goes_left}, Scan.{IsParted}};

use crate::points::insert::goes_left;
use kd_mark::LEAST;
use kd_tree::{MAX_NODES, Tree};
use map_items::Item;
use point_geom::{Axis, Point};

// Moves the items that go left of the top to the front, and returns how many. None where the tree is to be rebuilt with
// them: it has no node, or its top would breach a criterion.
pub(crate) fn parted(tree: &Tree, large: u32, items: &mut [Item]) -> Option<usize>
    requires few { nodes tree.now + length items.old ≤ MAX_NODES }
    requires small { length items.old < max 2 large }
    ensures moved { IsPermutation items.old items.new }
    ensures parted { IfSome result (λ n. IsParted tree.now n items.new) }
    // So no large subtree is built.
    ensures small { IsNone result → nodes tree.now + length items.old < max 2 large }
{
    let Some(top) = tree.top() else {
        return None;
    };
    let count = moved_left(items, top.axis, &top.item.point);
    let left = top.left.size() + count as u32;
    let right = top.right.size() + (items.len() - count) as u32;
    if is_due(tree, large, left, right) {
        return None;
    }
    Some(count)
}

// With as many dropped nodes as now.
fn is_due(tree: &Tree, large: u32, left: u32, right: u32) -> bool
    requires { left + right + 1 ≤ MAX_NODES }
    ensures { result ≡ true → left + right + 1 < large }
{
    let _size = tree.size();
    let size = left + right + 1;
    if size < LEAST || large <= size {
        return false;
    }
    let most = 3 * (left + right);
    most <= 5 * left || most <= 5 * right || size <= 2 * tree.counts().dropped
}

pub(crate) fn moved_left(items: &mut [Item], axis: Axis, point: &Point) -> usize
    ensures moved { IsPermutation items.old items.new }
    ensures count { result ≤ length items.new }
    ensures left { All (λ i. goes_left axis i.point point.now ≡ true) (take result items.new) }
    ensures right { All (λ i. goes_left axis i.point point.now ≡ false) (drop result items.new) }
{
    let mut count = 0;
    for i in 0..items.len() {
        if goes_left(&items[i].point, axis, point) {
            items.swap(count, i);
            count += 1;
        }
    }
    count
}
