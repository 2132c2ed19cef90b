//! Counting in a box.
ghost use Rattle.std.specs.Prelude.{◌≡◌, ◌≤◌, [], ◌∷◌};
ghost use Rattle.map_fold.specs.Answers.{count};
ghost use Rattle.kd_tree.specs.Contents.{contents};
ghost use Rattle.kd_search.specs.Pending.{items_of, nodes_of};

use crate::pending::Pending;
use kd_tree::Tree;
use map_items::Item;
use point_geom::Cuboid;

/// How many live points are in the cuboid. Subtrees within it are counted without being entered.
pub fn count_in(tree: &Tree, c: &Cuboid) -> u32
    ensures { result ≡ count (contents tree.now) c.now }
{
    count_under(&Pending::whole(tree), c)
}

fn count_under(part: &Pending<'_>, c: &Cuboid) -> u32
    ensures value { result ≡ count (items_of part.now) c.now }
    ensures few { result ≤ nodes_of part.now }
{
    let Some(extent) = part.extent() else {
        return 0;
    };
    if !c.meets(&extent) {
        return 0;
    }
    if c.covers(&extent) {
        return part.live();
    }
    let Some(top) = part.top() else {
        return 0;
    };
    own(&top.item, c) + count_under(&top.left, c) + count_under(&top.right, c)
}

fn own(item: &Item, c: &Cuboid) -> u32
    ensures value { result ≡ count (item.now ∷ []) c.now }
    ensures few { result ≤ 1 }
{
    if item.is_live_in(c) { 1 } else { 0 }
}
