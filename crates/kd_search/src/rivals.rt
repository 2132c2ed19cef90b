//! The live points of a box.
ghost use Rattle.std.specs.Prelude.{◌≡◌, ◌+◌, ◌≤◌, ◌<◌, [], ◌∷◌, IfSome, IsNone, ◌↔◌};
ghost use Rattle.map_fold.specs.Answers.{count, inside_all};
ghost use Rattle.kd_tree.specs.{Contents.{contents}, Shape.{nodes}, Walk.{walk}};
ghost use Rattle.kd_search.specs.Best.{best_from, best_inside, IsBest};

use crate::pending::live_under;
use kd_tree::{MAX_NODES, Tree};
use map_items::{Item, Tag};
use point_geom::Cuboid;

/// What is live in a cuboid: the items of which thinning leaves one.
#[derive(Clone, Copy, Debug)]
pub struct Rivals {
    /// The item nearest to the cuboid's centre; of several the least by x, y, z, then by number.
    pub best: Option<Item>,
    pub count: u32,
}

/// Both in one search, which takes no memory. Subtrees outside the cuboid or without a live item are left out; those
/// within it are entered, unlike in `count_in`.
pub fn rivals_in(tree: &Tree, c: &Cuboid) -> Rivals
    ensures best { result.best ≡ best_inside (contents tree.now) c.now }
    ensures count { result.count ≡ count (contents tree.now) c.now }
    ensures none { IsNone result.best ↔ (inside_all (contents tree.now) c.now ≡ []) }
    ensures first { IfSome result.best (λ i. IsBest (contents tree.now) c.now i) }
{
    let _size = tree.size();
    let mut found = Rivals {
        best: None,
        count: 0,
    };
    add_from(tree, Tag::KEEP, c, &mut found);
    found
}

#[cycle(rivals)]
fn add_from(tree: &Tree, pending: Tag, c: &Cuboid, found: &mut Rivals)
    requires { found.old.count + nodes tree.now ≤ MAX_NODES }
    ensures best { found.new.best ≡ best_from c.now found.old.best (inside_all (walk pending tree.now) c.now) }
    ensures count { found.new.count ≡ found.old.count + count (walk pending tree.now) c.now }
    ensures few { found.new.count ≤ found.old.count + nodes tree.now }
{
    let Some(extent) = tree.extent() else {
        return;
    };
    if c.meets(&extent) {
        add_under(tree, pending, c, found);
    }
}

// Not part of `add_from`: the cuboid meets few trees, and this isn't set up for the others.
#[cycle(rivals)]
#[inline(never)]
fn add_under(tree: &Tree, pending: Tag, c: &Cuboid, found: &mut Rivals)
    requires { found.old.count + nodes tree.now ≤ MAX_NODES }
    ensures best { found.new.best ≡ best_from c.now found.old.best (inside_all (walk pending tree.now) c.now) }
    ensures count { found.new.count ≡ found.old.count + count (walk pending tree.now) c.now }
    ensures few { found.new.count ≤ found.old.count + nodes tree.now }
{
    if live_under(tree, pending) == 0 {
        return;
    }
    let Some(top) = tree.top() else {
        return;
    };
    let item = top.item.relabelled(pending);
    add(&item, c, found);
    let below = top.pending.then(pending);
    add_from(top.left, below, c, found);
    add_from(top.right, below, c, found);
}

fn add(item: &Item, c: &Cuboid, found: &mut Rivals)
    requires { found.old.count < MAX_NODES }
    ensures best { found.new.best ≡ best_from c.now found.old.best (inside_all (item.now ∷ []) c.now) }
    ensures count { found.new.count ≡ found.old.count + count (item.now ∷ []) c.now }
    ensures few { found.new.count ≤ found.old.count + 1 }
{
    if !item.is_live_in(c) {
        return;
    }
    found.count += 1;
    found.best = match found.best {
        None => Some(*item),
        Some(held) => {
            if item.comes_before(&held, c) {
                Some(*item)
            } else {
                Some(held)
            }
        }
    };
}
