//! Lists and trees, compared without memory.
ghost use Rattle.std.specs.Prelude.{◌≡◌, ◌∷◌, [], ◌↔◌, true};
ghost use Rattle.map_items.specs.Contents.{AreContents, kept, Member};
ghost use Rattle.kd_tree.specs.{Contents.{contents}, Walk.{walk}};
ghost use Rattle.rebuild_parts.specs.DetachedItems.{AreAllFrom};

use kd_tree::Tree;
use map_items::{Item, Label, MAX_POINTS, Tag};

pub(crate) fn are_same(items: &[Item], others: &[Item]) -> bool
    ensures { result ≡ true ↔ (items.now ≡ others.now) }
{
    items == others
}

// Each item of the tree is looked for in the list.
pub(crate) fn holds(tree: &Tree, items: &[Item]) -> bool
    requires { AreContents 0 MAX_POINTS items.now }
    ensures { result ≡ true ↔ (contents tree.now ≡ items.now) }
{
    let counts = tree.counts();
    let count = counts.live + counts.suspended;
    if count as usize != items.len() {
        return false;
    }
    are_among(tree, Tag::KEEP, items)
}

fn are_among(tree: &Tree, pending: Tag, items: &[Item]) -> bool
    requires { AreContents 0 MAX_POINTS items.now }
    ensures { result ≡ true ↔ AreAllFrom (walk pending tree.now) items.now }
{
    let Some(top) = tree.top() else {
        return true;
    };
    let below = top.pending.then(pending);
    if !is_among(&top.item.relabelled(pending), items) {
        return false;
    }
    if !are_among(top.left, below, items) {
        return false;
    }
    are_among(top.right, below, items)
}

fn is_among(item: &Item, items: &[Item]) -> bool
    requires { AreContents 0 MAX_POINTS items.now }
    ensures { result ≡ true ↔ AreAllFrom (kept (item.now ∷ [])) items.now }
{
    if item.label == Label::Dropped {
        return true;
    }
    is_one(item, items)
}

fn is_one(item: &Item, items: &[Item]) -> bool
    requires { AreContents 0 MAX_POINTS items.now }
    ensures { result ≡ true ↔ Member item.now items.now }
{
    match items.binary_search_by_key(&item.number, |i: &Item| i.number) {
        Err(_) => false,
        Ok(place) => items[place] == *item,
    }
}
