//! The walk that gathers what is sought, in no order of numbers.
ghost use Rattle.std.specs.Prelude.{◌≡◌, ◌&&◌, [], ◌∷◌, ◌++◌, OnOk, nat_le};
ghost use Rattle.map_items.specs.Contents.{is_above, kept};
ghost use Rattle.kd_tree.specs.Walk.{walk};
ghost use Rattle.item_lists.specs.Sought.{has, wanted};

use crate::sought::Sought;
use kd_tree::Tree;
use map_items::{Item, Label, NoMemory, Tag};

/// What is sought, numbered from `from` on and below the bound, where there is one.
#[derive(Clone, Copy)]
pub(crate) struct Filter<'a> {
    pub from: u32,
    pub bound: Option<u32>,
    pub sought: &'a Sought,
}

impl<'a> Filter<'a> {
    fn has(&self, item: &Item) -> bool
        ensures { result ≡ (is_above self.now.bound item.now.number && (has self.now.sought.now item.now && nat_le self.now.from item.now.number)) }
    {
        self.from <= item.number && self.is_below(item.number) && self.sought.has(item)
    }

    fn is_below(&self, number: u32) -> bool
        ensures { result ≡ is_above self.now.bound number }
    {
        match self.bound {
            None => true,
            Some(bound) => number < bound,
        }
    }
}

/// Appends what the filter lets through of a tree with this pending action: each node before its children.
pub(crate) fn gather(
    tree: &Tree,
    pending: Tag,
    filter: &Filter<'_>,
    items: &mut Vec<Item>,
) -> Result<(), NoMemory>
    ensures { OnOk result (items.new.items ≡ items.old.items ++ wanted filter.now.from filter.now.bound filter.now.sought.now (walk pending tree.now)) }
{
    let Some(numbers) = tree.numbers() else {
        return Ok(());
    };
    if numbers.greatest < filter.from {
        return Ok(());
    }
    if !filter.is_below(numbers.least) {
        return Ok(());
    }
    let Some(extent) = tree.extent() else {
        return Ok(());
    };
    if !filter.sought.meets(&extent) {
        return Ok(());
    }
    let Some(top) = tree.top() else {
        return Ok(());
    };
    push_wanted(top.item.relabelled(pending), filter, items)?;
    let below = top.pending.then(pending);
    gather(top.left, below, filter, items)?;
    gather(top.right, below, filter, items)
}

fn push_wanted(item: Item, filter: &Filter<'_>, items: &mut Vec<Item>) -> Result<(), NoMemory>
    ensures { OnOk result (items.new.items ≡ items.old.items ++ wanted filter.now.from filter.now.bound filter.now.sought.now (kept (item ∷ []))) }
{
    if item.label != Label::Dropped && filter.has(&item) {
        items.push(item)?;
    }
    Ok(())
}
