//! What detached subtrees held, by marks: so a turn of the lock knows what an earlier one saw.
ghost use Rattle.std.specs.{Prelude.{◌≡◌, ◌<◌, ◌++◌, [], ◌∷◌, length, slice_set, vec_len, vec_capacity, IfSome, IsNone}, Option.{option_map}};
ghost use Rattle.published_map.specs.MarkedSubtrees.{MarkedSubtreeAt, marked_subtree_of, with_marked_subtree};

use shown_versions::{MapName, Mark};
use std::marker::Model;

/// What a detached subtree held. Contracts see the slot, the ticket and the items.
#[derive(Drop)]
pub struct MarkedSubtree<L: MapName> {
    slot: u8,
    ticket: u64,
    mark: Mark<L>,
}

impl<L: MapName> Model for MarkedSubtree<L> {
    ghost use Rattle.published_map.specs.MarkedSubtrees.{MarkedSubtreeAt};

    ghost Value = { MarkedSubtreeAt };

    ghost view = { λ h. record { slot = h.slot; ticket = h.ticket; items = h.mark.items } };
}

impl<L: MapName> MarkedSubtree<L> {
    pub fn new(slot: u8, ticket: u64, mark: Mark<L>) -> MarkedSubtree<L>
        ensures { result ≡ record { slot = slot; ticket = ticket; items = mark.items } }
    {
        MarkedSubtree { slot, ticket, mark }
    }

    pub fn mark(&self) -> &Mark<L>
        ensures { result.now.items ≡ self.now.items }
    {
        &self.mark
    }
}

pub fn marked_subtree_of<L: MapName>(
    marked: &[MarkedSubtree<L>],
    ticket: u64,
) -> Option<&MarkedSubtree<L>>
    ensures { option_map (λ h. h.now) result ≡ marked_subtree_of ticket marked.now }
{
    marked.iter().find(|subtree| ticket == subtree.ticket)
}

/// Replaces what is marked of this slot, so that there is no more than one of each.
pub fn keep_marked_subtree<L: MapName>(
    marked: &mut Vec<MarkedSubtree<L>>,
    subtree: MarkedSubtree<L>,
)
    requires { vec_len marked.old < vec_capacity marked.old }
    ensures { marked.new.items ≡ with_marked_subtree subtree marked.old.items }
{
    match index_of(marked.as_slice(), subtree.slot) {
        Some(place) => marked[place] = subtree,
        None => marked.push_reserved(subtree),
    }
}

// The index of what is marked of the slot.
fn index_of<L: MapName>(marked: &[MarkedSubtree<L>], slot: u8) -> Option<usize>
    ensures low { IfSome result (λ i. i < length marked.now) }
    ensures taken { IfSome result (λ i. (h : MarkedSubtreeAt) → h.slot ≡ slot → with_marked_subtree h marked.now ≡ slice_set marked.now i h) }
    ensures free { IsNone result → (h : MarkedSubtreeAt) → h.slot ≡ slot → with_marked_subtree h marked.now ≡ marked.now ++ h ∷ [] }
{
    let (first, rest) = marked.split_first()?;
    if slot == first.slot {
        return Some(0);
    }
    let place = index_of(rest, slot)?;
    Some(place + 1)
}
