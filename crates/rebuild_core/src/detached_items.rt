//! Nothing here changes what contracts see of a state.
ghost use Rattle.std.specs.Prelude.{◌≡◌, None, Some, IfOk, IfSome, IsNone};
ghost use Rattle.kd_update.specs.Detached.{AreItemsOf, PartAt, part_in, part_of};

use crate::MapState;
use map_items::NoMemory;
use rebuild_parts::{DetachedItems, index_of, part_in, part_of};
use std::mem;

impl MapState {
    /// What the ticket's subtree held, in the same time for each.
    pub fn detached_items(&self, ticket: u64) -> Result<Option<DetachedItems>, NoMemory>
        ensures none { IfOk result (λ o. IsNone o → part_of ticket self.now.state.parts ≡ None) }
        ensures some { IfOk result (λ o. IfSome o (λ h. (p : PartAt) × (part_of ticket self.now.state.parts ≡ Some p) × (h ≡ p.items))) }
    {
        let Some(part) = part_of(self.parts.as_slice(), ticket) else {
            return Ok(None);
        };
        let detached_items = part.held.try_clone()?;
        Ok(Some(detached_items))
    }

    /// What the slot's subtree held. A caller that holds it over a locked step frees the subtree after the lock.
    pub fn detached_items_in(&self, slot: u8) -> Option<DetachedItems>
        ensures { IfSome result (λ h. (p : PartAt) × (part_in slot self.now.state.parts ≡ Some p) × (h ≡ p.items)) }
    {
        let part = part_in(self.parts.as_slice(), slot)?;
        part.held.try_clone().ok()
    }

    /// Keeps this list of what the ticket's subtree held, and returns the tree that was kept. Without such a subtree
    /// the list comes back. It takes no memory, and the same time for each.
    pub fn keep_list(&mut self, ticket: u64, detached_items: DetachedItems) -> DetachedItems
        requires known { AreItemsOf ticket detached_items self.old.state.parts }
        ensures same { self.new ≡ self.old }
    {
        let Some(place) = index_of(self.parts.as_slice(), ticket) else {
            return detached_items;
        };
        let part = &mut self.parts[place];
        mem::replace(&mut part.held, detached_items)
    }
}
