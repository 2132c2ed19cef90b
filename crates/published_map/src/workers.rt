//! The turns of the lock that workers take. None takes time by the number of points in a detached subtree.
ghost use Rattle.std.specs.Prelude.{◌≡◌, ◌≤◌, ◌↔◌, true, IfErr, IfOk, IfSome, IsNone, OnErr, OnOk};
ghost use Rattle.rebuild_parts.specs.Built.{CanBeDoneOn};
ghost use Rattle.rebuild_core.specs.{Detach.{IsDetachStep, IsLogAfter, IsLogFault, IsNoDetach}, Swap.{IsNear, IsSwapStep}};
ghost use Rattle.kd_update.specs.Detached.{AreItemsOf};
ghost use Rattle.published_map.specs.Late.{IsLateCause, IsLateThere};

use crate::locked::Locked;
use crate::marked_subtree::{MarkedSubtree, keep_marked_subtree, marked_subtree_of};
use map_items::{NoMemory, Ops};
use rebuild_core::SwapOrLate;
use rebuild_parts::{Built, DetachedItems, Late, LogAsk, Snapshot, Version};
use shown_versions::{MapName, Mark, Page, Published};
use std::alloc::Global;
use std::sync::Wait;

impl<L: MapName> Locked<L> {
    /// Detaches a subtree, and marks what it held. Nothing that queries see changes.
    pub fn detach(
        &mut self,
        alloc: Global,
        slot: u8,
    ) -> Result<Option<(Snapshot, Mark<L>)>, NoMemory>
        requires slot_from { 1 ≤ slot }
        requires slot_to { slot ≤ 4 }
        ensures none { IfOk result (λ o. IsNone o ↔ IsNoDetach slot self.old.state) }
        ensures detached { IfOk result (λ o. IfSome o (λ r. IsDetachStep slot self.old.state r.0 self.new.state)) }
        ensures stays { IfOk result (λ o. IsNone o → self.new.state ≡ self.old.state) }
        // On `NoMemory` too.
        ensures history { self.new.state.history ≡ self.old.state.history }
        ensures ticket { IfOk result (λ o. IfSome o (λ r. 1 ≤ r.0.ticket)) }
        ensures mark { IfOk result (λ o. IfSome o (λ r. r.1.items ≡ r.0.items)) }
    {
        let _history = self.state.history();
        self.marked.reserve(1)?;
        let Some(snapshot) = self.state.snapshot(alloc, slot)? else {
            return Ok(None);
        };
        let Some(mark) = Mark::of(&mut self.marks, &Page::of_subtree(&snapshot)) else {
            return Err(NoMemory);
        };
        let subtree = MarkedSubtree::new(slot, snapshot.ticket(), mark.share());
        keep_marked_subtree(&mut self.marked, subtree);
        Ok(Some((snapshot, mark)))
    }

    // Whether this is the mark of the ticket's subtree, which, if it is still detached, held the mark's items.
    fn is_known(&self, ticket: u64, mark: &Mark<L>) -> bool
        ensures { result ≡ true → AreItemsOf ticket mark.now.items self.now.state.parts }
    {
        match marked_subtree_of(self.marked.as_slice(), ticket) {
            None => false,
            Some(subtree) => subtree.mark().is_same(mark),
        }
    }

    /// Gives the ticket's subtree the list of what it held. Returns what is to be dropped: what it had before, or the list where
    /// nobody waits for it.
    pub fn keep_list(&mut self, ticket: u64, list: DetachedItems, mark: &Mark<L>) -> DetachedItems
        requires { list ≡ mark.now.items }
        ensures { self.new ≡ self.old }
    {
        if !self.is_known(ticket, mark) {
            return list;
        }
        self.state.keep_list(ticket, list)
    }

    /// `None` once the subtree isn't detached any more.
    pub fn held(&self, ticket: u64) -> Result<Option<(DetachedItems, Mark<L>)>, NoMemory>
        ensures { IfOk result (λ o. IfSome o (λ r. r.1.items ≡ r.0)) }
    {
        let Some(subtree) = marked_subtree_of(self.marked.as_slice(), ticket) else {
            return Ok(None);
        };
        let Some(detached_items) = self.state.detached_items(ticket)? else {
            return Ok(None);
        };
        Ok(Some((detached_items, subtree.mark().share())))
    }

    /// Swaps in a value at most `most` operations behind that was built of what the mark is of.
    pub fn swap<R: Wait>(
        &mut self,
        rt: &R,
        alloc: Global,
        built: Built,
        mark: &Mark<L>,
        most: u32,
    ) -> SwapOrLate
        requires of { mark.now.items ≡ built.items }
        ensures swapped { OnOk result (IsSwapStep built self.old.state self.new.state) }
        ensures near { OnOk result (IsNear built most self.old.state) }

        ensures refused { IfErr result (IsLateCause built most) }
        ensures behind { IfErr result (IsLateThere built most self.old.state) }
        ensures same { OnErr result (self.new.state ≡ self.old.state) }
    {
        if !self.is_known(built.ticket(), mark) {
            return Err(Late::Stale { built });
        }
        let _history = self.state.history();
        let planned = match self.state.plan_swap_or_log_uncounted(alloc, built, most) {
            Ok(planned) => planned,
            Err(late) => return Err(late),
        };
        self.step(rt, planned)?;
        Ok(())
    }

    pub fn log_after(&self, alloc: Global, built: &Built) -> Result<Ops, LogAsk>
        ensures after { IfOk result (IsLogAfter built.now self.now.state) }
        ensures fit { IfOk result (CanBeDoneOn built.now) }

        ensures refused { IfErr result (IsLogFault built.now self.now.state) }
    {
        self.state.log_after(alloc, built)
    }
}
