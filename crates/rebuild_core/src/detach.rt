ghost use Rattle.std.specs.{Prelude.{◌≡◌, ◌+◌, ◌<◌, ◌≤◌, ◌↔◌, length, slice_set, Some, IfErr, IfOk, IfSome, IsNone, OnErr, OnOk}, List.{insert}};
ghost use Rattle.rebuild_parts.specs.Built.{CanBeDoneOn};
ghost use Rattle.rebuild_core.specs.Known.{IsFoundPart, IsStale};
ghost use Rattle.rebuild_core.specs.Detach.{Detaches, IsDetachStep, IsDetachable, IsDetachedAt, IsLogAfter, IsLogFault, IsNoDetach, IsNoneToDetach, IsSlot, with_part};
ghost use Rattle.kd_update.specs.Detached.{AreItemsOf, PartAt, part_in};

use crate::MapState;
use kd_tree::Path;
use map_items::{NoMemory, Ops};
use op_logger::OpLog;
use rebuild_parts::{
    Built, DetachedItems, Job, LogAsk, Part, Snapshot, part_in, part_of, paths_of,
};
use std::alloc::Global;

impl MapState {
    /// Detaches a subtree into the slot: that of its part again, if there is one, and else the first, in the order
    /// node, left, right, that has at least `large` nodes and breaches a criterion, and is neither above a detached one
    /// nor in one. None without any, or where all tickets were given. n items take time in the order of n log n.
    pub fn detach(&mut self, alloc: Global, slot: u8) -> Result<Option<Job>, NoMemory>
        requires slot { IsSlot slot }
        ensures { Detaches slot self.old result self.new }
    {
        let Some((path, snapshot)) = self.detachable(alloc, slot)? else {
            return Ok(None);
        };
        let Ok(job) = snapshot.job(alloc) else {
            return Err(NoMemory);
        };
        let detached_items = job.detached_items()?;
        self.put_part(alloc, slot, path, detached_items)?;
        Ok(Some(job))
    }

    /// `detach` without a list, in a time that doesn't depend on its nodes: the tree itself is handed out and kept.
    /// `keep_list` can give the state the list later.
    pub fn snapshot(&mut self, alloc: Global, slot: u8) -> Result<Option<Snapshot>, NoMemory>
        requires slot { IsSlot slot }
        ensures { Detaches slot self.old result self.new }
    {
        let Some((path, snapshot)) = self.detachable(alloc, slot)? else {
            return Ok(None);
        };
        let detached_items = snapshot.detached_items()?;
        self.put_part(alloc, slot, path, detached_items)?;
        Ok(Some(snapshot))
    }

    fn detachable(&self, alloc: Global, slot: u8) -> Result<Option<(Path, Snapshot)>, NoMemory>
        ensures none { IfOk result (λ o. IsNone o ↔ IsNoDetach slot self.now.state) }
        ensures some { IfOk result (λ o. IfSome o (λ r. IsDetachable slot self.now.state r.0 r.1)) }
    {
        let last = self.last;
        if last == u64::MAX {
            return Ok(None);
        }
        let Some(path) = self.detach_path(alloc, slot)? else {
            return Ok(None);
        };
        let Some(node) = self.tree.subtree_at(&path) else {
            return Ok(None);
        };
        let _size = node.size();
        let detached_items = DetachedItems::of(alloc, node)?;
        let ticket = last + 1;
        Ok(Some((path, Snapshot::new(ticket, detached_items))))
    }

    fn put_part(
        &mut self,
        alloc: Global,
        slot: u8,
        path: Path,
        held: DetachedItems,
    ) -> Result<(), NoMemory>
        requires slot { IsSlot slot }
        requires there { IsDetachable slot self.old.state path (record { ticket = self.old.state.last + 1; items = held }) }
        ensures detached { OnOk result (IsDetachStep slot self.old.state (record { ticket = self.old.state.last + 1; items = held }) self.new.state) }
        ensures same { OnErr result (self.new.state ≡ self.old.state) }
        ensures spare { self.new.spare ≡ self.old.spare }
    {
        let ticket = self.last + 1;
        let part = Part {
            slot,
            path,
            ticket,
            held,
            log: OpLog::new(alloc),
        };
        put_in_slot(&mut self.parts, part)?;
        self.last = ticket;
        Ok(())
    }

    fn detach_path(&self, alloc: Global, slot: u8) -> Result<Option<Path>, NoMemory>
        ensures none { IfOk result (λ o. IsNone o ↔ IsNoneToDetach (part_in slot self.now.state.parts) self.now.state) }
        ensures some { IfOk result (λ o. IfSome o (IsDetachedAt (part_in slot self.now.state.parts) self.now.state)) }
    {
        let parts = self.parts.as_slice();
        if let Some(part) = part_in(parts, slot) {
            return Ok(Some(part.path));
        }
        let paths = paths_of(alloc, parts)?;
        let large = self.settings.large();
        Ok(self.tree.first_free_breach(large, paths.as_slice()))
    }

    /// The operations that a built value hasn't done, in order.
    pub fn log_after(&self, alloc: Global, built: &Built) -> Result<Ops, LogAsk>
        ensures after { IfOk result (IsLogAfter built.now self.now.state) }
        ensures fit { IfOk result (CanBeDoneOn built.now) }

        ensures refused { IfErr result (IsLogFault built.now self.now.state) }
    {
        let Some(part) = self.part_built(built) else {
            return Err(LogAsk::Stale {
                ticket: built.ticket(),
            });
        };
        let done = built.done().len() as u32;
        let Ok(ops) = part.log.after(alloc, done) else {
            return Err(LogAsk::NoMemory);
        };
        Ok(Ops::from(ops))
    }

    // A step for each operation done and each item, or more where nobody has listed them.
    pub(crate) fn part_built(&self, built: &Built) -> Option<&Part>
        ensures none { IsNone result → IsStale built.now self.now.state.parts }
        ensures some { IfSome result (λ p. IsFoundPart built.now self.now.state.parts p.now) }
    {
        let part = part_of(self.parts.as_slice(), built.ticket())?;
        if !part.held.is_of(built) {
            return None;
        }
        self.part_known(built)
    }

    // `part_built` for a value whose items were compared before.
    pub(crate) fn part_known(&self, built: &Built) -> Option<&Part>
        requires known { AreItemsOf built.now.ticket built.now.items self.now.state.parts }
        ensures none { IsNone result → IsStale built.now self.now.state.parts }
        ensures some { IfSome result (λ p. IsFoundPart built.now self.now.state.parts p.now) }
    {
        let part = part_of(self.parts.as_slice(), built.ticket())?;
        let done = built.done();
        if !part.log.begins_with(done) {
            return None;
        }
        let _history = self.history();
        let _few = part.log.len();
        Some(part)
    }
}

fn put_in_slot(parts: &mut Vec<Part>, part: Part) -> Result<(), NoMemory>
    ensures ok { OnOk result (parts.new.items ≡ with_part part parts.old.items) }
    ensures err { OnErr result (parts.new.items ≡ parts.old.items) }
{
    match place_in(parts.as_slice(), part.slot) {
        Ok(place) => {
            parts[place] = part;
            Ok(())
        }
        Err(place) => {
            parts.insert(place, part)?;
            Ok(())
        }
    }
}

fn place_in(parts: &[Part], slot: u8) -> Result<usize, usize>
    ensures taken_low { IfOk result (λ i. i < length parts.now) }
    ensures taken { IfOk result (λ i. (q : PartAt) → q.slot ≡ slot → with_part q parts.now ≡ slice_set parts.now i q) }
    ensures free_low { IfErr result (λ i. i ≤ length parts.now) }
    ensures free { IfErr result (λ i. (q : PartAt) → q.slot ≡ slot → with_part q parts.now ≡ insert parts.now i q) }
{
    let Some((first, rest)) = parts.split_first() else {
        return Err(0);
    };
    if slot == first.slot {
        return Ok(0);
    }
    if slot < first.slot {
        return Err(0);
    }
    match place_in(rest, slot) {
        Ok(place) => Ok(place + 1),
        Err(place) => Err(place + 1),
    }
}
