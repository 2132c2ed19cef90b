//! A shared map, as workers see it. A worker's call takes the lock in turns, and lists and compares what a subtree held between
//! them.
ghost use Rattle.std.specs.Prelude.{◌≡◌, IfErr, IfOk, IfSome};
ghost use Rattle.rebuild_core.specs.Desk.{IsSwapCause};
ghost use Rattle.published_map.specs.Late.{IsLateCause, most_done};

use crate::shared::Shared;
use map_items::{NoMemory, Ops};
use op_logger::MAX_LOGGED;
use rebuild_core::{Desk, SwapLeft, SwapOrLate, Swapped};
use rebuild_parts::{Built, Job, Late, LogAsk, MAX_UNFORCED, SwapFault};
use shown_versions::{MapName, Mark};
use std::alloc::Global;
use std::sync::{MutexGuard, Wait};

impl<L: MapName> Desk for Shared<L> {
    /// On `NoMemory` the subtree may stay detached, without a job: the next call for its slot detaches it anew.
    fn detach<R: Wait>(&self, rt: &R, alloc: Global, slot: u8) -> Result<Option<Job>, NoMemory> {
        let mut locked = self.lock.lock(rt);
        let (left, all_detached_items) = (locked.retired.for_worker(), locked.all_detached_items());
        let found = locked.detach(alloc, slot);
        MutexGuard::unlock(locked);
        drop((left, all_detached_items));
        let Some((snapshot, mark)) = found? else {
            return Ok(None);
        };
        let Ok(job) = snapshot.job(alloc) else {
            return Err(NoMemory);
        };
        self.list(rt, &job, &mark);
        Ok(Some(job))
    }

    fn log_after<R: Wait>(&self, rt: &R, alloc: Global, built: &Built) -> Result<Ops, LogAsk> {
        let locked = self.lock.lock(rt);
        let ops = locked.log_after(alloc, built);
        MutexGuard::unlock(locked);
        ops
    }

    /// Replays on a copy that shares the value's nodes, so each node that an operation touches is copied.
    fn swap<R: Wait>(&self, rt: &R, alloc: Global, built: Built, force: bool) -> Swapped {
        let most = if force { MAX_LOGGED } else { MAX_UNFORCED };
        match self.swap_copy(rt, alloc, &built, most) {
            Ok(()) => Ok(()),
            Err(late) => {
                let fault = counted(&built, force, late);
                Err(SwapLeft { built, fault })
            }
        }
    }

    fn swap_or_log<R: Wait>(&self, rt: &R, alloc: Global, built: Built, most: u32) -> SwapOrLate {
        self.swap_within(rt, alloc, built, most)
    }
}

impl<L: MapName> Shared<L> {
    // Without memory for one more pointer the map keeps the tree.
    fn list<R: Wait>(&self, rt: &R, job: &Job, mark: &Mark<L>)
        requires { job.now.items ≡ mark.now.items }
    {
        let Ok(list) = job.detached_items() else {
            return;
        };
        let mut locked = self.lock.lock(rt);
        let spent = locked.keep_list(job.ticket(), list, mark);
        MutexGuard::unlock(locked);
        drop(spent);
    }

    fn swap_copy<R: Wait>(&self, rt: &R, alloc: Global, built: &Built, most: u32) -> SwapOrLate
        ensures { IfErr result (IsLateCause built.now most) }
    {
        let copy = built.try_clone(alloc)?;
        self.swap_within(rt, alloc, copy, most)
    }

    fn swap_within<R: Wait>(&self, rt: &R, alloc: Global, built: Built, most: u32) -> SwapOrLate
        ensures { IfErr result (IsLateCause built most) }
    {
        let Some(mark) = self.mark_of(rt, &built)? else {
            return Err(Late::Stale { built });
        };
        let mut locked = self.lock.lock(rt);
        let (left, all_detached_items) = (locked.retired.for_worker(), locked.all_detached_items());
        let versions = locked.take_versions();
        let done = locked.swap(rt, alloc, built, &mark, most);
        let spent = locked.retire_swapped(versions, done.is_ok());
        MutexGuard::unlock(locked);
        drop((left, all_detached_items, spent));
        done
    }

    // The mark of what the value was built of, unless its subtree isn't detached any more. Items are compared without the lock.
    fn mark_of<R: Wait>(&self, rt: &R, built: &Built) -> Result<Option<Mark<L>>, NoMemory>
        ensures { IfOk result (λ o. IfSome o (λ mark. mark.items ≡ built.now.items)) }
    {
        let locked = self.lock.lock(rt);
        let held = locked.held(built.ticket());
        MutexGuard::unlock(locked);
        let Some((detached_items, mark)) = held? else {
            return Ok(None);
        };
        if !detached_items.is_of(built) {
            return Ok(None);
        }
        Ok(Some(mark))
    }
}

fn counted(built: &Built, force: bool, late: Late) -> SwapFault
    requires { IsLateCause built.now (most_done force) late }
    ensures { IsSwapCause built.now force result }
{
    match late {
        Late::Stale { .. } => SwapFault::Stale {
            ticket: built.ticket(),
        },
        Late::NoMemory => SwapFault::NoMemory,
        Late::Behind { ops, .. } => SwapFault::Behind {
            left: ops.len() as u32,
        },
    }
}
