ghost use Rattle.std.specs.Prelude.{◌≡◌, ◌≤◌, IfErr, IfOk, IfSome};
ghost use Rattle.rebuild_parts.specs.Built.{CanBeDoneOn};
ghost use Rattle.rebuild_core.specs.Desk.{IsAskCause, IsHandedBack, IsSwapCause};

use crate::SwapLeft;
use map_items::{NoMemory, Ops};
use rebuild_parts::{Built, Job, Late, LogAsk, SwapFault};
use std::alloc::Global;
use std::sync::Wait;

/// A value that isn't swapped in comes back.
pub type Swapped = Result<(), SwapLeft>;

/// A value that is too far behind comes back with its pending operations.
pub type SwapOrLate = Result<(), Late>;

/// A shared map, for a worker. Each call is one step of its state; since that isn't lent, no clause ties a result to
/// what a call found there.
pub trait Desk {
    /// Detaches as `MapState::detach` does. Tickets are given from 1 on.
    fn detach<R: Wait>(&self, rt: &R, alloc: Global, slot: u8) -> Result<Option<Job>, NoMemory>
        requires slot_from { 1 ≤ slot }
        requires slot_to { slot ≤ 4 }
        ensures ticket { IfOk result (λ o. IfSome o (λ job. 1 ≤ job.ticket)) };

    /// Returns what `MapState::log_after` does.
    fn log_after<R: Wait>(&self, rt: &R, alloc: Global, built: &Built) -> Result<Ops, LogAsk>
        ensures fit { IfOk result (CanBeDoneOn built.now) }
        ensures refused { IfErr result (IsAskCause built.now) };

    /// Swaps as `MapState::swap` does. A refused value comes back as it was.
    fn swap<R: Wait>(&self, rt: &R, alloc: Global, built: Built, force: bool) -> Swapped
        ensures handed_back { IfErr result (λ l. l.built ≡ built) }
        ensures refused { IfErr result (λ l. IsSwapCause built force l.fault) };

    /// Swaps as `MapState::plan_swap_or_log` does. A stale value, or one more than `_most` operations behind, comes
    /// back as it was; on `NoMemory` it is dropped.
    ///
    /// By default this is `swap` without force and then `log_after`, whatever `_most` is. In one step the items are
    /// compared once, and the value's own nodes may be used.
    fn swap_or_log<R: Wait>(&self, rt: &R, alloc: Global, built: Built, _most: u32) -> SwapOrLate
        ensures refused { IfErr result (IsHandedBack built) }
    {
        let SwapLeft { built, fault } = match self.swap(rt, alloc, built, false) {
            Ok(()) => return Ok(()),
            Err(left) => left,
        };
        match fault {
            SwapFault::Stale { .. } => Err(Late::Stale { built }),
            SwapFault::NoMemory => Err(Late::NoMemory),
            SwapFault::Behind { .. } => match self.log_after(rt, alloc, &built) {
                Ok(ops) => Err(Late::Behind { built, ops }),
                Err(LogAsk::Stale { .. }) => Err(Late::Stale { built }),
                Err(LogAsk::NoMemory) => Err(Late::NoMemory),
            },
        }
    }
}
