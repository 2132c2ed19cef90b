ghost use Rattle.std.specs.Prelude.{◌≡◌, ◌≤◌, ◌↔◌, ◌⊎◌, List, IfOk, IfSome};
ghost use Rattle.map_items.specs.declared.op.Op.{Op};
ghost use Rattle.rebuild_parts.specs.Built.{IsReplayOf};
ghost use Rattle.rebuild_worker.specs.declared.worker.Round.TheVariants.{Idle, OutOfMemory};

use crate::bell::Rest;
use crate::gate::Gate;
use map_items::{MAX_LARGE, MIN_LARGE, NoMemory};
use rebuild_core::{Desk, SwapLeft};
use rebuild_parts::{Built, Job, Late, MAX_UNFORCED, SwapFault};
use std::alloc::Global;
use std::sync::Wait;

// Tries before a swap is forced.
const TRIES: u32 = 8;

// Of these, tries that hardly hold the lock, with `MAX_UNFORCED` operations at most.
const FIRST: u32 = 2;

// What a scan of 2,000 points and a deletion log for a subtree: fewer are never pending while scans come.
const SCAN_OPS: u32 = 2_560;

/// Works until told to end, as worker 1 or 2: detaches subtrees into slots 1 and 2, or 3 and 4, builds them, and swaps
/// them in. Without any, or on `NoMemory`, it sleeps until its bell rings. A round that was begun is done whole.
/// `large` is best the map's.
///
/// A value that is behind is replayed outside the map, at most 8 times, then swapped in by force. A stale one is
/// dropped, and one on `NoMemory` too: its subtree is detached again in the next round.
pub fn work<D: Desk, G: Gate, R: Wait>(
    rt: &R,
    alloc: Global,
    large: u32,
    worker: u8,
    desk: &D,
    gate: &G,
    rest: &mut Rest,
)
    requires large_from { MIN_LARGE ≤ large }
    requires large_to { large ≤ MAX_LARGE }
    requires worker_from { 1 ≤ worker }
    requires worker_to { worker ≤ 2 }
{
    let (one, two) = (2 * worker - 1, 2 * worker);
    let worker = Worker {
        alloc,
        large,
        desk,
        gate,
    };
    for _ in rt.forever() {
        if rest.is_stopped() {
            break;
        }
        match worker.round(rt, one, two) {
            Round::Worked => {}
            Round::Idle | Round::OutOfMemory => rest.sleep(rt),
        }
    }
}

#[derive(Drop)]
enum Round {
    Worked,
    Idle,
    OutOfMemory,
}

impl Round {
    fn and(self, other: Round) -> Round
        ensures no_memory { result ≡ OutOfMemory ↔ ((self ≡ OutOfMemory) ⊎ (other ≡ OutOfMemory)) }
        ensures idle { result ≡ Idle ↔ ((self ≡ Idle) × (other ≡ Idle)) }
    {
        match (self, other) {
            (Round::OutOfMemory, _) | (_, Round::OutOfMemory) => Round::OutOfMemory,
            (Round::Idle, Round::Idle) => Round::Idle,
            _ => Round::Worked,
        }
    }
}

#[derive(Drop)]
struct Worker<'a, D: Desk, G: Gate> {
    alloc: Global,
    large: u32,
    desk: &'a D,
    gate: &'a G,
}

impl<'a, D: Desk, G: Gate> Worker<'a, D, G> {
    // `NoMemory` for one job doesn't stop the other.
    fn round<R: Wait>(&self, rt: &R, one: u8, two: u8) -> Round
        requires one_from { 1 ≤ one }
        requires one_to { one ≤ 4 }
        requires two_from { 1 ≤ two }
        requires two_to { two ≤ 4 }
    {
        let first = self.desk.detach(rt, self.alloc, one);
        let second = self.desk.detach(rt, self.alloc, two);
        let first = self.answered(rt, first);
        let second = self.answered(rt, second);
        first.and(second)
    }

    fn answered<R: Wait>(&self, rt: &R, got: Result<Option<Job>, NoMemory>) -> Round {
        match got {
            Err(NoMemory) => Round::OutOfMemory,
            Ok(None) => Round::Idle,
            Ok(Some(job)) => match self.rebuild(rt, job) {
                Ok(()) => Round::Worked,
                Err(NoMemory) => Round::OutOfMemory,
            },
        }
    }

    fn rebuild<R: Wait>(&self, rt: &R, job: Job) -> Result<(), NoMemory> {
        self.gate.before_build(job.ticket());
        match job.build(self.alloc, self.large) {
            Ok(built) => self.swap_in(rt, built),
            Err(_) => Err(NoMemory),
        }
    }

    fn swap_in<R: Wait>(&self, rt: &R, built: Built) -> Result<(), NoMemory> {
        let mut built = built;
        for attempt in 0..TRIES {
            let most = if attempt < FIRST {
                MAX_UNFORCED
            } else {
                SCAN_OPS
            };
            let Some(replayed) = self.swap_or_replay(rt, built, most)? else {
                return Ok(());
            };
            built = replayed;
        }
        self.force(rt, built)
    }

    // None once the value is swapped in, or stale.
    fn swap_or_replay<R: Wait>(
        &self,
        rt: &R,
        built: Built,
        most: u32,
    ) -> Result<Option<Built>, NoMemory>
        ensures { IfOk result (λ o. IfSome o (λ b. (ops : List Op) × IsReplayOf built ops b)) }
    {
        match self.desk.swap_or_log(rt, self.alloc, built, most) {
            Ok(()) | Err(Late::Stale { .. }) => Ok(None),
            Err(Late::NoMemory) => Err(NoMemory),
            Err(Late::Behind { built, ops }) => {
                let replayed = built.replay_in_place(self.alloc, self.large, ops.as_slice())?;
                Ok(Some(replayed))
            }
        }
    }

    fn force<R: Wait>(&self, rt: &R, built: Built) -> Result<(), NoMemory> {
        match self.desk.swap(rt, self.alloc, built, true) {
            Ok(()) => Ok(()),
            Err(SwapLeft { fault, .. }) => match fault {
                SwapFault::Stale { .. } => Ok(()),
                SwapFault::NoMemory => Err(NoMemory),
                SwapFault::Behind { .. } => unreachable!(),
            },
        }
    }
}
