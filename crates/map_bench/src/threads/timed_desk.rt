//! A shared map whose workers are timed.
use super::plan::Plan;
use super::times::{Kind, Times};
use crate::bench::since;
use map_fold::{NoMemory, Ops};
use rebuild_core::{Built, Desk, Job, Late, LogAsk, SwapLeft};
use std::alloc::Global;
use std::io;
use std::sync::{Mutex, Wait};
use std::time::{Clock, Instant};

// Done, or why not.
type Done<E> = Result<(), E>;

/// A map as one worker sees it. Each call goes on to the map, and how long it took, with its waiting for the lock, is kept while the
/// plan's scans are added.
#[derive(Drop)]
pub struct TimedDesk<'a, D: Desk, C: Clock> {
    desk: &'a D,
    clock: &'a C,
    plan: &'a Plan,
    times: Mutex<Times>,
}

impl<'a, D: Desk, C: Clock> TimedDesk<'a, D, C> {
    pub fn new(alloc: Global, desk: &'a D, clock: &'a C, plan: &'a Plan) -> TimedDesk<'a, D, C> {
        TimedDesk {
            desk,
            clock,
            plan,
            times: Mutex::new(Times::new(alloc)),
        }
    }

    pub fn finish(self) -> Times {
        let TimedDesk { times, .. } = self;
        times.into_inner()
    }

    // A worker can't be told that the clock failed, or that memory ran out for a time. So such a time is left out.
    fn keep<R: Wait>(&self, rt: &R, kind: Kind, begun: io::Result<Instant>) {
        if !self.plan.is_on() {
            return;
        }
        if let Ok(took) = since(self.clock, begun) {
            let _left_out = self.times.lock(rt).push(kind, took);
        }
    }
}

impl<'a, D: Desk, C: Clock> Desk for TimedDesk<'a, D, C> {
    fn detach<R: Wait>(&self, rt: &R, alloc: Global, slot: u8) -> Result<Option<Job>, NoMemory> {
        let begun = Instant::now(self.clock);
        let got = self.desk.detach(rt, alloc, slot);
        self.keep(rt, Kind::Detach, begun);
        got
    }

    fn log_after<R: Wait>(&self, rt: &R, alloc: Global, built: &Built) -> Result<Ops, LogAsk> {
        let begun = Instant::now(self.clock);
        let ops = self.desk.log_after(rt, alloc, built);
        self.keep(rt, Kind::Log, begun);
        ops
    }

    fn swap<R: Wait>(&self, rt: &R, alloc: Global, built: Built, force: bool) -> Done<SwapLeft> {
        let begun = Instant::now(self.clock);
        let done = self.desk.swap(rt, alloc, built, force);
        self.keep(rt, Kind::Swap, begun);
        done
    }

    // It counts as a swap, or where the value was behind, as a look at the log.
    fn swap_or_log<R: Wait>(&self, rt: &R, alloc: Global, built: Built, most: u32) -> Done<Late> {
        let begun = Instant::now(self.clock);
        let done = self.desk.swap_or_log(rt, alloc, built, most);
        let kind = match &done {
            Err(Late::Behind { .. }) => Kind::Log,
            _ => Kind::Swap,
        };
        self.keep(rt, kind, begun);
        done
    }
}
