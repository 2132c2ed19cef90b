ghost use Rattle.std.specs.{Prelude.{◌≡◌, ◌+◌, ◌<◌, ◌↔◌, true, IfErr, OnErr, OnOk}, List.{Contains}};
ghost use Rattle.rebuild_core.specs.{Desk.{IsSwapCause}, Swap.{IsSwapStep}};

use map_items::{NoMemory, Ops};
use rebuild_core::{Desk, MapState, SwapLeft, Swapped};
use rebuild_parts::{Built, Job, LogAsk, SwapFault};
use std::alloc::Global;
use std::sync::{Mutex, Wait};

/// For tests: counts a worker's calls, from 1, and refuses some. Threads may share it.
#[derive(Drop)]
pub struct CountDesk {
    counted: Mutex<Counted>,
}

#[derive(Drop)]
struct Counted {
    state: MapState,
    calls: u32,
    refused: Vec<u32>,
}

impl CountDesk {
    /// The calls of the numbers in `refused` return `NoMemory` and change nothing.
    pub fn new(state: MapState, refused: Vec<u32>) -> CountDesk {
        CountDesk {
            counted: Mutex::new(Counted {
                state,
                calls: 0,
                refused,
            }),
        }
    }

    /// The state, and how many calls came.
    pub fn finish<R: Wait>(self, _rt: &R) -> (MapState, u32) {
        let CountDesk { counted } = self;
        let Counted { state, calls, .. } = counted.into_inner();
        (state, calls)
    }
}

impl Desk for CountDesk {
    fn detach<R: Wait>(&self, rt: &R, alloc: Global, slot: u8) -> Result<Option<Job>, NoMemory> {
        let mut counted = self.counted.lock(rt);
        if counted.refuses() {
            return Err(NoMemory);
        }
        counted.state.detach(alloc, slot)
    }

    fn log_after<R: Wait>(&self, rt: &R, alloc: Global, built: &Built) -> Result<Ops, LogAsk> {
        let mut counted = self.counted.lock(rt);
        if counted.refuses() {
            return Err(LogAsk::NoMemory);
        }
        counted.state.log_after(alloc, built)
    }

    fn swap<R: Wait>(&self, rt: &R, alloc: Global, built: Built, force: bool) -> Swapped {
        let mut counted = self.counted.lock(rt);
        counted.swap(alloc, built, force)
    }
}

impl Counted {
    fn refuses(&mut self) -> bool
        ensures listed { result ≡ true ↔ Contains self.old.refused.items self.new.calls }
        ensures counted { self.old.calls < 4294967295 → self.new.calls ≡ self.old.calls + 1 }
        ensures same { self.new.state ≡ self.old.state }
        ensures same_list { self.new.refused ≡ self.old.refused }
    {
        self.calls = self.calls.saturating_add(1);
        self.refused.as_slice().contains(&self.calls)
    }

    fn swap(&mut self, alloc: Global, built: Built, force: bool) -> Swapped
        ensures swapped { OnOk result (IsSwapStep built self.old.state.state self.new.state.state) }
        ensures handed_back { IfErr result (λ l. l.built ≡ built) }
        ensures refused { IfErr result (λ l. IsSwapCause built force l.fault) }
        ensures same { OnErr result (self.new.state.state ≡ self.old.state.state) }
    {
        if self.refuses() {
            let fault = SwapFault::NoMemory;
            return Err(SwapLeft { built, fault });
        }
        self.state.swap_uncounted(alloc, built, force)
    }
}
