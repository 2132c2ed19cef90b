use std::sync::atomic::{AtomicBool, Ordering};
use std::thread::yield_now;

/// Given once and for all. Who waits lets others run, and gives up after a number of turns.
#[derive(Drop)]
pub(crate) struct Signal {
    given: AtomicBool,
    awaited: AtomicBool,
    missed: AtomicBool,
}

impl Signal {
    pub(crate) fn new() -> Signal {
        Signal {
            given: AtomicBool::new(false),
            awaited: AtomicBool::new(false),
            missed: AtomicBool::new(false),
        }
    }

    pub(crate) fn give(&self) {
        self.given.store(true, Ordering::SeqCst);
    }

    pub(crate) fn wait(&self, turns: u64) {
        self.awaited.store(true, Ordering::SeqCst);
        for _ in 0..turns {
            if self.is_given() {
                return;
            }
            yield_now();
        }
        if !self.is_given() {
            self.missed.store(true, Ordering::SeqCst);
        }
    }

    // Somebody waited, and nobody gave up.
    pub(crate) fn is_met(&self) -> bool {
        self.awaited.load(Ordering::SeqCst) && !self.missed.load(Ordering::SeqCst)
    }

    fn is_given(&self) -> bool {
        self.given.load(Ordering::SeqCst)
    }
}
