use crossbeam_utils::atomic::AtomicCell;
use crossbeam_utils::sync::{Parker, Unparker};
use map_items::NoMemory;
use std::alloc::Global;
use std::sync::{Arc, Wait};

/// Wakes one worker, from any thread.
#[derive(Drop)]
pub struct Bell {
    unparker: Unparker,
    stopped: Arc<AtomicCell<bool>>,
}

/// Where a worker sleeps until its bell rings.
#[derive(Drop)]
pub struct Rest {
    parker: Parker,
    stopped: Arc<AtomicCell<bool>>,
}

pub fn pair(alloc: Global) -> Result<(Bell, Rest), NoMemory> {
    let parker = Parker::new(alloc)?;
    let unparker = parker.unparker().clone()?;
    let stopped = Arc::new(alloc, AtomicCell::new(false))?;
    let twin = stopped.clone()?;
    let bell = Bell {
        unparker,
        stopped: twin,
    };
    Ok((bell, Rest { parker, stopped }))
}

impl Bell {
    /// Wakes the worker, or keeps it awake the next time.
    pub fn ring(&self) {
        self.unparker.unpark();
    }

    /// Tells the worker to end, and wakes it.
    pub fn stop(&self) {
        self.stopped.store(true);
        self.unparker.unpark();
    }
}

impl Rest {
    pub(crate) fn is_stopped(&self) -> bool {
        self.stopped.load()
    }

    pub(crate) fn sleep<R: Wait>(&mut self, rt: &R) {
        self.parker.park(rt);
    }
}
