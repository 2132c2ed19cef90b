//! Why a measurement stopped.
use map_fold::NoMemory;
use rebuild_core::StateFault;
use std::alloc::AllocError;
use std::io;

#[derive(Clone, Copy)]
pub enum Stop {
    /// The words ask for nothing.
    Words,
    /// The map takes no more points.
    Full,
    NoMemory,
    /// The clock or a stream failed.
    Outside,
}

impl From<NoMemory> for Stop {
    fn from(_error: NoMemory) -> Stop {
        Stop::NoMemory
    }
}

impl From<AllocError> for Stop {
    fn from(_error: AllocError) -> Stop {
        Stop::NoMemory
    }
}

impl From<io::Error> for Stop {
    fn from(_error: io::Error) -> Stop {
        Stop::Outside
    }
}

impl From<StateFault> for Stop {
    fn from(fault: StateFault) -> Stop {
        match fault {
            StateFault::NoMemory => Stop::NoMemory,
            StateFault::TooManyUpdates { .. } | StateFault::TooManyPoints { .. } => Stop::Full,
        }
    }
}
