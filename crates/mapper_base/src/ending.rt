//! The ways in which a run ends.
ghost use Rattle.std.specs.Prelude.{◌≡◌};
ghost use Rattle.mapper_base.specs.Endings.{status_of};
ghost use Rattle.mapper_base.specs.declared.ending.Ending.TheVariants as ending;

use crate::status::Status;
use map_items::NoMemory;
use scan_log::LogCause;

/// How a run ended, with what notes say of it.
#[derive(Clone, Copy)]
pub enum Ending {
    Done,
    /// The words ask for nothing that can be done.
    Usage,
    /// Reading the log failed.
    ReadFault,
    /// The input has more bytes than it may have.
    TooLong,
    Bad {
        /// The first faulty line, counted from 1.
        line: u32,
        /// The first fault in it.
        cause: LogCause,
    },
    /// Writing to out failed.
    WriteFault,
    NoMemory,
}

impl Ending {
    pub fn status(self) -> Status
        ensures { result ≡ status_of self }
    {
        match self {
            Ending::Done => Status::Done,
            Ending::Usage => Status::Usage,
            Ending::ReadFault => Status::ReadFault,
            Ending::TooLong => Status::OverLimit,
            Ending::Bad { cause, .. } if cause.is_limit() => Status::OverLimit,
            Ending::Bad { .. } => Status::BadLog,
            Ending::WriteFault => Status::WriteFault,
            Ending::NoMemory => Status::NoMemory,
        }
    }
}

impl From<NoMemory> for Ending {
    ghost from_gives = { λ _ e. e ≡ ending.NoMemory };

    fn from(_want: NoMemory) -> Ending {
        Ending::NoMemory
    }
}
