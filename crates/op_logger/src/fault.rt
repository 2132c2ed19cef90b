//! The error of `OpLog::push`.
ghost use Rattle.std.specs.Prelude.{◌≡◌};
ghost use Rattle.op_logger.specs.declared.fault.PushFault.TheVariants.{NoMemory};

use std::alloc::AllocError;
use std::fmt::{Display, Error, Formatter, Write};

/// Why an operation isn't taken.
#[derive(Clone, Copy, Debug, PartialEq, Eq)]
pub enum PushFault {
    /// The list has `MAX_LOGGED` operations.
    Full,
    NoMemory,
}

impl From<AllocError> for PushFault {
    ghost from_gives = { λ _ e. e ≡ NoMemory };

    fn from(_error: AllocError) -> PushFault {
        PushFault::NoMemory
    }
}

impl Display for PushFault {
    fn fmt<W: Write>(&self, f: &mut Formatter<W>) -> Result<(), Error> {
        f.write_str(match self {
            PushFault::Full => "the log is full",
            PushFault::NoMemory => "no memory",
        })
    }
}
