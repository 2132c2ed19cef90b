//! Why a line is not read.
ghost use Rattle.std.specs.Prelude.{◌≡◌};
ghost use Rattle.scan_log.specs.declared.line_fault.LineFault.TheVariants.{Bad, NoMemory};

use crate::{LogCause, ParseFault};
use std::alloc::{AllocError, AllocFailed};

/// Why the command of a line was not read.
#[derive(Clone, Copy)]
pub enum LineFault {
    Bad(LogCause),
    NoMemory,
}

impl LineFault {
    ghost use Rattle.std.specs.Prelude.{◌≡◌};
    ghost use Rattle.scan_log.specs.Outcomes.{fault_on};

    /// This fault, of the line with this number.
    pub fn on_line(self, line: u32) -> ParseFault
        ensures { result ≡ fault_on line self }
    {
        match self {
            LineFault::Bad(cause) => ParseFault::Bad { line, cause },
            LineFault::NoMemory => ParseFault::NoMemory,
        }
    }
}

impl From<LogCause> for LineFault {
    ghost from_gives = { λ cause fault. fault ≡ Bad cause };

    fn from(cause: LogCause) -> LineFault {
        LineFault::Bad(cause)
    }
}

impl From<AllocError> for LineFault {
    ghost from_gives = { λ _ e. e ≡ NoMemory };

    fn from(_error: AllocError) -> LineFault {
        LineFault::NoMemory
    }
}

impl<T: Drop> From<AllocFailed<T>> for LineFault {
    ghost from_gives = { λ _ e. e ≡ NoMemory };

    fn from(_failed: AllocFailed<T>) -> LineFault {
        LineFault::NoMemory
    }
}
