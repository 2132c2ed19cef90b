//! Why a history has no log.
use map_items::NoMemory;

/// Why a history has no log.
#[derive(Clone, Copy, Debug, PartialEq, Eq)]
pub enum LogFault {
    NoMemory,
    /// More lines than a log may have.
    TooManyUpdates,
    /// The update with this number, from 0, has a box beyond the coordinates of a log.
    NoLine { update: usize },
}

impl From<NoMemory> for LogFault {
    ghost use Rattle.std.specs.Prelude.{◌≡◌};
    ghost use Rattle.history_log.specs.declared.fault.LogFault.TheVariants.{NoMemory};

    ghost from_gives = { λ _ e. e ≡ NoMemory };

    fn from(_none: NoMemory) -> LogFault {
        LogFault::NoMemory
    }
}
