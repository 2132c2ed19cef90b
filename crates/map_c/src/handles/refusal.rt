//! Why a call is refused, and what it returns then.
ghost use Rattle.std.specs.Prelude.{◌≡◌};
ghost use Rattle.map_c.specs.{Status.{code, refusal_of, c_status}, declared.handles.refusal.Refusal.TheVariants.{NoMemory}};

use map_fold::NoMemory;
use rebuild_core::StateFault;

/// The call did what it promises.
pub const DONE: i32 = 0;

/// Why a call is refused.
#[derive(Clone, Copy, Debug, PartialEq, Eq)]
pub enum Refusal {
    NoMemory,
    /// A handle doesn't hold what it should.
    Empty,
    /// A handle holds something already.
    Full,
    /// A number is not one that the call takes.
    BadNumber,
    /// An array is too short.
    NoRoom,
    /// A number of a place is out of range.
    OutOfRange,
    /// A number of a box is out of range, or one of hi is below that of lo.
    BadBox,
    TooManyUpdates,
    TooManyPoints,
    /// No subtree is to be rebuilt.
    NothingToDetach,
    /// The built subtree's place is gone.
    Stale,
    /// Too many operations are pending on the built subtree.
    Behind,
}

impl Refusal {
    pub fn status(self) -> i32
        ensures { result ≡ code self }
    {
        match self {
            Refusal::NoMemory => 1,
            Refusal::Empty => 2,
            Refusal::Full => 3,
            Refusal::BadNumber => 4,
            Refusal::NoRoom => 5,
            Refusal::OutOfRange => 6,
            Refusal::BadBox => 7,
            Refusal::TooManyUpdates => 8,
            Refusal::TooManyPoints => 9,
            Refusal::NothingToDetach => 10,
            Refusal::Stale => 11,
            Refusal::Behind => 12,
        }
    }
}

pub fn status_of(ended: Result<(), Refusal>) -> i32
    ensures { result ≡ c_status ended }
{
    match ended {
        Ok(()) => DONE,
        Err(refusal) => refusal.status(),
    }
}

impl From<NoMemory> for Refusal {
    ghost from_gives = { λ _ e. e ≡ NoMemory };

    fn from(_none: NoMemory) -> Refusal {
        Refusal::NoMemory
    }
}

impl From<StateFault> for Refusal {
    ghost from_gives = { λ fault refusal. refusal ≡ refusal_of fault };

    fn from(fault: StateFault) -> Refusal {
        match fault {
            StateFault::NoMemory => Refusal::NoMemory,
            StateFault::TooManyUpdates { len: _ } => Refusal::TooManyUpdates,
            StateFault::TooManyPoints { next: _, asked: _ } => Refusal::TooManyPoints,
        }
    }
}
