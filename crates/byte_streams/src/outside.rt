//! Where a log comes from, and where its transcript goes.
ghost use Rattle.std.specs.{Prelude.{◌≤◌, ◌<◌, ◌≡◌, ℕ, Bool, List, length, IfOk}, declared.option.Option.{Option}, Io.{ReadsAtMost}};
ghost use Rattle.std.specs.Io.KnownBytes.{ReadConsumes, WriteAppends};
ghost use Rattle.byte_streams.specs.{Outside.{HasCause, is_end}, declared.outside.SinkFault.TheVariants.{NoMemory}};

use std::alloc::AllocError;
use std::fmt::{Display, Error, Formatter, Write};

/// A read failed.
#[derive(Clone, Copy, Debug, PartialEq, Eq)]
pub struct Failed;

/// Why a write took nothing.
#[derive(Clone, Copy, Debug, PartialEq, Eq)]
pub enum SinkFault {
    Failed,
    NoMemory,
}

impl From<AllocError> for SinkFault {
    ghost from_gives = { λ _ e. e ≡ NoMemory };

    fn from(_error: AllocError) -> SinkFault {
        SinkFault::NoMemory
    }
}

impl Display for Failed {
    fn fmt<W: Write>(&self, f: &mut Formatter<W>) -> Result<(), Error> {
        f.write_str("a read failed")
    }
}

impl Display for SinkFault {
    fn fmt<W: Write>(&self, f: &mut Formatter<W>) -> Result<(), Error> {
        f.write_str(match self {
            SinkFault::Failed => "a write failed",
            SinkFault::NoMemory => "no memory",
        })
    }
}

/// Where bytes are read from. A new source has not returned the end of input.
pub trait Source {
    /// The remaining bytes, where it shows them.
    ghost left: { Self → Option (List ℕ) };

    /// How many reads failed; stays at 2^64 - 1 once there.
    ghost faults: { Self → ℕ };

    /// Whether its last read returned the end of input.
    ghost ended: { Self → Bool };

    /// Puts the next bytes at the front of the buffer, and returns how many. None into some room is the end of input.
    fn read(&mut self, buf: &mut [u8]) -> Result<usize, Failed>
        ensures bound { ReadsAtMost result buf.new }
        ensures bytes { ReadConsumes (left self.old) (left self.new) result buf.new }
        ensures end { ended self.new ≡ is_end result (length buf.old) }
        ensures cause { HasCause (record {}) (faults self.old) (faults self.new) result };
}

/// Where bytes are written to.
pub trait Sink {
    /// The bytes that it holds, where it shows them.
    ghost held: { Self → Option (List ℕ) };

    /// How many writes failed; stays at 2^64 - 1 once there.
    ghost faults: { Self → ℕ };

    /// Takes a prefix of the bytes, and returns its length. A refusal takes nothing.
    fn write(&mut self, bytes: &[u8]) -> Result<usize, SinkFault>
        requires { 0 < length bytes.now }
        ensures some { IfOk result (λ n. 1 ≤ n) }
        ensures bound { IfOk result (λ n. n ≤ length bytes.now) }
        ensures bytes { WriteAppends (held self.old) (held self.new) result bytes.now }
        ensures cause { HasCause SinkFault.Failed (faults self.old) (faults self.new) result };
}
