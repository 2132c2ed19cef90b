//! Reading a log to its end.
ghost use Rattle.std.specs.{Prelude.{◌≡◌, ◌≤◌, ◌+◌, false, true, vec_len, IfOk, OnOk, IsErrOf}, Io.KnownBytes.{Consumes, IsAtEnd}};
ghost use Rattle.byte_streams.specs.Outside.{HasCause, HasRead};
ghost use Rattle.byte_streams.specs.declared.reading.ReadStop.TheVariants as stop;

use crate::outside::{Failed, Source};
use std::alloc::{AllocError, Global};

/// Bytes asked for at a time.
const PIECE: usize = 65_536;

#[derive(Clone, Copy)]
pub enum ReadStop {
    Failed,
    TooLong,
    NoMemory,
}

impl From<Failed> for ReadStop {
    ghost from_gives = { λ _ e. e ≡ stop.Failed };

    fn from(_failed: Failed) -> ReadStop {
        ReadStop::Failed
    }
}

impl From<AllocError> for ReadStop {
    ghost from_gives = { λ _ e. e ≡ stop.NoMemory };

    fn from(_error: AllocError) -> ReadStop {
        ReadStop::NoMemory
    }
}

/// All the bytes of the input, at most `most`. Reading stops at the first byte past them.
pub fn read_all<R: Source>(alloc: Global, most: u32, input: &mut R) -> Result<Vec<u8>, ReadStop>
    ensures all { IfOk result (λ v. Consumes (R.left input.old) (R.left input.new) v.items) }
    ensures end { OnOk result (IsAtEnd (R.left input.new)) }
    ensures ended { OnOk result (R.ended input.new ≡ true) }
    ensures bytes { IfOk result (λ v. vec_len v ≤ most) }
    ensures reads { HasRead (R.left input.old) (R.left input.new) (λ n. n ≤ most + 1) }
    ensures too_long { IsErrOf result ReadStop.TooLong → HasRead (R.left input.old) (R.left input.new) (λ n. n ≡ most + 1) }
    ensures failed { IsErrOf result ReadStop.Failed → (R.ended input.new ≡ false) × HasRead (R.left input.old) (R.left input.new) (λ n. n ≤ most) }
    ensures cause { HasCause ReadStop.Failed (R.faults input.old) (R.faults input.new) result }
{
    let most = most as usize;
    let mut bytes = Vec::new(alloc);
    let mut piece = [0; PIECE];
    while bytes.len() <= most {
        let room = PIECE.min(most + 1 - bytes.len());
        let count = input.read(&mut piece[..room])?;
        if count == 0 {
            return Ok(bytes);
        }
        bytes.extend_from_slice(&piece[..count])?;
    }
    Err(ReadStop::TooLong)
}
