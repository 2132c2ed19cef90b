//! A source and a sink in memory that never fail.
ghost use Rattle.std.specs.Prelude.{◌≡◌, ◌≤◌, ◌<◌, ◌+◌, ◌^◌, ◌++◌, [], ℕ, List, Some, Ok, IfOk, false, drop, take, min, length};
ghost use Rattle.std.specs.{declared.option.Option.{Option}, Io.{ReadsAtMost}, Io.KnownBytes.{ReadConsumes, WriteAppends}};
ghost use Rattle.byte_streams.specs.Outside.{HasCause, is_end};

use crate::outside::{Failed, Sink, SinkFault, Source};
use std::alloc::Global;
use std::marker::Model;

/// A source in memory that never fails.
#[derive(Drop)]
pub struct SureSource {
    bytes: Vec<u8>,
    at: usize,
    ended: bool,
}

impl Model for SureSource {
    ghost use Rattle.std.specs.Prelude.{drop};
    ghost use Rattle.byte_streams.specs.Memory.{Feed};

    ghost Value = { Feed };

    ghost view = { λ s. record { left = drop s.at s.bytes.items; ended = s.ended } };
}

impl SureSource {
    pub fn new(bytes: Vec<u8>) -> SureSource
        ensures { result ≡ record { left = bytes.items; ended = false } }
    {
        SureSource {
            bytes,
            at: 0,
            ended: false,
        }
    }
}

impl Source for SureSource {
    ghost left = { λ s. Some s.left };

    ghost faults = { λ _. 0 };

    ghost ended = { λ s. s.ended };

    /// Returns all that there is room for.
    fn read(&mut self, buf: &mut [u8]) -> Result<usize, Failed>
        ensures bound { ReadsAtMost result buf.new }
        ensures bytes { ReadConsumes (Some self.old.left) (Some self.new.left) result buf.new }
        ensures end { self.new.ended ≡ is_end result (length buf.old) }
        ensures cause { HasCause (record {}) 0 0 result }
        ensures gives { result ≡ Ok (min (length buf.old) (length self.old.left)) }
    {
        let count = copy_front(self.bytes.as_slice(), self.at, usize::MAX, buf);
        self.at += count;
        self.ended = count == 0 && buf.len() > 0;
        Ok(count)
    }
}

/// Copies at most `most` bytes from the index on to the front of the buffer, and returns how many.
pub fn copy_front(bytes: &[u8], at: usize, most: usize, buf: &mut [u8]) -> usize
    requires { 1 ≤ most }
    ensures value { result ≡ min most (min (length buf.old) (length (drop at bytes.now))) }
    ensures given { drop at bytes.now ≡ take result buf.new ++ drop (at + result) bytes.now }
    ensures room { at + result < 2 ^ 64 }
{
    if bytes.len() <= at {
        return 0;
    }
    let count = most.min(buf.len().min(bytes.len() - at));
    buf[..count].copy_from_slice(&bytes[at..at + count]);
    count
}

/// A sink in memory that never fails.
#[derive(Drop)]
pub struct SureSink {
    bytes: Vec<u8>,
}

impl Model for SureSink {
    ghost use Rattle.std.specs.Prelude.{ℕ, List};

    ghost Value = { List ℕ };

    ghost view = { λ s. s.bytes.items };
}

impl SureSink {
    /// Takes no memory.
    pub fn new(alloc: Global) -> SureSink
        ensures { result ≡ [] }
    {
        SureSink {
            bytes: Vec::new(alloc),
        }
    }

    pub fn bytes(&self) -> &[u8]
        ensures { result.now ≡ self.now }
    {
        self.bytes.as_slice()
    }
}

impl Sink for SureSink {
    ghost held = { λ s. Some s };

    ghost faults = { λ _. 0 };

    fn write(&mut self, bytes: &[u8]) -> Result<usize, SinkFault>
        requires { 0 < length bytes.now }
        ensures some { IfOk result (λ n. 1 ≤ n) }
        ensures bound { IfOk result (λ n. n ≤ length bytes.now) }
        ensures bytes { WriteAppends (Some self.old) (Some self.new) result bytes.now }
        ensures cause { HasCause SinkFault.Failed 0 0 result }
        ensures takes { IfOk result (λ n. n ≡ length bytes.now) }
    {
        self.bytes.extend_from_slice(bytes)?;
        Ok(bytes.len())
    }
}
