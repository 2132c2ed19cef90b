//! A source and a sink in memory, for tests, that fail at listed calls.
ghost use Rattle.std.specs.{Prelude.{◌≡◌, ◌≤◌, ◌<◌, ◌==◌, ◌↔◌, [], ℕ, List, Some, false, take, min, length, is_err, IsTrue, IsErrOf, IfOk}, List.{list_any}};
ghost use Rattle.std.specs.{declared.option.Option.{Option}, Io.{ReadsAtMost}, Io.KnownBytes.{ReadConsumes, WriteAppends}};
ghost use Rattle.byte_streams.specs.{Memory.{is_next_listed, has_failed, after_read, after_write}, Outside.{HasCause, is_end}};

use crate::outside::{Failed, Sink, SinkFault, Source};
use crate::sure::copy_front;
use std::alloc::Global;
use std::marker::Model;

/// A source in memory that returns pieces, and fails at the listed calls.
#[derive(Drop)]
pub struct MemSource {
    bytes: Vec<u8>,
    at: usize,
    piece: usize,
    failing: Vec<u32>,
    calls: u64,
    faults: u64,
    ended: bool,
}

impl Model for MemSource {
    ghost use Rattle.std.specs.Prelude.{drop, ◌≤◌};
    ghost use Rattle.byte_streams.specs.Memory.{PiecedFeed};

    ghost Value = { PiecedFeed };

    ghost view = { λ s. record { left = drop s.at s.bytes.items; piece = s.piece; failing = s.failing.items; calls = s.calls; faults = s.faults; ended = s.ended } };

    ghost invariant = { λ s. 1 ≤ s.piece };
}

impl MemSource {
    /// Pieces are of at most `piece` bytes; calls are counted from 1.
    pub fn new(bytes: Vec<u8>, piece: usize, failing: Vec<u32>) -> MemSource
        requires { 1 ≤ piece }
        ensures { result ≡ record { left = bytes.items; piece = piece; failing = failing.items; calls = 0; faults = 0; ended = false } }
    {
        MemSource {
            bytes,
            at: 0,
            piece,
            failing,
            calls: 0,
            faults: 0,
            ended: false,
        }
    }
}

impl Source for MemSource {
    ghost left = { λ s. Some s.left };

    ghost faults = { λ s. s.faults };

    ghost ended = { λ s. s.ended };

    /// Returns a whole piece, or all that there is room for, or all the remaining bytes.
    fn read(&mut self, buf: &mut [u8]) -> Result<usize, Failed>
        ensures bound { ReadsAtMost result buf.new }
        ensures bytes { ReadConsumes (Some self.old.left) (Some self.new.left) result buf.new }
        ensures end { self.new.ended ≡ is_end result (length buf.old) }
        ensures cause { HasCause (record {}) self.old.faults self.new.faults result }
        ensures listed { is_err result ≡ is_next_listed self.old.calls self.old.failing }
        ensures gives { IfOk result (λ n. n ≡ min self.old.piece (min (length buf.old) (length self.old.left))) }
        ensures after { self.new ≡ after_read self.old (length buf.old) result }
    {
        self.calls = self.calls.saturating_add(1);
        if is_listed(self.calls, self.failing.as_slice()) {
            self.faults = self.faults.saturating_add(1);
            self.ended = false;
            return Err(Failed);
        }
        let count = copy_front(self.bytes.as_slice(), self.at, self.piece, buf);
        self.at += count;
        self.ended = count == 0 && buf.len() > 0;
        Ok(count)
    }
}

fn is_listed(call: u64, calls: &[u32]) -> bool
    ensures { result ≡ list_any (λ n. n == call) calls.now }
{
    calls.iter().any(|n| *n as u64 == call)
}

/// A sink in memory that takes pieces, and fails at the listed calls.
#[derive(Drop)]
pub struct MemSink {
    bytes: Vec<u8>,
    piece: usize,
    failing: Vec<u32>,
    calls: u64,
    faults: u64,
}

impl Model for MemSink {
    ghost use Rattle.std.specs.Prelude.{◌≤◌};
    ghost use Rattle.byte_streams.specs.Memory.{PiecedSink};

    ghost Value = { PiecedSink };

    ghost view = { λ s. record { held = s.bytes.items; piece = s.piece; failing = s.failing.items; calls = s.calls; faults = s.faults } };

    ghost invariant = { λ s. 1 ≤ s.piece };
}

impl MemSink {
    /// Pieces are of at most `piece` bytes; calls are counted from 1.
    pub fn new(alloc: Global, piece: usize, failing: Vec<u32>) -> MemSink
        requires { 1 ≤ piece }
        ensures { result ≡ record { held = []; piece = piece; failing = failing.items; calls = 0; faults = 0 } }
    {
        MemSink {
            bytes: Vec::new(alloc),
            piece,
            failing,
            calls: 0,
            faults: 0,
        }
    }

    pub fn bytes(&self) -> &[u8]
        ensures { result.now ≡ self.now.held }
    {
        self.bytes.as_slice()
    }
}

impl Sink for MemSink {
    ghost held = { λ s. Some s.held };

    ghost faults = { λ s. s.faults };

    /// Takes a whole piece, or all the bytes.
    fn write(&mut self, bytes: &[u8]) -> Result<usize, SinkFault>
        requires { 0 < length bytes.now }
        ensures some { IfOk result (λ n. 1 ≤ n) }
        ensures bound { IfOk result (λ n. n ≤ length bytes.now) }
        ensures bytes { WriteAppends (Some self.old.held) (Some self.new.held) result bytes.now }
        ensures cause { HasCause SinkFault.Failed self.old.faults self.new.faults result }
        ensures listed { has_failed result ≡ is_next_listed self.old.calls self.old.failing }
        ensures takes { IfOk result (λ n. n ≡ min self.old.piece (length bytes.now)) }
        ensures after { self.new ≡ after_write self.old bytes.now result }
    {
        self.calls = self.calls.saturating_add(1);
        if is_listed(self.calls, self.failing.as_slice()) {
            self.faults = self.faults.saturating_add(1);
            return Err(SinkFault::Failed);
        }
        let count = self.piece.min(bytes.len());
        self.bytes.extend_from_slice(&bytes[..count])?;
        Ok(count)
    }
}
