//! Streams as sources and sinks. They show of their bytes what the stream shows: of the process's streams, nothing.
ghost use Rattle.std.specs.Prelude.{◌≡◌, false};

use byte_streams::{Failed, Sink, SinkFault, Source};
use std::io::{Read, Write};

/// A stream that is read from.
#[derive(Drop)]
pub struct Input<R: Read> {
    inner: R,
    /// How often a read has failed.
    faults: u64,
    /// Whether the last read returned the end of input.
    ended: bool,
}

impl<R: Read> Input<R> {
    pub fn new(inner: R) -> Input<R>
        ensures faults { result.faults ≡ 0 }
        ensures ended { result.ended ≡ false }
    {
        Input {
            inner,
            faults: 0,
            ended: false,
        }
    }
}

impl<R: Read> Source for Input<R> {
    ghost left = { λ s. R.remaining s.inner };

    ghost faults = { λ s. s.faults };

    ghost ended = { λ s. s.ended };

    fn read(&mut self, buf: &mut [u8]) -> Result<usize, Failed> {
        self.ended = false;
        match self.inner.read(buf) {
            Ok(count) => {
                self.ended = count == 0 && buf.len() > 0;
                Ok(count)
            }
            Err(_) => {
                self.faults = self.faults.saturating_add(1);
                Err(Failed)
            }
        }
    }
}

/// A stream that is written to.
#[derive(Drop)]
pub struct Output<W: Write> {
    inner: W,
    /// How often a write has failed or taken nothing.
    faults: u64,
}

impl<W: Write> Output<W> {
    pub fn new(inner: W) -> Output<W>
        ensures { result.faults ≡ 0 }
    {
        Output { inner, faults: 0 }
    }
}

impl<W: Write> Sink for Output<W> {
    ghost held = { λ s. W.contents s.inner };

    ghost faults = { λ s. s.faults };

    fn write(&mut self, bytes: &[u8]) -> Result<usize, SinkFault> {
        match self.inner.write(bytes) {
            Ok(count) if 0 < count => Ok(count),
            _ => {
                self.faults = self.faults.saturating_add(1);
                Err(SinkFault::Failed)
            }
        }
    }
}
