//! What each work is done with.
use crate::stop::Stop;
use crate::told::Told;
use crate::words::Size;
use kd_tree::{Steps, Tree};
use std::alloc::Global;
use std::io;
use std::sync::ledger::Ledger;
use std::time::{Clock, Duration, Instant};

/// How long it is since then. A clock that failed at the beginning is told of here.
pub fn since<R: Clock>(rt: &R, begun: io::Result<Instant>) -> io::Result<Duration> {
    begun?.elapsed(rt)
}

/// The clock and the threads, memory, how much is asked for, and a counter of nodes that nothing looks at.
#[derive(Drop)]
pub struct Bench<'a, L: Ledger, R> {
    pub rt: &'a R,
    pub alloc: Global,
    pub size: Size,
    pub steps: Steps<L>,
}

impl<'a, L: Ledger, R: Clock> Bench<'a, L, R> {
    /// The microseconds since then.
    pub fn micros(&self, begun: io::Result<Instant>) -> Result<u128, Stop> {
        Ok(since(self.rt, begun)?.as_micros())
    }

    /// What is told of a work that began then, had this checksum so far, and left this tree.
    pub fn told(&self, begun: io::Result<Instant>, sum: u64, tree: &Tree) -> Result<Told, Stop> {
        let micros = self.micros(begun)?;
        Told::left(self.alloc, micros, sum, tree)
    }
}
