//! How long steps took.
use crate::bench::since;
use crate::stop::Stop;
use map_fold::NoMemory;
use std::alloc::Global;
use std::fmt::{Display, Error, Formatter, Write};
use std::io;
use std::time::{Clock, Duration, Instant};

/// What took so long.
#[derive(Clone, Copy, PartialEq, Eq)]
pub enum Kind {
    /// An update that adds a scan.
    Scan,
    /// One that deletes what is left.
    Deletion,
    Query,
    /// What a worker asks of the map: to detach a subtree, to swap it in, to tell what it has met.
    Detach,
    Swap,
    Log,
    /// All that the writer does beside the readers, with its pauses.
    Whole,
}

#[derive(Clone, Copy)]
struct Step {
    kind: Kind,
    nanos: u64,
}

/// How long each step took. A step takes 16 bytes.
#[derive(Drop)]
pub struct Times {
    steps: Vec<Step>,
    /// The checksum of answers at the end.
    pub sum: u64,
}

impl Times {
    pub fn new(alloc: Global) -> Times {
        Times {
            steps: Vec::new(alloc),
            sum: 0,
        }
    }

    /// One more step took so long.
    pub fn push(&mut self, kind: Kind, took: Duration) -> Result<(), NoMemory> {
        let nanos = u64::try_from(took.as_nanos()).unwrap_or(u64::MAX);
        self.steps.push(Step { kind, nanos })?;
        Ok(())
    }

    /// One more step, which began then, has ended. A clock that failed at its beginning is told of here.
    pub fn end<R: Clock>(
        &mut self,
        rt: &R,
        kind: Kind,
        begun: io::Result<Instant>,
    ) -> Result<(), Stop> {
        let took = since(rt, begun)?;
        Ok(self.push(kind, took)?)
    }

    /// Forgets all steps.
    pub fn clear(&mut self) {
        self.steps.clear();
    }

    /// The steps of both, and the sum of the one that has one.
    pub fn add(&mut self, other: &Times) -> Result<(), NoMemory> {
        self.steps.extend_from_slice(other.steps.as_slice())?;
        self.sum = self.sum.wrapping_add(other.sum);
        Ok(())
    }

    /// The nanoseconds of all steps of a kind.
    pub fn all(&self, kind: Kind) -> u64 {
        let mut all: u64 = 0;
        for step in self.steps.as_slice() {
            if step.kind == kind {
                all = all.saturating_add(step.nanos);
            }
        }
        all
    }

    fn of(&self, alloc: Global, kind: Kind) -> Result<Vec<u64>, NoMemory> {
        let mut nanos = Vec::new(alloc);
        for step in self.steps.as_slice() {
            if step.kind == kind {
                nanos.push(step.nanos)?;
            }
        }
        Ok(nanos)
    }

    pub fn figures(&self, alloc: Global, kind: Kind) -> Result<Figures, NoMemory> {
        let mut nanos = self.of(alloc, kind)?;
        nanos.sort_unstable();
        Ok(Figures::of(nanos.as_slice()))
    }
}

// So many of a thousand don't lie above it.
fn not_above(sorted: &[u64], thousandths: usize) -> u64 {
    let place = sorted.len().saturating_mul(thousandths) / 1_000;
    sorted.get(place).copied().unwrap_or(0)
}

/// How many steps there were, and nanoseconds of the median, the 99th percentile, the 99.9th, and the longest.
#[derive(Clone, Copy)]
pub struct Figures {
    pub steps: usize,
    median: u64,
    p99: u64,
    p999: u64,
    pub longest: u64,
}

impl Figures {
    fn of(sorted: &[u64]) -> Figures {
        Figures {
            steps: sorted.len(),
            median: not_above(sorted, 500),
            p99: not_above(sorted, 990),
            p999: not_above(sorted, 999),
            longest: sorted.last().copied().unwrap_or(0),
        }
    }
}

/// In microseconds.
impl Display for Figures {
    fn fmt<W: Write>(&self, f: &mut Formatter<W>) -> Result<(), Error> {
        let steps = self.steps;
        let (median, p99) = (Micros(self.median), Micros(self.p99));
        let (p999, longest) = (Micros(self.p999), Micros(self.longest));
        write!(f, "{steps} {median} {p99} {p999} {longest}")
    }
}

// So many nanoseconds, told in microseconds.
#[derive(Clone, Copy)]
struct Micros(u64);

impl Display for Micros {
    fn fmt<W: Write>(&self, f: &mut Formatter<W>) -> Result<(), Error> {
        write!(f, "{}.{}", self.0 / 1_000, self.0 % 1_000 / 100)
    }
}
