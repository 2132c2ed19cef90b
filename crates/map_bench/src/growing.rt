//! The works in which one thread's map grows by scans.
use crate::bench::Bench;
use crate::course::{Lie, Scan, scans};
use crate::draws::Draws;
use crate::stop::Stop;
use crate::sums::{with, with_answers, with_lists};
use crate::told::Told;
use crate::words::Look;
use batch_near::nearest_each;
use kd_tree::Tree;
use map_fold::{NoMemory, Points};
use std::sync::ledger::Ledger;
use std::thread::Threads;
use std::time::{Clock, Instant};

/// A map that grows.
pub trait Growing {
    /// What queries see.
    fn tree(&self) -> &Tree;

    /// Puts a scan's points, and deletes what is left then.
    fn take_in<L: Ledger, R>(&mut self, at: &mut Bench<'_, L, R>, scan: &Scan) -> Result<(), Stop>;
}

/// How long a map takes to take in scans that lie so.
pub fn timed<M: Growing, L: Ledger, R: Clock + Threads + Sync>(
    at: &mut Bench<'_, L, R>,
    map: &mut M,
    lie: Lie,
    look: Look,
) -> Result<Told, Stop> {
    let scans = scans(at.alloc, lie, at.size.count, &mut Draws::new())?;
    let begun = Instant::now(at.rt);
    let sum = take_in_all(at, map, look, scans.as_slice())?;
    at.told(begun, sum, map.tree())
}

/// A map takes in scans that lie so, of as many points as are asked for.
pub fn grow<M: Growing, L: Ledger, R: Threads + Sync>(
    at: &mut Bench<'_, L, R>,
    map: &mut M,
    lie: Lie,
    draws: &mut Draws,
) -> Result<(), Stop> {
    let scans = scans(at.alloc, lie, at.size.count, draws)?;
    let _sum = take_in_all(at, map, Look::Nothing, scans.as_slice())?;
    Ok(())
}

// The checksum of what was looked at before each scan.
fn take_in_all<M: Growing, L: Ledger, R: Threads + Sync>(
    at: &mut Bench<'_, L, R>,
    map: &mut M,
    look: Look,
    scans: &[Scan],
) -> Result<u64, Stop> {
    let mut sum = 0;
    for scan in scans {
        sum = looked(at, look, sum, map.tree(), &scan.points)?;
        map.take_in(at, scan)?;
    }
    Ok(sum)
}

fn looked<L: Ledger, R: Threads + Sync>(
    at: &Bench<'_, L, R>,
    look: Look,
    sum: u64,
    tree: &Tree,
    points: &Points,
) -> Result<u64, NoMemory> {
    match look {
        Look::Nothing => Ok(sum),
        Look::Held => Ok(with(sum, tree.counts().live, 0)),
        Look::Singly => with_answers(sum, at.alloc, tree, points),
        Look::AtOnce => {
            let lists = nearest_each(at.rt, at.alloc, tree, 5, points, None)?;
            Ok(with_lists(sum, &lists))
        }
    }
}
