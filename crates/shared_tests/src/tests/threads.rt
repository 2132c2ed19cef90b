//! Two callers at once.
ghost use Rattle.std.specs.Prelude.{◌≤◌};
ghost use Rattle.published_map.specs.Held.{IsOpenedAs};

use crate::tests::assertions::{found, holds, made, same};
use crate::tests::trial::{Site, finished, push};
use map_fold::{Points, Settings, Update};
use point_geom::Point;
use published_map::{Ended, MapName, Opened, Pass, Shared};
use rebuild_core::{Built, Desk, MapState, SwapFault};
use std::alloc::Global;
use std::marker::Brand;
use std::process::Abort;
use std::sync::Wait;
use std::sync::ledger::Blank;
use std::thread::{Threads, join};

// How many updates each caller makes, and as many reads.
const TURNS: u32 = 25_000;

const LARGE: u32 = 16;

// Updates, reads, settles and swaps, of which none is refused. No read goes back.
fn busy<L: MapName, R: Wait + Abort>(at: &Site<'_, L, R>, pass: &mut Pass<L>, slot: u8)
    requires slot_from { 1 ≤ slot }
    requires slot_to { slot ≤ 4 }
{
    let mut last = 0;
    for turn in 0..TURNS {
        last = once(at, pass, i64::from(turn % 100), last);
        match turn % 1_000 {
            0 => made(at.rt, at.shared.settle(at.rt, at.alloc)),
            250 | 500 | 750 => rebuilt(at, slot),
            _ => {}
        }
    }
}

// Rebuilds a subtree that is out of balance, if there is one.
fn rebuilt<L: MapName, R: Wait + Abort>(at: &Site<'_, L, R>, slot: u8)
    requires slot_from { 1 ≤ slot }
    requires slot_to { slot ≤ 4 }
{
    if let Some(job) = made(at.rt, at.shared.detach(at.rt, at.alloc, slot)) {
        let built = found(at.rt, job.build(at.alloc, LARGE).ok());
        swapped(at, built);
    }
}

// Swaps the value in unless its subtree was forgotten meanwhile.
fn swapped<L: MapName, R: Wait + Abort>(at: &Site<'_, L, R>, built: Built) {
    if let Err(left) = at.shared.swap(at.rt, at.alloc, built, true) {
        let is_stale = matches!(left.fault, SwapFault::Stale { .. });
        holds(at.rt, "it was forgotten", is_stale);
    }
}

// The mark of a read after one more point.
fn once<L: MapName, R: Wait + Abort>(
    at: &Site<'_, L, R>,
    pass: &mut Pass<L>,
    x: i64,
    last: u64,
) -> u64 {
    let mut points = Points::new(at.alloc);
    push(at.rt, &mut points, x);
    let done = at.shared.update(at.rt, at.alloc, pass, Update::Add(points));
    let mark = made(at.rt, done);
    holds(at.rt, "a later mark", last < mark);
    let point = made(at.rt, Point::new(x, 0, 0));
    let reply = made(at.rt, pass.nearest(at.alloc, 1, &point, None));
    holds(at.rt, "a read of the update", mark <= reply.mark);
    reply.mark
}

fn both<L: MapName + Send + Sync, R: Threads + Wait + Abort + Sync>(
    rt: &R,
    alloc: Global,
    shared: &Shared<L>,
    first: &mut Pass<L>,
    second: &mut Pass<L>,
) {
    join(
        rt,
        || busy(&Site { rt, alloc, shared }, first, 1),
        || busy(&Site { rt, alloc, shared }, second, 2),
    );
}

fn each<L: MapName + Send + Sync, R: Threads + Wait + Abort + Sync>(
    rt: &R,
    alloc: Global,
    shared: &Shared<L>,
    passes: &mut [Pass<L>],
) {
    let (first, rest) = found(rt, passes.split_first_mut());
    let (second, _) = found(rt, rest.split_first_mut());
    both(rt, alloc, shared, first, second);
}

// Each of the two callers made all its updates.
fn all_are_made(rt: &impl Abort, state: &MapState, ended: &[Ended]) {
    same(rt, "updates", state.version().len(), 50_000);
    same(rt, "live points", state.version().counts().live, 50_000);
    same(rt, "callers", ended.len(), 2);
    for told in ended {
        same(rt, "a caller's updates", told.updates, TURNS);
    }
}

fn shared_by_two<L: MapName + Send + Sync, R: Threads + Wait + Abort + Sync>(
    rt: &R,
    alloc: Global,
    blank: Blank,
    opened: Opened,
)
    requires opened { IsOpenedAs L.name L.parts L.callers L.marks L.voxel blank opened }
{
    let Ok((shared, mut passes)) = Shared::<L>::start(rt, alloc, blank, opened) else {
        panic!(rt; "no memory");
    };
    each(rt, alloc, &shared, passes.as_mut_slice());
    let (state, ended) = finished(rt, alloc, shared, passes);
    all_are_made(rt, &state, ended.as_slice());
}

#[test]
fn two_threads_make_a_hundred_thousand_updates_and_reads(rt: HostRuntime) {
    let alloc = rt.alloc();
    let opened = made(&rt, Opened::new(alloc, Settings::new(200, LARGE), 2));
    shared_by_two::<Brand, HostRuntime>(&rt, alloc, Blank::new(2), opened);
}
