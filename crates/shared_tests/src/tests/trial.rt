//! Shared maps, tried by their callers and by workers.
ghost use Rattle.std.specs.Prelude.{◌≡◌, ◌≤◌, true, length, None};
ghost use Rattle.kd_search.specs.Query.{IsQuery};
ghost use Rattle.shown_versions.specs.Marks.{callers_of, times_listed, IsDistinct};
ghost use Rattle.published_map.specs.Held.{IsOpenedAs};

use crate::tests::assertions::{found, made};
use map_fold::{BoxReply, Cuboids, NearReply, Points, Settings, Update};
use point_geom::{Corner, Cuboid, Point};
use published_map::{Ended, MapName, Opened, Pass, Shared};
use rebuild_core::MapState;
use std::alloc::Global;
use std::marker::Brand;
use std::ops::Range;
use std::process::Abort;
use std::sync::Wait;
use std::sync::ledger::Blank;

/// A map that callers share, and what their calls are handed.
#[derive(Drop)]
pub struct Site<'a, L: MapName, R> {
    pub rt: &'a R,
    pub alloc: Global,
    pub shared: &'a Shared<L>,
}

/// What callers do with a map, and what is left of it when they have ended.
pub trait Trial<R> {
    fn run<L: MapName>(&self, at: &Site<'_, L, R>, passes: &mut [Pass<L>])
        requires all { length passes.old ≡ L.callers }
        requires parts { L.callers ≡ L.parts };

    fn end(&self, rt: &R, state: &MapState, ended: &[Ended]);
}

// Tries it on a map of so many callers.
pub fn tried<T: Trial<R>, R: Wait + Abort>(rt: &R, alloc: Global, callers: u8, trial: &T)
    requires callers_from { 1 ≤ callers }
    requires callers_to { callers ≤ 8 }
{
    let opened = made(rt, Opened::new(alloc, Settings::new(200, 16), callers));
    tried_on::<Brand, T, R>(rt, alloc, Blank::new(u64::from(callers)), opened, trial);
}

fn tried_on<L: MapName, T: Trial<R>, R: Wait + Abort>(
    rt: &R,
    alloc: Global,
    blank: Blank,
    opened: Opened,
    trial: &T,
)
    requires opened { IsOpenedAs L.name L.parts L.callers L.marks L.voxel blank opened }
{
    let Ok((shared, mut passes)) = Shared::<L>::start(rt, alloc, blank, opened) else {
        panic!(rt; "no memory");
    };
    {
        let shared = &shared;
        let at = Site { rt, alloc, shared };
        trial.run(&at, passes.as_mut_slice());
    }
    let (state, ended) = finished(rt, alloc, shared, passes);
    trial.end(rt, &state, ended.as_slice());
}

// Ends the map, whose callers are seen to be distinct.
pub fn finished<L: MapName, R: Wait + Abort>(
    rt: &R,
    alloc: Global,
    shared: Shared<L>,
    passes: Vec<Pass<L>>,
) -> (MapState, Vec<Ended>)
    requires all { length passes.items ≡ L.callers }
    requires parts { L.callers ≡ L.parts }
{
    assert!(rt; are_distinct(passes.as_slice()));
    made(rt, shared.finish(rt, alloc, passes))
}

// Whether no caller comes twice.
pub fn are_distinct<L: MapName>(passes: &[Pass<L>]) -> bool
    ensures { result ≡ true → IsDistinct (callers_of passes.now) }
{
    let Some((first, rest)) = passes.split_first() else {
        return true;
    };
    is_absent(first.caller(), rest) && are_distinct(rest)
}

fn is_absent<L: MapName>(caller: u8, passes: &[Pass<L>]) -> bool
    ensures { result ≡ true → times_listed caller (callers_of passes.now) ≡ 0 }
{
    let Some((first, rest)) = passes.split_first() else {
        return true;
    };
    caller != first.caller() && is_absent(caller, rest)
}

// The mark of an update of this pass's caller.
pub fn updated<L: MapName, R: Wait + Abort>(
    at: &Site<'_, L, R>,
    passes: &mut [Pass<L>],
    place: usize,
    update: Update,
) -> u64 {
    let pass = found(at.rt, passes.get_mut(place));
    made(at.rt, at.shared.update(at.rt, at.alloc, pass, update))
}

// The first caller adds the points (x, 0, 0).
pub fn added<L: MapName, R: Wait + Abort>(
    at: &Site<'_, L, R>,
    passes: &mut [Pass<L>],
    xs: Range<i64>,
) -> u64 {
    let points = row(at.rt, at.alloc, xs.start, xs.end);
    updated(at, passes, 0, points)
}

pub fn near<L: MapName, R: Abort>(
    at: &Site<'_, L, R>,
    passes: &mut [Pass<L>],
    place: usize,
    k: u32,
) -> NearReply
    requires query { IsQuery k None }
{
    let pass = found(at.rt, passes.get_mut(place));
    let query = made(at.rt, Point::new(0, 0, 0));
    made(at.rt, pass.nearest(at.alloc, k, &query, None))
}

// The first 5 of the box from (0, 0, 0) to (9, 9, 9).
pub fn in_box<L: MapName, R: Abort>(
    at: &Site<'_, L, R>,
    passes: &mut [Pass<L>],
    place: usize,
) -> BoxReply {
    let pass = found(at.rt, passes.get_mut(place));
    let cuboid = cuboid(at.rt, 9, 9, 9);
    made(at.rt, pass.in_cuboid(at.alloc, &cuboid, 5))
}

pub fn cuboid(rt: &impl Abort, x: i64, y: i64, z: i64) -> Cuboid {
    let lo = Corner { x: 0, y: 0, z: 0 };
    made(rt, Cuboid::new(lo, Corner { x, y, z }))
}

// The points (x, 0, 0), from the first on and before the last.
pub fn row(rt: &impl Abort, alloc: Global, first: i64, last: i64) -> Update {
    let mut points = Points::new(alloc);
    for x in first..last {
        push(rt, &mut points, x);
    }
    Update::Add(points)
}

pub fn push(rt: &impl Abort, points: &mut Points, x: i64) {
    let point = made(rt, Point::new(x, 0, 0));
    made(rt, points.push(point));
}

pub fn deleted(rt: &impl Abort, alloc: Global, within: Cuboid) -> Update {
    let mut boxes = Cuboids::new(alloc);
    made(rt, boxes.push(within));
    Update::Delete(boxes)
}
