//! Steps of a state, whose new nodes nobody counts.
ghost use Rattle.std.specs.Prelude.{◌≤◌};

use crate::tests::assertions::{found, made, same};
use crate::tests::looks::cuboid;
use map_fold::{Cuboids, Points, Settings, Update};
use point_geom::Point;
use rebuild_core::{Built, Job, LogAsk, MapState, StateFault, SwapFault, SwapLeft};
use std::alloc::Global;
use std::process::Abort;

// The mark of an update.
pub type Updated = Result<u64, StateFault>;

pub fn updated(alloc: Global, state: &mut MapState, caller: u8, update: Update) -> Updated
    requires caller_from { 1 ≤ caller }
    requires caller_to { caller ≤ 8 }
{
    state.update_uncounted(alloc, caller, update)
}

// Done, or why not.
pub type Swapped = Result<(), SwapLeft>;

pub fn swapped(alloc: Global, state: &mut MapState, built: Built, force: bool) -> Swapped {
    state.swap_uncounted(alloc, built, force)
}

// The value is swapped in, or it is refused for the fault.
pub fn swap_ends(
    rt: &impl Abort,
    alloc: Global,
    state: &mut MapState,
    built: Built,
    force: bool,
    fault: Option<SwapFault>,
) {
    let end = match swapped(alloc, state, built, force) {
        Ok(()) => None,
        Err(left) => Some(left.fault),
    };
    same(rt, "the end of the swap", end, fault);
}

// The value of this ticket is told nothing, and is stale, though its swap is forced.
pub fn is_stale(rt: &impl Abort, alloc: Global, state: &mut MapState, built: Built, ticket: u64) {
    let asked = state.log_after(alloc, &built).err();
    same(rt, "the answer", asked, Some(LogAsk::Stale { ticket }));
    let stale = SwapFault::Stale { ticket };
    swap_ends(rt, alloc, state, built, true, Some(stale));
}

// A new map.
pub fn new_map(rt: &impl Abort, alloc: Global, settings: Settings) -> MapState {
    made(rt, MapState::new(alloc, settings))
}

// Tries this on a new map.
pub fn on_new_map<R: Abort, F: FnOnce(&R, Global, &mut MapState)>(
    rt: &R,
    alloc: Global,
    settings: Settings,
    trial: F,
)
    requires { F.IsAlwaysCallable trial }
{
    let mut state = new_map(rt, alloc, settings);
    trial(rt, alloc, &mut state);
}

pub fn settled(rt: &impl Abort, alloc: Global, state: &mut MapState) {
    made(rt, state.settle(alloc));
}

pub fn detached(rt: &impl Abort, alloc: Global, state: &mut MapState, slot: u8) -> Job
    requires slot_from { 1 ≤ slot }
    requires slot_to { slot ≤ 4 }
{
    let job = made(rt, state.detach(alloc, slot));
    found(rt, job)
}

// The job has this ticket and so many items.
pub fn is_of(rt: &impl Abort, job: &Job, ticket: u64, items: usize) {
    same(rt, "the ticket", job.ticket(), ticket);
    same(rt, "items", job.items().len(), items);
}

// Whether nothing is left to be detached.
pub fn is_balanced(rt: &impl Abort, alloc: Global, state: &mut MapState, slot: u8) -> bool
    requires slot_from { 1 ≤ slot }
    requires slot_to { slot ≤ 4 }
{
    made(rt, state.detach(alloc, slot)).is_none()
}

pub fn built(rt: &impl Abort, alloc: Global, job: Job) -> Built {
    found(rt, job.build(alloc, 16).ok())
}

// The points (x, 0, 0), from the first on and before the last.
pub fn row(rt: &impl Abort, alloc: Global, first: i64, last: i64) -> Points {
    let mut points = Points::new(alloc);
    for x in first..last {
        push(rt, &mut points, x);
    }
    points
}

fn push(rt: &impl Abort, points: &mut Points, x: i64) {
    let point = made(rt, Point::new(x, 0, 0));
    made(rt, points.push(point));
}

// The box of those points.
pub fn row_box(rt: &impl Abort, alloc: Global, first: i64, last: i64) -> Cuboids {
    let mut boxes = Cuboids::new(alloc);
    let cuboid = cuboid(rt, (first, 0, 0), (last, 1, 1));
    made(rt, boxes.push(cuboid));
    boxes
}

// So many points at one place.
pub fn equal_points(rt: &impl Abort, alloc: Global, place: Point, count: u32) -> Points {
    let mut points = Points::new(alloc);
    for _ in 0..count {
        made(rt, points.push(place));
    }
    points
}

// The first caller makes the update.
pub fn update(rt: &impl Abort, alloc: Global, state: &mut MapState, update: Update) {
    made(rt, updated(alloc, state, 1, update));
}

// Adds those points.
pub fn add(rt: &impl Abort, alloc: Global, state: &mut MapState, first: i64, last: i64) {
    let points = row(rt, alloc, first, last);
    update(rt, alloc, state, Update::Add(points));
}

// Points (x, 0, 0), from the first on and before the last.
pub type Range = (i64, i64);

// Adds the points from 0 on and before the last, and deletes some of them and hides others.
pub fn fill(
    rt: &impl Abort,
    alloc: Global,
    state: &mut MapState,
    last: i64,
    (gone, hidden): (Range, Range),
) {
    add(rt, alloc, state, 0, last);
    let gone = row_box(rt, alloc, gone.0, gone.1);
    update(rt, alloc, state, Update::Delete(gone));
    let hidden = row_box(rt, alloc, hidden.0, hidden.1);
    update(rt, alloc, state, Update::Suspend(hidden));
}

pub fn add_row(rt: &impl Abort, alloc: Global, state: &mut MapState, xs: &[i64]) {
    let mut points = Points::new(alloc);
    for x in xs {
        push(rt, &mut points, *x);
    }
    update(rt, alloc, state, Update::Add(points));
}

// Adds the points of a row, and one more at this place.
pub fn add_row_and(
    rt: &impl Abort,
    alloc: Global,
    state: &mut MapState,
    (first, last): (i64, i64),
    more: i64,
) {
    let mut points = row(rt, alloc, first, last);
    push(rt, &mut points, more);
    update(rt, alloc, state, Update::Add(points));
}
