//! Maps of which something is to be rebuilt.
use crate::tests::assertions::made;
use crate::tests::trial::push;
use map_fold::{Points, Settings, Update};
use rebuild_core::{MapState, StateFault};
use std::alloc::Global;
use std::process::Abort;

// A map of 40 points in a row, whose whole tree is to be rebuilt.
pub fn with_forty(rt: &impl Abort, alloc: Global) -> MapState {
    let mut state = made(rt, MapState::new(alloc, Settings::new(200, 16)));
    let mut points = Points::new(alloc);
    for x in 1..41i64 {
        push(rt, &mut points, x);
    }
    made(rt, add(alloc, &mut state, points));
    state
}

// A map whose two children, but not their parent, are to be rebuilt.
pub fn with_two_breaches(rt: &impl Abort, alloc: Global) -> MapState {
    let mut state = with_forty(rt, alloc);
    made(rt, state.settle(alloc));
    let mut points = Points::new(alloc);
    for x in [41, 42, 43, 44, 0, -1, -2, -3, -4] {
        push(rt, &mut points, x);
    }
    made(rt, add(alloc, &mut state, points));
    state
}

// The mark of an addition.
type Added = Result<u64, StateFault>;

pub fn add(alloc: Global, state: &mut MapState, points: Points) -> Added {
    state.update_uncounted(alloc, 1, Update::Add(points))
}
