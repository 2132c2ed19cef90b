//! Where a state refuses an update, and stays as it was.
use crate::tests::assertions::{made, same};
use crate::tests::steps::{equal_points, on_new_map, update, updated};
use map_fold::{Cuboids, Settings, Update};
use point_geom::Point;
use rebuild_core::{LogAsk, MapState, StateFault, SwapFault};
use std::alloc::Global;
use std::fmt::Display;
use std::process::Abort;

#[test]
fn a_new_state_refuses_more_points_than_there_may_be(rt: HostRuntime) {
    on_new_map(&rt, rt.alloc(), Settings::new(200, 5_000), refuses_too_many);
}

fn refuses_too_many(rt: &impl Abort, alloc: Global, state: &mut MapState) {
    let points = equal_points(rt, alloc, made(rt, Point::new(0, 0, 0)), 4_194_305);
    let answer = updated(alloc, state, 1, Update::Add(points));
    let (next, asked) = (0, 4_194_305);
    let want = StateFault::TooManyPoints { next, asked };
    same(rt, "the fault", answer.err(), Some(want));
    is_new(rt, state);
}

fn is_new(rt: &impl Abort, state: &MapState) {
    same(rt, "the next number", state.next(), 0);
    same(rt, "updates", state.history().len(), 0);
    same(rt, "updates of the version", state.version().len(), 0);
    same(rt, "nodes", state.version().tree().size(), 0);
}

#[test]
fn a_full_history_refuses_the_next_update(rt: HostRuntime) {
    on_new_map(&rt, rt.alloc(), Settings::new(200, 5_000), refuses_the_next);
}

fn fills_its_history(rt: &impl Abort, alloc: Global, state: &mut MapState) {
    for _ in 0..1_048_576u32 {
        update(rt, alloc, state, Update::Delete(Cuboids::new(alloc)));
    }
}

fn refuses_the_next(rt: &impl Abort, alloc: Global, state: &mut MapState) {
    fills_its_history(rt, alloc, state);
    let nothing = Update::Delete(Cuboids::new(alloc));
    let answer = updated(alloc, state, 2, nothing);
    let want = StateFault::TooManyUpdates { len: 1_048_576 };
    same(rt, "the fault", answer.err(), Some(want));
    same(rt, "updates", state.history().len(), 1_048_576);
}

#[test]
fn a_refusal_says_what_is_full_stale_or_behind(rt: HostRuntime) {
    let alloc = rt.alloc();
    for (fault, want) in [
        (
            StateFault::TooManyPoints {
                next: 4_194_000,
                asked: 305,
            },
            "4194000 points were submitted, and there is no room for 305 more",
        ),
        (
            StateFault::TooManyUpdates { len: 1_048_576 },
            "the history is full: it has 1048576 updates",
        ),
    ] {
        says(&rt, alloc, &fault, want);
    }
    for (fault, want) in [
        (
            SwapFault::Stale { ticket: 3 },
            "no detached subtree has ticket 3 and what the value was built of",
        ),
        (
            SwapFault::Behind { left: 65 },
            "the value is 65 operations behind",
        ),
    ] {
        says(&rt, alloc, &fault, want);
    }
    says(&rt, alloc, &LogAsk::NoMemory, "no memory");
}

fn says<D: Display>(rt: &impl Abort, alloc: Global, fault: &D, want: &str) {
    let text = made(rt, format!(in alloc; "{fault}"));
    assert_eq!(rt; text.as_str(), want);
}
