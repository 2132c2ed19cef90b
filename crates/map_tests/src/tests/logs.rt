//! The history of a map, written as a log and read again.
use crate::tests::assertions::{holds, made, same};
use crate::tests::looks::{live, suspended};
use crate::tests::steps::{new_map, on_new_map, row, row_box, updated};
use history_log::{LogFault, LogPart, Stop, history_lines, history_log};
use map_fold::{Cuboids, Settings, Update};
use point_geom::{Point, voxel};
use rebuild_core::MapState;
use scan_log::{Command, parse};
use std::alloc::Global;
use std::process::Abort;

// What the history below is written as. The header and the first line have 81 bytes.
const LOG: &str = "ikdmap 2 voxel 2 large 16
@1 add 0 0 0 0 1 0 0 0 2 0 0 0 3 0 0 0 4 0 0 0 5 0 0 0
@2 suspend 1 0 0 3 1 1
@8 thin 3 0 0 0
@3 restore 2 0 0 3 1 1
@1 delete 4 0 0 5 1 1
@4 expire 1
";

#[test]
fn a_history_is_read_again_as_the_same_map(rt: HostRuntime) {
    on_new_map(&rt, rt.alloc(), Settings::new(2, 16), is_written_and_read);
}

fn is_written_and_read(rt: &impl Abort, alloc: Global, state: &mut MapState) {
    fill(rt, alloc, state);
    is_written(rt, alloc, state);
    is_written_in_parts(rt, alloc, state);
    is_read_again(rt, alloc, state);
    has_no_line(rt, alloc, state);
}

fn fill(rt: &impl Abort, alloc: Global, state: &mut MapState) {
    let points = row(rt, alloc, 0, 6);
    made(rt, updated(alloc, state, 1, Update::Add(points)));
    let boxes = row_box(rt, alloc, 1, 3);
    made(rt, updated(alloc, state, 2, Update::Suspend(boxes)));
    let points = row(rt, alloc, 3, 4);
    made(rt, updated(alloc, state, 8, Update::Thin(points)));
    let boxes = row_box(rt, alloc, 2, 3);
    made(rt, updated(alloc, state, 3, Update::Restore(boxes)));
    let boxes = row_box(rt, alloc, 4, 5);
    made(rt, updated(alloc, state, 1, Update::Delete(boxes)));
    made(rt, updated(alloc, state, 4, Update::Expire(1)));
}

fn is_written(rt: &impl Abort, alloc: Global, state: &MapState) {
    let log = made(rt, history_log(alloc, state));
    holds(rt, "the log", log.as_slice() == LOG.as_bytes());
}

// There is room for the header and the first line, and then for all that is left.
fn is_written_in_parts(rt: &impl Abort, alloc: Global, state: &MapState) {
    let front = made(rt, history_lines(alloc, state, 0, 100));
    holds(rt, "no room", front.stop == Some(Stop::NoRoom));
    let rest = made(rt, history_lines(alloc, state, front.next, usize::MAX));
    same(rt, "the end", (rest.next, rest.stop), (6, None));
    let (bytes, more) = LOG.as_bytes().split_at(81);
    holds(rt, "the front", front.bytes.as_slice() == bytes);
    holds(rt, "the rest", rest.bytes.as_slice() == more);
}

fn is_read_again(rt: &impl Abort, alloc: Global, state: &MapState) {
    let log = made(rt, history_log(alloc, state));
    let mut again = new_map(rt, alloc, *state.settings());
    replay(rt, alloc, &mut again, log.as_slice());
    hold_the_same(rt, alloc, state, &again);
}

// Each update of the log in turn.
fn replay(rt: &impl Abort, alloc: Global, state: &mut MapState, log: &[u8]) {
    assert!(rt; log.len() <= 1_000);
    let script = made(rt, parse(alloc, log));
    let has_settings = script.settings() == state.settings();
    holds(rt, "the settings", has_settings);
    for command in script.commands() {
        change(rt, alloc, state, command);
    }
}

fn change(rt: &impl Abort, alloc: Global, state: &mut MapState, command: &Command) {
    let Command::Change { caller, update } = command else {
        panic!(rt; "no update");
    };
    assert!(rt; 1 <= *caller && *caller <= 8);
    let update = made(rt, update.copy(alloc));
    made(rt, updated(alloc, state, *caller, update));
}

fn hold_the_same(rt: &impl Abort, alloc: Global, state: &MapState, again: &MapState) {
    same(rt, "points", (live(again), suspended(again)), (3, 1));
    same(rt, "the next number", again.next(), state.next());
    let items = made(rt, again.version().tree().flatten(alloc));
    let want = made(rt, state.version().tree().flatten(alloc));
    holds(rt, "what both hold", items.as_slice() == want.as_slice());
}

// The voxel of the last place ends beyond all places, which no line says: so this history has no log, and what was written of it
// stays.
fn has_no_line(rt: &impl Abort, alloc: Global, state: &mut MapState) {
    let last = made(rt, Point::new(1_099_511_627_776, 0, 0));
    let mut boxes = Cuboids::new(alloc);
    made(rt, boxes.push(voxel(&last, 500)));
    made(rt, updated(alloc, state, 1, Update::Suspend(boxes)));
    let fault = history_log(alloc, state).err();
    same(rt, "the fault", fault, Some(LogFault::NoLine { update: 6 }));
    let LogPart { bytes, next, stop } = made(rt, history_lines(alloc, state, 0, usize::MAX));
    same(rt, "the end", (next, stop), (6, Some(Stop::NoLine)));
    holds(rt, "what was written", bytes.as_slice() == LOG.as_bytes());
}
