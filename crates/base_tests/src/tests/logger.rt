//! A logger with ample memory, up to its end.
use crate::tests::assertions::{holds, made, same};
use crate::tests::places::at;
use map_fold::{Choice, Op, Tag};
use op_logger::{OpLog, PushFault};
use point_geom::{Cuboid, Point};
use std::alloc::Global;
use std::process::Abort;

#[test]
fn a_full_logger_takes_no_more_and_stays_as_it_was(rt: HostRuntime) {
    let alloc = rt.alloc();
    let mut log = full(&rt, alloc);
    let one_more = Op::Mark {
        choice: Choice::ALL,
        tag: Tag::DELETE,
    };
    same(&rt, "the answer", log.push(one_more), Err(PushFault::Full));
    same(&rt, "operations after it", log.len(), 65_536);
    let copy = made(&rt, log.copy(alloc));
    begins_with_all(&rt, alloc, &copy, &log);
}

fn full(rt: &impl Abort, alloc: Global) -> OpLog {
    let point = at(rt, (1, 2, 3));
    let mut log = OpLog::new(alloc);
    for number in 0..65_536 {
        let is_pushed = log.push(Op::Put { number, point }).is_ok();
        holds(rt, "it is pushed", is_pushed);
    }
    same(rt, "operations", (log.len(), log.room()), (65_536, 0));
    log
}

fn begins_with_all(rt: &impl Abort, alloc: Global, log: &OpLog, other: &OpLog) {
    let all = made(rt, other.after(alloc, 0));
    let is_begun = log.begins_with(all.as_slice());
    holds(rt, "it begins with all of the other", is_begun);
}

#[test]
fn what_comes_after_and_what_comes_first(rt: HostRuntime) {
    let alloc = rt.alloc();
    let ops = three(&rt, alloc, at(&rt, (1, 2, 3)));
    let ops = ops.as_slice();
    let mut log = logged(&rt, alloc, ops);
    has_after(&rt, alloc, &log, 1, part(&rt, ops, 1, 3));
    begins(&rt, &log, part(&rt, ops, 0, 2), true);
    begins(&rt, &log, part(&rt, ops, 0, 0), true);
    begins(&rt, &log, part(&rt, ops, 1, 3), false);
    assert!(rt; log.len() == 3);
    log.cut(1);
    has_after(&rt, alloc, &log, 0, part(&rt, ops, 0, 1));
    begins(&rt, &log, part(&rt, ops, 0, 2), false);
    log.cut(0);
    has_after(&rt, alloc, &log, 0, part(&rt, ops, 0, 0));
}

// Those from one place on and before another.
fn part<'a>(rt: &impl Abort, ops: &'a [Op], from: usize, to: usize) -> &'a [Op] {
    match ops.get(from..to) {
        Some(part) => part,
        None => panic!(rt; "too few operations"),
    }
}

fn three(rt: &impl Abort, alloc: Global, point: Point) -> Vec<Op> {
    let all = Choice::ALL;
    let choice = Choice::within(&Cuboid::unit(&point));
    let ops = [
        Op::Mark {
            choice: all,
            tag: Tag::SUSPEND,
        },
        Op::Mark {
            choice,
            tag: Tag::RESTORE,
        },
        Op::Put { number: 7, point },
    ];
    made(rt, ops.to_vec(alloc))
}

fn logged(rt: &impl Abort, alloc: Global, ops: &[Op]) -> OpLog {
    let mut log = OpLog::new(alloc);
    for op in ops {
        holds(rt, "it is pushed", log.push(*op).is_ok());
    }
    log
}

// These come after the first n.
fn has_after(rt: &impl Abort, alloc: Global, log: &OpLog, n: u32, want: &[Op]) {
    assert!(rt; n <= log.len());
    let after = made(rt, log.after(alloc, n));
    let are_same = after.as_slice() == want;
    holds(rt, "those after the first", are_same);
}

// Whether these come first.
fn begins(rt: &impl Abort, log: &OpLog, ops: &[Op], want: bool) {
    same(rt, "what comes first", log.begins_with(ops), want);
}
