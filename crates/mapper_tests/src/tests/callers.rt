//! Runs of several callers, and what gates show of their threads.
use crate::tests::assertions::{are_bytes, holds, made, same};
use crate::tests::runs::ran;
use mapper_core::{Status, SureSink};
use rebuild_worker::{Gate, HoldGate, MeetGate};
use std::alloc::Global;
use std::process::Abort;
use std::sync::Wait;
use std::sync::atomic::{AtomicBool, AtomicU64, Ordering};
use std::thread::{Threads, yield_now};

// How long a gate waits.
const TURNS: u64 = 20_000_000;

// A count that rises to what others wait for, but not for ever.
#[derive(Drop)]
struct Awaited {
    reached: AtomicU64,
    missed: AtomicBool,
}

impl Awaited {
    fn new() -> Awaited {
        Awaited {
            reached: AtomicU64::new(0),
            missed: AtomicBool::new(false),
        }
    }

    fn reached(&self) -> u64 {
        self.reached.load(Ordering::SeqCst)
    }

    fn is_missed(&self) -> bool {
        self.missed.load(Ordering::SeqCst)
    }

    // Waits until it is so high. Who waits in vain once is waited for no more.
    fn wait(&self, least: u64) {
        for _ in 0..TURNS {
            if self.is_missed() || least <= self.reached() {
                return;
            }
            yield_now();
        }
        self.missed.store(true, Ordering::SeqCst);
    }
}

// It holds one build up until the next begins, and a caller after each of three commands until its build begins.
#[derive(Drop)]
struct TwoBuilds {
    // The ticket of the build that is held up.
    held: u64,
    // The ticket of the last build that began.
    begun: Awaited,
}

impl Gate for TwoBuilds {
    fn before_build(&self, ticket: u64) {
        self.begun.reached.store(ticket, Ordering::SeqCst);
        if ticket == self.held {
            self.begun.wait(ticket.saturating_add(1));
        }
    }

    fn replied(&self, _caller: u8, index: u32) {
        match index {
            0 => self.begun.wait(1),
            2 => self.begun.wait(2),
            3 => self.begun.wait(3),
            _ => {}
        }
    }
}

// The front of a log: forty points in a row, which leave the tree in breach.
const FORTY: &str = "ikdmap 1 voxel 200 large 16\n\
    @1 add 1 0 0 2 0 0 3 0 0 4 0 0 5 0 0 6 0 0 7 0 0 8 0 0 9 0 0 10 0 0 \
    11 0 0 12 0 0 13 0 0 14 0 0 15 0 0 16 0 0 17 0 0 18 0 0 19 0 0 20 0 0 \
    21 0 0 22 0 0 23 0 0 24 0 0 25 0 0 26 0 0 27 0 0 28 0 0 29 0 0 30 0 0 \
    31 0 0 32 0 0 33 0 0 34 0 0 35 0 0 36 0 0 37 0 0 38 0 0 39 0 0 40 0 0\n";

// The log of these lines behind that front.
fn after_forty(rt: &impl Abort, alloc: Global, rest: &str) -> String {
    let mut log = made(rt, String::from_str(alloc, FORTY));
    made(rt, log.push_str(rest));
    log
}

// The log is run to its end with this gate, and this is written.
fn done<R: Threads + Wait + Abort + Sync, G: Gate + Sync>(
    rt: &R,
    alloc: Global,
    log: &str,
    gate: &G,
) -> SureSink {
    let (status, out) = ran(rt, alloc, log.as_bytes(), gate);
    same(rt, "the status", status, Status::Done);
    out
}

// A build of the forty points begins, and is held until both later commands are replied to.
#[test]
fn callers_go_on_while_a_build_is_held(rt: HostRuntime) {
    let alloc = rt.alloc();
    let log = after_forty(&rt, alloc, "@1 add 100 0 0\n@1 near 1 0 0 0\n");
    let gate = HoldGate::new(0, 2, TURNS);
    let out = done(&rt, alloc, log.as_str(), &gate);
    holds(&rt, "the build was held", gate.held());
    let want = b"@1 ok 1\n@1 ok 2\n@1 near 2 | 0 1 0 0 1\nend 2 live 41 suspended 0\n";
    are_bytes(&rt, "the transcript", out.bytes(), want);
}

// Caller 1 goes on from its first query only once caller 2's update is replied to, and so reads it by the second.
#[test]
fn callers_run_beside_each_other(rt: HostRuntime) {
    let log = "ikdmap 1 voxel 200 large 1500\n\
               @1 near 1 0 0 0\n\
               @1 near 1 0 0 0\n\
               @1 add 100 0 0\n\
               @2 add 1 0 0\n";
    let gate = MeetGate::new(0, 3, TURNS);
    let out = done(&rt, rt.alloc(), log, &gate);
    holds(&rt, "they met", gate.held());
    let rest = "@1 near 1 | 0 1 0 0 1\n@1 ok 2\n@2 ok 1\nend 2 live 2 suspended 0\n";
    holds(&rt, "the end", out.bytes().ends_with(rest.as_bytes()));
}

// It looks whether each command is told under the caller that the script names for it, and holds a caller up after its reply until so
// many were told.
#[derive(Drop)]
struct Replies {
    callers: Vec<u8>,
    held_to: u64,
    told: Awaited,
    misnamed: AtomicBool,
}

impl Gate for Replies {
    fn before_build(&self, _ticket: u64) {}

    fn replied(&self, caller: u8, index: u32) {
        self.told.reached.fetch_add(1, Ordering::SeqCst);
        if self.callers.as_slice().get(index as usize) != Some(&caller) {
            self.misnamed.store(true, Ordering::SeqCst);
        }
        self.told.wait(self.held_to);
    }
}

// The log's commands are replied to under these callers, each held up until so many were, and this is written.
fn replied<R: Threads + Wait + Abort + Sync>(
    rt: &R,
    alloc: Global,
    log: &str,
    callers: &[u8],
    held_to: u64,
) -> SureSink {
    let gate = Replies {
        callers: made(rt, callers.to_vec(alloc)),
        held_to,
        told: Awaited::new(),
        misnamed: AtomicBool::new(false),
    };
    let out = done(rt, alloc, log, &gate);
    holds(rt, "all came", !gate.told.is_missed());
    same(rt, "replies", gate.told.reached(), callers.len() as u64);
    let is_misnamed = gate.misnamed.load(Ordering::SeqCst);
    holds(rt, "each under its caller", !is_misnamed);
    out
}

#[test]
fn each_of_eight_callers_has_a_thread_of_its_own(rt: HostRuntime) {
    let log = "ikdmap 1 voxel 200 large 1500\n\
               @1 near 1 0 0 0\n@2 near 1 0 0 0\n@3 near 1 0 0 0\n@4 near 1 0 0 0\n\
               @5 near 1 0 0 0\n@6 near 1 0 0 0\n@7 near 1 0 0 0\n@8 near 1 0 0 0\n";
    let callers = [1, 2, 3, 4, 5, 6, 7, 8];
    let out = replied(&rt, rt.alloc(), log, &callers, 8);
    let want = b"@1 near 0\n@2 near 0\n@3 near 0\n@4 near 0\n\
                 @5 near 0\n@6 near 0\n@7 near 0\n@8 near 0\nend 0 live 0 suspended 0\n";
    are_bytes(&rt, "the transcript", out.bytes(), want);
}

#[test]
fn a_gate_is_told_of_the_caller_that_was_replied_to(rt: HostRuntime) {
    let log = "ikdmap 1 voxel 200 large 1500\n\
               @3 add 1 0 0\n\
               @8 near 1 0 0 0\n\
               @1 add 2 0 0\n\
               @3 near 1 0 0 0\n";
    let _ = replied(&rt, rt.alloc(), log, &[3, 8, 1, 3], 0);
}

// After forty points and a barrier, where the tree is balanced, one build is held up until the last begins, and each command that
// waits for a build sees it begin.
#[test]
fn neither_a_build_nor_a_barrier_waits_for_a_build(rt: HostRuntime) {
    // Two workers build beside each other: each of these updates leaves one of the top's children in breach.
    let rest = "sync\n\
                @1 add 41 0 0 42 0 0 43 0 0 44 0 0\n\
                @1 add 0 0 0 -1 0 0 -2 0 0 -3 0 0 -4 0 0\n";
    let want =
        b"@1 ok 1\nsync 1 live 40 suspended 0\n@1 ok 2\n@1 ok 3\nend 3 live 49 suspended 0\n";
    none_waits(&rt, rt.alloc(), rest, 2, 3, want);
    // The first build, of the whole tree, is held until the second begins. Nothing beside the whole tree can be built, so the
    // barrier has rebuilt it itself.
    let rest = "sync\n@1 add 41 0 0 42 0 0 43 0 0 44 0 0\n";
    let want = b"@1 ok 1\nsync 1 live 40 suspended 0\n@1 ok 2\nend 2 live 44 suspended 0\n";
    none_waits(&rt, rt.alloc(), rest, 1, 2, want);
}

// The build of the first ticket is held up until that of the last begins.
fn none_waits<R: Threads + Wait + Abort + Sync>(
    rt: &R,
    alloc: Global,
    rest: &str,
    held: u64,
    last: u64,
    want: &[u8],
) {
    let log = after_forty(rt, alloc, rest);
    let gate = TwoBuilds {
        held,
        begun: Awaited::new(),
    };
    let out = done(rt, alloc, log.as_str(), &gate);
    holds(rt, "none was missed", !gate.begun.is_missed());
    same(rt, "the last", gate.begun.reached(), last);
    are_bytes(rt, "the transcript", out.bytes(), want);
}
