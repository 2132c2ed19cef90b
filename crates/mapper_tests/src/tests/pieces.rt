//! Streams that move a byte at a time.
use crate::tests::assertions::{are_bytes, made};
use crate::tests::runs::{ends, ran};
use mapper_core::{MemSink, MemSource, Status};
use rebuild_worker::FreeGate;
use std::alloc::Global;
use std::process::Abort;
use std::sync::Wait;
use std::thread::Threads;

// What these logs give stands in runs/, and is compared there.
#[test]
fn a_byte_at_a_time_gives_the_same(rt: HostRuntime) {
    for &(large, commands) in &[
        ("1500", "@1 add 1 2 3\n@1 near 1 0 0 0\n"),
        ("1500", ""),
        (
            "1500",
            "@1 near 5 0 0 0\n@1 add 10 0 0 0 0 -3\n@1 near 5 0 0 0\n",
        ),
        ("1500", "@1 add 5 0 0 0 5 0 0 0 5\n@1 near 2 0 0 0\n"),
        ("1500", "@1 add 7 7 7 7 7 7\n@1 near 1 7 7 7\n"),
        (
            "1500",
            "@1 add 1000000000 1000000000 1000000000\n@1 near 1 -1000000000 -1000000000 -1000000000\n",
        ),
        (
            "16",
            "@1 add 1 0 0 2 0 0 3 0 0\n@1 delete 1 0 0 2 1 1\n@1 restore 0 0 0 9 9 9\n@1 suspend 0 0 0 9 9 9\n@1 near 3 0 0 0\nsync\n@1 restore 3 0 0 4 1 1\n@1 near 3 0 0 0\n",
        ),
        (
            "1500",
            "@1 add 1 2 3 1 2 3 1 2 4\n@1 erase 1 2 3\n@1 box 5 0 0 0 9 9 9\n",
        ),
        (
            "1500",
            "@1 add 0 0 0 9 0 0\n@1 box 5 0 0 0 0 9 9\n@1 box 5 0 0 0 9 9 9\n@1 box 1 0 0 0 10 9 9\n",
        ),
        (
            "1500",
            "@1 add 3 4 0 6 0 0\n@1 near 3 0 0 0 within 5\n@1 near 3 0 0 0 within 0\n",
        ),
        (
            "1500",
            "@1 add 5 0 0\nsync\n@2 add 1 0 0\nsync\n@1 near 1 0 0 0\n@2 near 1 0 0 0\n@3 near 1 0 0 0\n",
        ),
        ("1500", "@1 add 1 2 3"),
    ] {
        is_alike(&rt, rt.alloc(), large, commands);
    }
}

// The log of these commands gives the same either way.
fn is_alike<R: Threads + Wait + Abort + Sync>(rt: &R, alloc: Global, large: &str, commands: &str) {
    let log = made(
        rt,
        format!(in alloc; "ikdmap 1 voxel 200 large {large}\n{commands}"),
    );
    let (_, whole) = ran(rt, alloc, log.as_bytes(), &FreeGate);
    let out = in_bytes(rt, alloc, log.as_bytes());
    are_bytes(rt, commands, out.bytes(), whole.bytes());
}

// What is written where each byte moves alone.
fn in_bytes<R: Threads + Wait + Abort + Sync>(rt: &R, alloc: Global, log: &[u8]) -> MemSink {
    let mut source = MemSource::new(made(rt, log.to_vec(alloc)), 1, Vec::new(alloc));
    let mut out = MemSink::new(alloc, 1, Vec::new(alloc));
    ends(rt, alloc, "run", &mut source, &mut out, Status::Done, "");
    out
}
