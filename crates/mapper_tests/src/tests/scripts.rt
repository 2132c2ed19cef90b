//! A script is run and kept: the program gives its own away, and so calls neither of these.
use crate::tests::assertions::{are_bytes, made};
use mapper_core::{Replies, serial, threaded};
use rebuild_worker::FreeGate;
use scan_log::{Script, parse, reply_line};
use std::alloc::Global;
use std::process::Abort;

const POSES: &'static [u8] = b"ikdmap 2 voxel 200 large 16
@1 add 0 0 0 1 -45 0 0 2
@1 pose 100 20 30 0 0 0
@1 pose 100 20 30 30 0 0
";

const POSES_OUT: &'static [u8] = b"@1 ok 1\n@1 ok 2\n@1 ok 3\nend 3 live 1 suspended 0\n";

// The lines of the replies to a script.
fn told(rt: &impl Abort, alloc: Global, script: &Script, replies: &Replies) -> Vec<u8> {
    let mut out = Vec::new(alloc);
    let format = script.format();
    for (command, reply) in script.commands().iter().zip(replies.as_slice()) {
        made(rt, reply_line(&mut out, format, Some(command), reply));
    }
    if let Some(end) = replies.as_slice().last() {
        made(rt, reply_line(&mut out, format, None, end));
    }
    out
}

#[test]
fn a_script_is_run_with_its_poses_and_kept(rt: HostRuntime) {
    let alloc = rt.alloc();
    let script = made(&rt, parse(alloc, POSES));
    let in_order = made(&rt, serial(alloc, &script));
    are_told(&rt, alloc, &script, in_order);
    let side_by_side = made(&rt, threaded(&rt, alloc, &script, &FreeGate));
    are_told(&rt, alloc, &script, side_by_side);
}

// The lines of these replies are those that stand above.
fn are_told(rt: &impl Abort, alloc: Global, script: &Script, replies: Replies) {
    let out = told(rt, alloc, script, &replies);
    are_bytes(rt, "the transcript", out.as_slice(), POSES_OUT);
}
