//! Poses, by hand.
use crate::tests::assertions::{made, same};
use crate::tests::reading::{WIDE_HEADER, read};
use crate::tests::written::{is_told, is_written_as};
use map_fold::Update;
use scan_log::{Command, PlainScript, Reply, Script};
use std::alloc::Global;
use std::process::Abort;

#[test]
fn a_pose_is_written_as_it_was_read_and_told_by_its_place(rt: HostRuntime) {
    let alloc = rt.alloc();
    let done = Reply::Done { mark: 3 };
    let pose = b"@7 pose 100 20 30 1 -2 3";
    is_told(&rt, alloc, WIDE_HEADER, pose, done, b"@7 ok 3\n");
    let log = b"ikdmap 2 voxel 200 large 1500\n@7 pose 100 20 30 1 -2 3\n".as_slice();
    let script = made(&rt, read(alloc, log));
    same(&rt, "commands", script.commands().len(), 1);
    is_written_as(&rt, alloc, &script, log);
}

// What each command of the script that is run deletes.
fn deletions(rt: &impl Abort, alloc: Global, script: &Script) -> Vec<usize> {
    let plain = made(rt, PlainScript::copied(alloc, script));
    let mut counts = Vec::new(alloc);
    for command in plain.commands() {
        made(rt, counts.push(deleted(command)));
    }
    counts
}

// How many boxes it deletes, or 9 where it is no deletion.
fn deleted(command: &Command) -> usize {
    match command {
        Command::Change {
            update: Update::Delete(boxes),
            ..
        } => boxes.len(),
        _ => 9,
    }
}

#[test]
fn each_caller_has_a_region_of_its_own(rt: HostRuntime) {
    let alloc = rt.alloc();
    let log = b"ikdmap 2 voxel 200 large 1500\n\
                @1 pose 100 20 30 0 0 0\n\
                @2 pose 100 20 30 30 0 0\n\
                @1 pose 100 20 30 30 0 0\n\
                @1 pose 100 20 30 30 0 0\n\
                @2 pose 100 20 30 60 30 30\n\
                @2 pose 100 20 31 90 0 0\n\
                @2 pose 100 20 31 120 0 0\n\
                sync\n"
        .as_slice();
    let script = made(&rt, read(alloc, log));
    let counts = deletions(&rt, alloc, &script);
    assert!(rt; counts.as_slice() == [0, 0, 1, 0, 3, 0, 1, 9].as_slice());
}
