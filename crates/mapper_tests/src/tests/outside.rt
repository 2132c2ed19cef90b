//! What the outside may do.
use crate::tests::assertions::{are_bytes, made, same};
use crate::tests::runs::{SMALLEST, SMALLEST_OUT, ended, ends, failing_sink, failing_source};
use mapper_core::{Sink, Source, Status, SureSink, SureSource};
use rebuild_worker::FreeGate;
use std::alloc::Global;
use std::process::Abort;
use std::sync::Wait;
use std::thread::Threads;

#[test]
fn a_failing_call_of_the_outside_ends_the_run(rt: HostRuntime) {
    // The piece and the failing call of the log, and those of out; how much of the transcript stands in out then.
    for &(read, write, want, written, note) in &[
        ((8, 0), (10, 0), Status::Done, 56, ""),
        ((8, 1), (10, 0), Status::ReadFault, 0, "read fault\n"),
        ((8, 2), (10, 0), Status::ReadFault, 0, "read fault\n"),
        ((8, 0), (10, 1), Status::WriteFault, 0, "write fault\n"),
        ((8, 0), (10, 2), Status::WriteFault, 10, "write fault\n"),
        // 59 reads give all bytes, and one more their end.
        ((1, 60), (10, 0), Status::ReadFault, 0, "read fault\n"),
        ((1, 61), (10, 0), Status::Done, 56, ""),
        ((8, 0), (1, 1), Status::WriteFault, 0, "write fault\n"),
        ((8, 0), (1, 56), Status::WriteFault, 55, "write fault\n"),
        ((8, 0), (1, 57), Status::Done, 56, ""),
        // A read comes before any write.
        ((8, 1), (10, 1), Status::ReadFault, 0, "read fault\n"),
    ] {
        run_ends(&rt, rt.alloc(), read, write, want, written, note);
    }
}

// Over such streams the run ends so.
fn run_ends<R: Threads + Wait + Abort + Sync>(
    rt: &R,
    alloc: Global,
    (read_piece, failing_read): (usize, u32),
    (write_piece, failing_write): (usize, u32),
    want: Status,
    written: usize,
    note: &str,
) {
    let mut log = failing_source(rt, alloc, SMALLEST, read_piece, failing_read);
    let mut out = failing_sink(rt, alloc, write_piece, failing_write);
    ends(rt, alloc, "run", &mut log, &mut out, want, note);
    let front = SMALLEST_OUT.get(..written);
    same(rt, "the transcript", Some(out.bytes()), front);
}

#[test]
fn a_failing_call_of_the_outside_ends_a_check(rt: HostRuntime) {
    let alloc = rt.alloc();
    let mut input = made(&rt, SMALLEST.to_vec(alloc));
    made(&rt, input.extend_from_slice(SMALLEST_OUT));
    let input = input.as_slice();
    check_ends(&rt, alloc, input, (0, 0), Status::Done, b"legal\n", "");
    // Behind the log it is read as far as before.
    let note = "read fault\n";
    check_ends(&rt, alloc, input, (9, 0), Status::ReadFault, b"", note);
    let note = "write fault\n";
    check_ends(&rt, alloc, input, (0, 2), Status::WriteFault, b"leg", note);
}

// Where these calls of the input and of out fail, the check ends so.
fn check_ends<R: Threads + Wait + Abort + Sync>(
    rt: &R,
    alloc: Global,
    input: &[u8],
    (failing_read, failing_write): (u32, u32),
    want: Status,
    told: &[u8],
    note: &str,
) {
    let mut source = failing_source(rt, alloc, input, 8, failing_read);
    let mut out = failing_sink(rt, alloc, 3, failing_write);
    ends(rt, alloc, "check 59", &mut source, &mut out, want, note);
    are_bytes(rt, "the verdict", out.bytes(), told);
}

#[test]
fn a_fault_of_notes_does_not_change_the_status(rt: HostRuntime) {
    for &(line, piece, failing, want, note) in &[
        ("run", 10, 1, Status::BadLog, ""),
        ("run", 10, 2, Status::BadLog, "line 2: ou"),
        ("run fast", 7, 2, Status::Usage, "usage: "),
    ] {
        is_noted(&rt, rt.alloc(), line, (piece, failing), want, note);
    }
}

// Where notes take such pieces and fail at this call, the run of a bad log ends so.
fn is_noted<R: Threads + Wait + Abort + Sync>(
    rt: &R,
    alloc: Global,
    line: &str,
    (piece, failing): (usize, u32),
    want: Status,
    note: &str,
) {
    let log = b"ikdmap 1 voxel 200 large 1500\n@1 add 1000000001 0 0\n".as_slice();
    let mut notes = failing_sink(rt, alloc, piece, failing);
    let mut log = SureSource::new(made(rt, log.to_vec(alloc)));
    let mut out = SureSink::new(alloc);
    let status = ended(rt, alloc, line, &mut log, &mut out, &mut notes, &FreeGate);
    same(rt, "the status", status, want);
    are_bytes(rt, "out", out.bytes(), b"");
    are_bytes(rt, "the notes", notes.bytes(), note.as_bytes());
}

#[test]
fn a_piece_is_the_most_that_a_call_moves(rt: HostRuntime) {
    let alloc = rt.alloc();
    let mut source = failing_source(&rt, alloc, SMALLEST, 8, 2);
    let mut sink = failing_sink(&rt, alloc, 10, 2);
    let mut buf = [0; 100];
    for &(read, written) in &[(Some(8), Some(10)), (None, None), (Some(8), Some(10))] {
        same(&rt, "read", source.read(&mut buf).ok(), read);
        same(&rt, "written", sink.write(SMALLEST_OUT).ok(), written);
    }
}
