//! Runs, as their users see them.
use crate::tests::assertions::{are_bytes, made, same};
use mapper_core::{MemSink, MemSource, Sink, Source, Status, SureSink, SureSource, run};
use rebuild_worker::{FreeGate, Gate};
use std::alloc::Global;
use std::process::Abort;
use std::sync::Wait;
use std::thread::Threads;

pub const SMALLEST: &'static [u8] =
    b"ikdmap 1 voxel 200 large 1500\n@1 add 1 2 3\n@1 near 1 0 0 0\n";

pub const SMALLEST_OUT: &'static [u8] =
    b"@1 ok 1\n@1 near 1 | 0 1 2 3 14\nend 1 live 1 suspended 0\n";

// How the program ends that is given the words of this line, these streams and this gate.
pub fn ended<R: Threads + Wait + Abort + Sync, I: Source, O: Sink, N: Sink, G: Gate + Sync>(
    rt: &R,
    alloc: Global,
    line: &str,
    log: &mut I,
    out: &mut O,
    notes: &mut N,
    gate: &G,
) -> Status {
    let words = words_of(rt, alloc, line);
    run(rt, alloc, words.as_slice(), log, out, notes, gate)
}

fn words_of(rt: &impl Abort, alloc: Global, line: &str) -> Vec<String> {
    let mut words = Vec::new(alloc);
    for word in line.split_whitespace() {
        let text = made(rt, String::from_str(alloc, word));
        made(rt, words.push(text));
    }
    words
}

// How a log is run with this gate over streams that never fail, and what is written.
pub fn ran<R: Threads + Wait + Abort + Sync, G: Gate + Sync>(
    rt: &R,
    alloc: Global,
    log: &[u8],
    gate: &G,
) -> (Status, SureSink) {
    let mut source = SureSource::new(made(rt, log.to_vec(alloc)));
    let mut out = SureSink::new(alloc);
    let mut notes = SureSink::new(alloc);
    let status = ended(rt, alloc, "run", &mut source, &mut out, &mut notes, gate);
    (status, out)
}

// How the program ends that is given the words of this line and these streams, and what it notes.
pub fn ends<R: Threads + Wait + Abort + Sync, I: Source, O: Sink>(
    rt: &R,
    alloc: Global,
    line: &str,
    log: &mut I,
    out: &mut O,
    want: Status,
    note: &str,
) {
    let mut notes = SureSink::new(alloc);
    let status = ended(rt, alloc, line, log, out, &mut notes, &FreeGate);
    same(rt, "the status", status, want);
    are_bytes(rt, "the notes", notes.bytes(), note.as_bytes());
}

// A source in memory that gives these bytes in these pieces, and fails at this call.
pub fn failing_source(
    rt: &impl Abort,
    alloc: Global,
    bytes: &[u8],
    piece: usize,
    failing: u32,
) -> MemSource {
    assert!(rt; 1 <= piece);
    let failing = made(rt, [failing].to_vec(alloc));
    MemSource::new(made(rt, bytes.to_vec(alloc)), piece, failing)
}

// A sink in memory that takes these pieces, and fails at this call.
pub fn failing_sink(rt: &impl Abort, alloc: Global, piece: usize, failing: u32) -> MemSink {
    assert!(rt; 1 <= piece);
    let failing = made(rt, [failing].to_vec(alloc));
    MemSink::new(alloc, piece, failing)
}
