//! Transcripts that are legal, and no longer where a byte is another or is missing.
use crate::tests::assertions::{made, same};
use crate::tests::reading::read;
use scan_log::Script;
use std::alloc::Global;
use std::process::Abort;
use transcript_check::{Verdict, check};

// Logs of one caller each, and the one legal transcript of each.
const LEGAL: &[(&'static str, &'static str)] = &[
    (
        "ikdmap 1 voxel 200 large 1500\n@1 add 1 2 3\n@1 near 1 0 0 0\n",
        "@1 ok 1\n@1 near 1 | 0 1 2 3 14\nend 1 live 1 suspended 0\n",
    ),
    (
        "ikdmap 1 voxel 1000 large 1500\n@1 add 200 300 1000 800 300 1000 1500 300 1000\n@1 suspend 0 0 0 1000 500 2000\n@1 near 3 0 0 1000\n@1 thin 500 400 1000\n@1 restore 0 0 0 1000 500 2000\n@1 box 5 0 0 0 1000 1000 2000\nsync\n",
        "@1 ok 1\n@1 ok 2\n@1 near 2 | 2 1500 300 1000 2340000\n@1 ok 3\n@1 ok 4\n@1 box 4 3 | 0 200 300 1000 | 1 800 300 1000 | 3 500 400 1000\nsync 4 live 4 suspended 0\nend 4 live 4 suspended 0\n",
    ),
    (
        "ikdmap 1 voxel 1000000 large 16\n@1 add 1000000000 1000000000 1000000000\n@1 near 1 -1000000000 -1000000000 -1000000000\n",
        "@1 ok 1\n@1 near 1 | 0 1000000000 1000000000 1000000000 12000000000000000000\nend 1 live 1 suspended 0\n",
    ),
    (
        "ikdmap 2 voxel 200 large 1500\n@1 add 2000 0 100 900 2010 40 400 850 1990 0 700 880 1000 -800 900 40\n@1 lonely 5 400\n@1 clusters 5 400\n@1 ball 2 2100 0 0 500\n@1 nears 1 1000 0 500 4000 0 500\n",
        "@1 ok 1\n@1 lonely 1 1 | 3 1000 -800 900 40\n@1 clusters 1 2 | 0 3 | 3 1\n@1 ball 1 4 | 0 2000 0 100 900 | 1 2010 40 400 850\n@1 nears 1 / | 3 1000 -800 900 40 800000 / | 1 2010 40 400 850 3971700\nend 1 live 4 suspended 0\n",
    ),
    (
        "ikdmap 2 voxel 200 large 16\n@1 add 0 0 0 1 -45 0 0 2 45 0 0 3\n@1 pose 100 20 30 0 0 0\n@1 pose 100 20 30 30 0 0\n@1 near 3 0 0 0\n",
        "@1 ok 1\n@1 ok 2\n@1 ok 3\n@1 near 3 | 0 0 0 0 1 0 | 2 45 0 0 3 2025\nend 3 live 2 suspended 0\n",
    ),
];

#[test]
fn no_byte_may_be_another(rt: HostRuntime) {
    let alloc = rt.alloc();
    for &(log, transcript) in LEGAL {
        let script = made(&rt, read(alloc, log.as_bytes()));
        is_legal(&rt, alloc, &script, transcript);
        with_others(&rt, alloc, &script, transcript.as_bytes());
    }
}

fn is_legal(rt: &impl Abort, alloc: Global, script: &Script, text: &str) {
    let found = made(rt, check(alloc, script, text.as_bytes()));
    same(rt, text, found, Verdict::Legal);
}

// With another byte at any place it isn't legal.
fn with_others(rt: &impl Abort, alloc: Global, script: &Script, text: &[u8]) {
    for place in 0..text.len() {
        with_another(rt, alloc, script, text, place);
    }
}

// With another byte at the place it isn't legal.
fn with_another(rt: &impl Abort, alloc: Global, script: &Script, text: &[u8], place: usize) {
    let mut changed = made(rt, text.to_vec(alloc));
    if let Some(byte) = changed.get_mut(place) {
        *byte ^= 1;
    }
    is_not_legal(rt, alloc, script, changed.as_slice());
}

fn is_not_legal(rt: &impl Abort, alloc: Global, script: &Script, text: &[u8]) {
    let found = made(rt, check(alloc, script, text));
    assert!(rt; found != Verdict::Legal, "{text:?}");
}

#[test]
fn no_byte_may_be_missing(rt: HostRuntime) {
    let alloc = rt.alloc();
    for &(log, transcript) in LEGAL {
        let script = made(&rt, read(alloc, log.as_bytes()));
        with_fewer(&rt, alloc, &script, transcript.as_bytes());
    }
}

// No front of it is legal.
fn with_fewer(rt: &impl Abort, alloc: Global, script: &Script, text: &[u8]) {
    for len in 0..text.len() {
        is_not_legal(rt, alloc, script, &text[..len]);
    }
}
