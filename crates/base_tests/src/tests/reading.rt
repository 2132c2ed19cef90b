//! Logs and lines, by hand.
use crate::tests::assertions::{are_bytes, holds, made, same};
use crate::tests::hits::one_hit;
use map_fold::{NearReply, Settings};
use point_geom::Point;
use scan_log::{Command, Format, ParseFault, Reply, Script, parse, reply_line};
use std::alloc::Global;
use std::process::Abort;

/// The header of version 1.
pub const HEADER: &[u8] = b"ikdmap 1 voxel 200 large 1500\n";

/// That of version 2.
pub const WIDE_HEADER: &[u8] = b"ikdmap 2 voxel 200 large 1500\n";

pub fn log_with(rt: &impl Abort, alloc: Global, header: &[u8], lines: &[u8]) -> Vec<u8> {
    let mut log = made(rt, Vec::from_slice(alloc, header));
    made(rt, log.extend_from_slice(lines));
    log
}

// No log of these tests is longer.
pub fn read(alloc: Global, log: &[u8]) -> Result<Script, ParseFault> {
    if log.len() > 100_000_000 {
        return Err(ParseFault::NoMemory);
    }
    parse(alloc, log)
}

// The script of the log of this header and these lines.
pub fn read_with(rt: &impl Abort, alloc: Global, header: &[u8], lines: &[u8]) -> Script {
    let log = log_with(rt, alloc, header, lines);
    made(rt, read(alloc, log.as_slice()))
}

#[test]
fn the_smallest_run_is_read_and_told(rt: HostRuntime) {
    let alloc = rt.alloc();
    let script = read_with(&rt, alloc, HEADER, b"@1 add 1 2 3\n@1 near 1 0 0 0\n");
    let are_set = script.settings() == &Settings::new(200, 1500);
    holds(&rt, "the settings", are_set);
    let [add, near] = script.commands() else {
        panic!(rt; "not two commands");
    };
    same(&rt, "points of the scan", add.points(), 1);
    same(&rt, "points of the search", near.points(), 0);
    let out = told(&rt, alloc, add, near);
    let want = b"@1 ok 1\n@1 near 1 | 0 1 2 3 14\nend 1 live 1 suspended 0\n";
    are_bytes(&rt, out.as_slice(), want);
}

// What the run writes. A reply to no command is none of its lines.
fn told(rt: &impl Abort, alloc: Global, add: &Command, near: &Command) -> Vec<u8> {
    let point = made(rt, Point::new(1, 2, 3));
    let hits = one_hit(rt, alloc, 0, point, 14);
    let found = Reply::Near(NearReply { mark: 1, hits });
    let totals = Reply::Totals {
        mark: 1,
        live: 1,
        suspended: 0,
    };
    let mut out = Vec::new(alloc);
    let done = Reply::Done { mark: 1 };
    tell(rt, &mut out, Some(add), &done);
    tell(rt, &mut out, Some(near), &found);
    tell(rt, &mut out, None, &totals);
    tell(rt, &mut out, None, &found);
    out
}

fn tell(rt: &impl Abort, out: &mut Vec<u8>, command: Option<&Command>, reply: &Reply) {
    made(rt, reply_line(out, Format::One, command, reply));
}

#[test]
fn a_script_holds_what_was_pushed(rt: HostRuntime) {
    let point = made(&rt, Point::new(1, -2, 3));
    let mut script = Script::new(rt.alloc(), Format::One, Settings::new(1, 16));
    let near = Command::Near {
        caller: 8,
        k: 256,
        point,
        within: Some(4_000_000_000),
    };
    made(&rt, script.push(near));
    same(&rt, "commands", script.commands().len(), 1);
    same(&rt, "the format", script.format(), Format::One);
}
