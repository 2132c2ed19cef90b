//! Verdicts of `check` and of the plain map, which must be the same: on the transcript of a drawn log of two callers, whose commands
//! are run in turns although the log has those of the first before those of the second, and on transcripts that differ from it in a
//! byte, in a mark, or in a line.
ghost use Rattle.std.specs.Prelude.{◌<◌, ◌^◌};

use crate::tests::assertions::{made, same};
use mapper_core::serial;
use scan_log::{ParseFault, Script, parse, reply_line};
use std::alloc::Global;
use std::process::Abort;
use transcript_check::{Verdict, check, check_plainly};

const HEADER: &'static str = "ikdmap 2 voxel 4 large 16\n";

// A barrier is behind each stretch of commands.
const STRETCHES: usize = 4;

// How many commands each caller has in a stretch.
const TURNS: usize = 12;

// Numbers that look as if by chance, and are the same at each run.
#[derive(Drop)]
struct Draws {
    state: u64,
    ghost small: { state < 2 ^ 32 },
}

impl Draws {
    // From 0 on and below the bound.
    fn below(&mut self, bound: u64) -> u64
        requires { 0 < bound }
        ensures { result < bound }
    {
        self.state = (self.state * 1_664_525 + 1_013_904_223) % 4_294_967_296;
        self.state / 65_536 % bound
    }

    // A place of a small grid, so that points tie and are equal.
    fn place(&mut self, rt: &impl Abort, alloc: Global) -> String {
        let (x, y, z) = (self.below(16), self.below(8), self.below(4));
        made(rt, format!(in alloc; "{x} {y} {z}"))
    }

    fn cuboid(&mut self, rt: &impl Abort, alloc: Global) -> String {
        let (x, y, z) = (self.below(16), self.below(8), self.below(4));
        let (u, v, w) = (x + self.below(9), y + self.below(9), z + self.below(9));
        made(rt, format!(in alloc; "{x} {y} {z} {u} {v} {w}"))
    }

    // So many points, with intensities.
    fn points(&mut self, rt: &impl Abort, alloc: Global, count: u64) -> String {
        let mut text = String::new(alloc);
        for _ in 0..count {
            let place = self.place(rt, alloc);
            let point = made(rt, format!(in alloc; " {place} {}", self.below(3)));
            made(rt, text.push_str(point.as_str()));
        }
        text
    }

    // A scan: `add` or `thin`.
    fn scan(&mut self, rt: &impl Abort, alloc: Global, word: &str) -> String {
        let count = 1 + self.below(60);
        let points = self.points(rt, alloc, count);
        made(rt, format!(in alloc; "{word}{points}"))
    }

    // An update, or a query of one place or one box.
    fn command(&mut self, rt: &impl Abort, alloc: Global) -> String {
        let k = 1 + self.below(5);
        match self.below(12) {
            0..3 => self.scan(rt, alloc, "thin"),
            3 => self.scan(rt, alloc, "add"),
            4 => made(rt, format!(in alloc; "delete {}", self.cuboid(rt, alloc))),
            5 => made(rt, format!(in alloc; "suspend {}", self.cuboid(rt, alloc))),
            6 => made(rt, format!(in alloc; "restore {}", self.cuboid(rt, alloc))),
            7 => made(rt, format!(in alloc; "near {k} {}", self.place(rt, alloc))),
            8 => made(rt, format!(in alloc; "box {k} {}", self.cuboid(rt, alloc))),
            9 => made(
                rt,
                format!(in alloc; "ball {k} 3 {}", self.place(rt, alloc)),
            ),
            _ => self.rarer(rt, alloc, k),
        }
    }

    // Any other command.
    fn rarer(&mut self, rt: &impl Abort, alloc: Global, k: u64) -> String {
        match self.below(6) {
            0 => made(rt, format!(in alloc; "lonely {k} 2")),
            1 => made(rt, format!(in alloc; "clusters {k} 1")),
            2 => made(rt, format!(in alloc; "expire {}", self.below(200))),
            3 => made(
                rt,
                format!(in alloc; "pose 12 2 3 {}", self.place(rt, alloc)),
            ),
            4 => {
                let place = self.place(rt, alloc);
                made(
                    rt,
                    format!(in alloc; "near {k} {place} within {}", self.below(4)),
                )
            }
            _ => {
                let first = self.place(rt, alloc);
                made(
                    rt,
                    format!(in alloc; "nears {k} {first} {}", self.place(rt, alloc)),
                )
            }
        }
    }
}

// The commands of a caller in a stretch, a line each.
fn lines(rt: &impl Abort, alloc: Global, draws: &mut Draws, caller: u8) -> Vec<String> {
    let mut lines = Vec::new(alloc);
    for _ in 0..TURNS {
        let command = draws.command(rt, alloc);
        let line = made(rt, format!(in alloc; "@{caller} {command}\n"));
        made(rt, lines.push(line));
    }
    lines
}

// A drawn log, twice: `apart` has the first caller's commands before the second's in each stretch, in `turns` they alternate.
#[derive(Drop)]
struct Logs {
    apart: String,
    turns: String,
}

fn drawn_logs(rt: &impl Abort, alloc: Global, seed: u64) -> Logs
    requires { seed < 2 ^ 32 }
{
    let mut draws = Draws { state: seed };
    let mut apart = made(rt, String::from_str(alloc, HEADER));
    let mut turns = made(rt, String::from_str(alloc, HEADER));
    for _ in 0..STRETCHES {
        let first = lines(rt, alloc, &mut draws, 1);
        let second = lines(rt, alloc, &mut draws, 2);
        put_apart(rt, &mut apart, first.as_slice());
        put_apart(rt, &mut apart, second.as_slice());
        put_in_turns(rt, &mut turns, first.as_slice(), second.as_slice());
        made(rt, apart.push_str("sync\n"));
        made(rt, turns.push_str("sync\n"));
    }
    Logs { apart, turns }
}

fn put_apart(rt: &impl Abort, log: &mut String, lines: &[String]) {
    for line in lines {
        made(rt, log.push_str(line.as_str()));
    }
}

fn put_in_turns(rt: &impl Abort, log: &mut String, first: &[String], second: &[String]) {
    for (one, two) in first.iter().zip(second) {
        made(rt, log.push_str(one.as_str()));
        made(rt, log.push_str(two.as_str()));
    }
}

// No log of these tests is longer.
fn read(rt: &impl Abort, alloc: Global, log: &[u8]) -> Script {
    assert!(rt; log.len() < 100_000_000);
    made(rt, parse(alloc, log))
}

// The lines of the replies to a log in which callers take turns.
fn replied(rt: &impl Abort, alloc: Global, script: &Script) -> Vec<Vec<u8>> {
    let replies = made(rt, serial(alloc, script));
    let mut lines = Vec::new(alloc);
    for (command, reply) in script.commands().iter().zip(replies.as_slice()) {
        let mut line = Vec::new(alloc);
        made(
            rt,
            reply_line(&mut line, script.format(), Some(command), reply),
        );
        made(rt, lines.push(line));
    }
    let mut line = Vec::new(alloc);
    if let Some(end) = replies.as_slice().last() {
        made(rt, reply_line(&mut line, script.format(), None, end));
    }
    made(rt, lines.push(line));
    lines
}

// The same lines in the order of the log in which callers are apart.
fn sorted(rt: &impl Abort, alloc: Global, turns: Vec<Vec<u8>>) -> Vec<Vec<u8>> {
    let mut lines = Vec::new(alloc);
    let mut second = Vec::new(alloc);
    for (place, line) in turns.into_iter().enumerate() {
        let in_stretch = place % (2 * TURNS + 1);
        if in_stretch == 2 * TURNS {
            made(rt, lines.append(&mut second));
        }
        if in_stretch % 2 == 1 && in_stretch < 2 * TURNS {
            made(rt, second.push(line));
        } else {
            made(rt, lines.push(line));
        }
    }
    lines
}

fn joined(rt: &impl Abort, alloc: Global, lines: &[Vec<u8>]) -> Vec<u8> {
    let mut text = Vec::new(alloc);
    for line in lines {
        made(rt, text.extend_from_slice(line.as_slice()));
    }
    text
}

// The verdict, which is that by the plain map too.
fn verdict(rt: &impl Abort, alloc: Global, script: &Script, text: &[u8]) -> Verdict {
    let found = made(rt, check(alloc, script, text));
    let plainly = made(rt, check_plainly(alloc, script, text));
    same(rt, "verdict", found, plainly);
    found
}

// Verdicts where another byte is at every 16th place.
fn try_bytes(rt: &impl Abort, alloc: Global, script: &Script, text: &[u8]) {
    for turn in 0..text.len() / 16 {
        let mut changed = made(rt, text.to_vec(alloc));
        if let Some(byte) = changed.get_mut(16 * turn) {
            *byte ^= 1;
        }
        let _ = verdict(rt, alloc, script, changed.as_slice());
    }
}

// The place of the last digit of a line's mark: no word of a reply has a digit, and the caller's is the second byte.
fn mark_end(line: &[u8]) -> usize {
    let mut end = 0;
    for (place, byte) in line.iter().enumerate() {
        if 3 <= place && byte.is_ascii_digit() && (end == 0 || place.wrapping_sub(end) == 1) {
            end = place;
        }
    }
    end
}

// Verdicts where a line has another mark.
fn try_marks(rt: &impl Abort, alloc: Global, script: &Script, lines: &[Vec<u8>]) {
    for place in 0..lines.len() {
        let mut changed = copied(rt, alloc, lines);
        if let Some(line) = changed.get_mut(place) {
            let end = mark_end(line.as_slice());
            if let Some(digit) = line.get_mut(end) {
                *digit ^= 1;
            }
        }
        let text = joined(rt, alloc, changed.as_slice());
        let _ = verdict(rt, alloc, script, text.as_slice());
    }
}

// Verdicts where a line stands where the one behind it should, and where it isn't there.
fn try_lines(rt: &impl Abort, alloc: Global, script: &Script, lines: &[Vec<u8>]) {
    for place in 1..lines.len() {
        let mut changed = copied(rt, alloc, lines);
        if place < changed.len() {
            changed.swap(place - 1, place);
            let text = joined(rt, alloc, changed.as_slice());
            let _ = verdict(rt, alloc, script, text.as_slice());
        }
        if place < changed.len() {
            let _ = changed.remove(place - 1);
            let text = joined(rt, alloc, changed.as_slice());
            let _ = verdict(rt, alloc, script, text.as_slice());
        }
    }
}

fn copied(rt: &impl Abort, alloc: Global, lines: &[Vec<u8>]) -> Vec<Vec<u8>> {
    let mut all = Vec::new(alloc);
    for line in lines {
        let line = made(rt, line.to_vec(alloc));
        made(rt, all.push(line));
    }
    all
}

#[test]
fn the_plain_map_gives_the_same_verdicts(rt: HostRuntime) {
    let alloc = rt.alloc();
    let logs = drawn_logs(&rt, alloc, 1);
    let script = read(&rt, alloc, logs.apart.as_bytes());
    let turns = read(&rt, alloc, logs.turns.as_bytes());
    let lines = sorted(&rt, alloc, replied(&rt, alloc, &turns));
    let text = joined(&rt, alloc, lines.as_slice());
    let found = verdict(&rt, alloc, &script, text.as_slice());
    same(&rt, "verdict", found, Verdict::Legal);
    try_bytes(&rt, alloc, &script, text.as_slice());
    try_marks(&rt, alloc, &script, lines.as_slice());
    try_lines(&rt, alloc, &script, lines.as_slice());
}
