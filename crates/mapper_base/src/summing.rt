//! The line of a run's sums.
ghost use Rattle.std.specs.Prelude.{◌≡◌, ◌++◌, decimal, IfOk, OnOk};
ghost use Rattle.scan_log.specs.Scripts.{points_of};
ghost use Rattle.mapper_base.specs.Summary.{held_at_end, hits_in, hits_in_reply, sum_text, summary_text};

use itoa::Buffer;
use map_items::NoMemory;
use scan_log::{PlainScript, Reply};
use std::alloc::Global;

/// The line of a run of `scans` scans: its commands, the points submitted, the live and the suspended ones at the end, and the hits
/// of all single searches.
pub fn summary(
    alloc: Global,
    scans: u32,
    script: &PlainScript,
    replies: &[Reply],
) -> Result<Vec<u8>, NoMemory>
    ensures { IfOk result (λ v. v.items ≡ summary_text scans script.now replies.now) }
{
    let held = held_at_end(replies);
    let mut line = Vec::new(alloc);
    put_sum(&mut line, b"drive ", scans as u128)?;
    put_sum(&mut line, b" commands ", script.commands().len() as u128)?;
    put_sum(&mut line, b" points ", points_in(script) as u128)?;
    put_sum(&mut line, b" live ", held.live as u128)?;
    put_sum(&mut line, b" suspended ", held.suspended as u128)?;
    put_sum(&mut line, b" hits ", hits_in(replies))?;
    line.push(b'\n')?;
    Ok(line)
}

fn put_sum(line: &mut Vec<u8>, word: &[u8], sum: u128) -> Result<(), NoMemory>
    ensures { OnOk result (line.new.items ≡ line.old.items ++ sum_text word.now sum) }
{
    let mut number = Buffer::new();
    line.extend_from_slice(word)?;
    line.extend_from_slice(number.format(sum).as_bytes())?;
    Ok(())
}

fn points_in(script: &PlainScript) -> usize
    ensures { result ≡ points_of script.now.commands }
{
    let mut points = 0;
    for command in script.commands() {
        points += command.points();
    }
    points
}

// Live and suspended points.
#[derive(Clone, Copy)]
struct Counted {
    live: u32,
    suspended: u32,
}

// The last reply has them.
fn held_at_end(replies: &[Reply]) -> Counted
    ensures live { result.live ≡ (held_at_end replies.now).live }
    ensures suspended { result.suspended ≡ (held_at_end replies.now).suspended }
{
    match replies.last() {
        Some(
            Reply::Totals {
                live,
                suspended,
                ..
            },
        ) => Counted {
            live: *live,
            suspended: *suspended,
        },
        _ => Counted {
            live: 0,
            suspended: 0,
        },
    }
}

// No sum of lengths reaches 2^128.
fn hits_in(replies: &[Reply]) -> u128
    ensures { result ≡ hits_in replies.now }
{
    let mut hits = 0;
    for reply in replies {
        hits += hits_of(reply) as u128;
    }
    hits
}

fn hits_of(reply: &Reply) -> usize
    ensures { result ≡ hits_in_reply reply.now }
{
    match reply {
        Reply::Near(found) => found.hits.len(),
        _ => 0,
    }
}
