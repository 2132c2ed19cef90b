//! The history of a map, as a log.
ghost use Rattle.std.specs.Prelude.{◌≡◌, ◌≢◌, ◌<◌, ◌≤◌, IfErr, IfOk, None, Some, length, take};
ghost use Rattle.rebuild_core.specs.Lawful.{StateAt};
ghost use Rattle.history_log.specs.Log.{IsStop};
ghost use Rattle.map_c.specs.{Answers.{IsTold}, Logged.{IsLogRefusal, IsLogged, IsPart, stop_code}, Status.{done}};

use crate::{Content, DONE, Handle, Refusal};
use history_log::{LogPart, Stop, history_lines};
use std::alloc::Global;

/// Writes the lines of the log of version 2 of the map's updates from number `from` on, as far as there is room, how many bytes
/// they are, and the number of the first update that isn't written.
#[unsafe(no_mangle)]
pub extern "C" fn corv_map_log(
    alloc: Global,
    map: &mut Handle,
    from: u64,
    bytes: &mut [u8],
    count: &mut usize,
    next: &mut u64,
) -> i32
    ensures told { IsTold (IsLogged map.old.held.content from (length bytes.old) bytes.new count.new next.new) (IsLogRefusal map.old.held.content from (length bytes.old))
        map.old.held.content map.new.held.content count.new result }
    ensures stays { result ≢ done → next.new ≡ from }
{
    *count = 0;
    *next = from;
    let Some(content) = map.take(alloc) else {
        return Refusal::Empty.status();
    };
    let written = write_log(alloc, &content, from as usize, bytes);
    *map = Handle::of(content);
    match written {
        Err(status) => status,
        Ok((n, to)) => {
            *count = n;
            *next = to as u64;
            DONE
        }
    }
}

fn write_log(
    alloc: Global,
    content: &Content,
    from: usize,
    bytes: &mut [u8],
) -> Result<(usize, usize), i32>
    ensures written { IfOk result (λ end. IsLogged (Some content.now) from (length bytes.old) bytes.new end.0 end.1) }
    ensures refused { IfErr result (IsLogRefusal (Some content.now) from (length bytes.old)) }
    ensures not_done { IfErr result (λ s. s ≢ done) }
{
    let part = part_from(alloc, content, from, bytes.len())?;
    let n = write_all(part.bytes.as_slice(), bytes);
    Ok((n, part.next))
}

// Refuses where the part would end before its first update.
fn part_from(alloc: Global, content: &Content, from: usize, room: usize) -> Result<LogPart, i32>
    ensures part { IfOk result (λ part. IsPart (Some content.now) from room part.bytes.items part.next) }
    ensures refused { IfErr result (IsLogRefusal (Some content.now) from room) }
    ensures not_done { IfErr result (λ s. s ≢ done) }
{
    let Content::Map(kept) = content else {
        return Err(Refusal::Empty.status());
    };
    if kept.state.history().len() < from {
        return Err(Refusal::BadNumber.status());
    }
    let Ok(part) = history_lines(alloc, &kept.state, from, room) else {
        return Err(Refusal::NoMemory.status());
    };
    match part.stop {
        Some(stop) if part.next == from => Err(status_of_stop(stop)),
        _ => Ok(part),
    }
}

// Writes them at the front, and returns how many they are.
fn write_all(part: &[u8], bytes: &mut [u8]) -> usize
    requires { length part.now ≤ length bytes.old }
    ensures count { result ≡ length part.now }
    ensures written { take result bytes.new ≡ part.now }
{
    let n = part.len();
    for i in 0..n {
        bytes[i] = part[i];
    }
    n
}

fn status_of_stop(stop: Stop) -> i32
    ensures code { result ≡ stop_code stop }
    ensures not_done { result ≢ done }
{
    match stop {
        Stop::NoLine => 13,
        Stop::TooManyUpdates => Refusal::TooManyUpdates.status(),
        Stop::NoRoom => Refusal::NoRoom.status(),
    }
}
