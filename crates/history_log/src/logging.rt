//! The log of a history, whole and in parts.
ghost use Rattle.std.specs.Prelude.{◌≡◌, ◌<◌, ◌≤◌, IfErr, IfOk, OnOk, length};
ghost use Rattle.map_items.specs.Fold.{fold};
ghost use Rattle.kd_tree.specs.Maps.{map_of};
ghost use Rattle.scan_log.specs.{Commands.{updates_made}, Spelling.{Spells}, Written.{script_text}};
ghost use Rattle.history_log.specs.Log.{AreLines, AreWhole, EndsThere, IsLogFault, JoinInTurn, StayWritten, fault_of, header_text, log_part, script_of};

use crate::counting::lines_in;
use crate::parts::line_count;
use crate::putting::put_entry;
use crate::{LogFault, LogPart, Stop};
use map_items::{NoMemory, Settings};
use rebuild_core::MapState;
use scan_log::{Format, write_header};
use std::alloc::Global;

/// The log of version 2 from this update on: the header before the first update, then the lines of as many whole updates as fit
/// into `room` bytes. Costs time by what is written and by the next update's lines, and counts the lines of all updates before.
pub fn history_lines(
    alloc: Global,
    state: &MapState,
    from: usize,
    room: usize,
) -> Result<LogPart, NoMemory>
    requires from { from ≤ length state.now.state.history }
    ensures text { IfOk result (λ part. part.bytes.items ≡ log_part state.now.state from part.next) }
    ensures from { IfOk result (λ part. from ≤ part.next) }
    ensures to { IfOk result (λ part. part.next ≤ length state.now.state.history) }
    ensures room { IfOk result (λ part. length part.bytes.items ≤ room) }
    ensures lines { IfOk result (λ part. from < part.next → AreLines state.now.state from part.next) }
    ensures ends { IfOk result (λ part. EndsThere state.now.state from part.next room part.stop) }
{
    let history = state.history();
    let mut bytes = Vec::new(alloc);
    let mut lines = lines_in(&history[..from]);
    for at in from..history.len() {
        let entry = &history[at];
        let stop = put_entry(alloc, &mut bytes, state.settings(), entry, at, lines, room)?;
        if stop.is_some() {
            let next = at;
            return Ok(LogPart { bytes, next, stop });
        }
        lines += line_count(&entry.update);
    }
    let next = history.len();
    let stop = None;
    Ok(LogPart { bytes, next, stop })
}

/// The history as a log of version 2, which leads to the same map. An update of no point or box has no line; one of more than
/// 262,144 has several.
pub fn history_log(alloc: Global, state: &MapState) -> Result<Vec<u8>, LogFault>
    ensures text { IfOk result (λ log. log.items ≡ script_text (script_of state.now.state)) }
    ensures spells { IfOk result (λ log. Spells log.items (script_of state.now.state)) }
    ensures held { OnOk result (fold state.now.state.settings.voxel (updates_made (script_of state.now.state).commands) ≡ map_of state.now.state.tree state.now.state.next) }

    ensures refused { IfErr result (IsLogFault state.now.state.history) }
{
    if state.history().is_empty() {
        return Ok(header(alloc, state.settings())?);
    }
    let part = history_lines(alloc, state, 0, usize::MAX)?;
    let LogPart { bytes, next, stop } = part;
    match stop {
        None => Ok(bytes),
        Some(stop) => Err(fault_of(stop, next)),
    }
}

fn fault_of(stop: Stop, next: usize) -> LogFault
    ensures { result ≡ fault_of stop next }
{
    match stop {
        Stop::NoLine => LogFault::NoLine { update: next },
        Stop::TooManyUpdates => LogFault::TooManyUpdates,
        Stop::NoRoom => LogFault::NoMemory,
    }
}

fn header(alloc: Global, settings: &Settings) -> Result<Vec<u8>, NoMemory>
    ensures { IfOk result (λ log. log.items ≡ header_text settings.now) }
{
    let mut bytes = Vec::new(alloc);
    write_header(&mut bytes, Format::Two, settings)?;
    Ok(bytes)
}

/// Parts in turn are the whole log, and stay as written while the map goes on.
pub fn parts_in_turn()
    ensures joined { JoinInTurn }
    ensures whole { AreWhole }
    ensures stays { StayWritten }
{}
