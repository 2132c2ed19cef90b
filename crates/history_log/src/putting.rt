//! Appending the lines of an update.
ghost use Rattle.std.specs.{Prelude.{◌≡◌, ◌<◌, ◌≤◌, ◌+◌, ◌++◌, IfNone, IfOk, IfSome, OnOk, length}, List.{flat_map}};
ghost use Rattle.scan_log.specs.{declared.command.Command.TheVariants.{Change}, declared.commands.TheConstants.{MAX_COMMANDS}};
ghost use Rattle.scan_log.specs.{declared.format.Format.TheVariants.{Two}, Written.{command_text}};
ghost use Rattle.history_log.specs.{Lines.{HasLines, line_count, line_of, part_of}, Log.{IsEntryStop, opening}};

use crate::Stop;
use crate::fitting::has_lines;
use crate::parts::{line_count, part_of};
use map_items::{Entry, NoMemory, Settings};
use scan_log::{Command, Format, MAX_COMMANDS, write_command, write_header};
use std::alloc::Global;

/// What stops it leaves the bytes as they were.
pub(crate) fn put_entry(
    alloc: Global,
    bytes: &mut Vec<u8>,
    settings: &Settings,
    entry: &Entry,
    at: usize,
    lines: usize,
    room: usize,
) -> Result<Option<Stop>, NoMemory>
    requires room { length bytes.old.items ≤ room }
    ensures put { IfOk result (λ stop. IfNone stop (bytes.new.items ≡ bytes.old.items ++ (opening settings.now at ++ flat_map (command_text Two) (line_of entry.now)))) }
    ensures said { IfOk result (λ stop. IfNone stop (HasLines entry.now.update)) }
    ensures few { IfOk result (λ stop. IfNone stop (lines + line_count entry.now.update ≤ MAX_COMMANDS)) }
    ensures fits { IfOk result (λ stop. length bytes.new.items ≤ room) }
    ensures same { IfOk result (λ stop. IfSome stop (λ _. bytes.new.items ≡ bytes.old.items)) }
    ensures why { IfOk result (λ stop. IfSome stop (IsEntryStop bytes.old.items settings.now entry.now at lines room)) }
{
    if !has_lines(&entry.update) {
        return Ok(Some(Stop::NoLine));
    }
    if MAX_COMMANDS < lines || MAX_COMMANDS - lines < line_count(&entry.update) {
        return Ok(Some(Stop::TooManyUpdates));
    }
    let was = bytes.len();
    put_opening(bytes, settings, at)?;
    put_lines(alloc, bytes, entry)?;
    if room < bytes.len() {
        bytes.truncate(was);
        return Ok(Some(Stop::NoRoom));
    }
    Ok(None)
}

// The header, before the first update's lines.
fn put_opening(bytes: &mut Vec<u8>, settings: &Settings, at: usize) -> Result<(), NoMemory>
    ensures { OnOk result (bytes.new.items ≡ bytes.old.items ++ opening settings.now at) }
{
    if at == 0 {
        return write_header(bytes, Format::Two, settings);
    }
    Ok(())
}

fn put_lines(alloc: Global, bytes: &mut Vec<u8>, entry: &Entry) -> Result<(), NoMemory>
    ensures { OnOk result (bytes.new.items ≡ bytes.old.items ++ flat_map (command_text Two) (line_of entry.now)) }
{
    for number in 0..line_count(&entry.update) {
        put_line(alloc, bytes, entry, number)?;
    }
    Ok(())
}

fn put_line(
    alloc: Global,
    bytes: &mut Vec<u8>,
    entry: &Entry,
    number: usize,
) -> Result<(), NoMemory>
    requires { number < line_count entry.now.update }
    ensures { OnOk result (bytes.new.items ≡ bytes.old.items ++ command_text Two (Change entry.now.caller (part_of entry.now.update number))) }
{
    let update = part_of(alloc, &entry.update, number)?;
    let caller = entry.caller;
    let line = Command::Change { caller, update };
    write_command(bytes, Format::Two, &line)
}
