//! Reading the command of a line.
ghost use Rattle.std.specs.Prelude.{◌≡◌};
ghost use Rattle.scan_log.specs.{declared.format.Format.TheVariants.{Two}, Outcomes.{Gives}};
ghost use Rattle.scan_log.specs.Reading.{basic_of, called_of, caller_of, command_of, expiry_of, line_command, update_of};

use crate::boxes::{boxes, units};
use crate::fields::Fields;
use crate::line_fault::LineFault;
use crate::number::natural_in;
use crate::piece::is_word;
use crate::points::scanned_points;
use crate::poses::pose;
use crate::queries::{ball, inside, near, nears, reach};
use crate::room::Room;
use crate::{Command, Format, LogCause};
use map_items::{MAX_POINTS, Update};
use std::alloc::Global;

pub const MAX_COMMANDS: usize = 65_536;

const MAX_POINTS_OF_COMMAND: usize = 262_144;

/// The command that the line spells, after `before` commands, where the log has room for `room` points and its replies for `hits`
/// hits.
pub fn line_command(
    alloc: Global,
    format: Format,
    before: usize,
    room: usize,
    hits: usize,
    line: &[u8],
) -> Result<Command, LineFault>
    ensures { Gives result (line_command format before room hits line.now) }
{
    if before >= MAX_COMMANDS {
        return Err(LineFault::Bad(LogCause::TooManyCommands));
    }
    let points = room;
    let room = Room {
        alloc,
        format,
        points,
    };
    let command = command(room, Fields::new(line))?;
    if command.hits() > hits {
        return Err(LineFault::Bad(LogCause::TooManyHits));
    }
    Ok(command)
}

#[tactic(auto, unfolding(crate::specs::Reading::command_of))]
fn command(room: Room, fields: Fields) -> Result<Command, LineFault>
    ensures { Gives result (command_of room.format room.points fields.entry) }
{
    let mut fields = fields;
    let Some(first) = fields.next() else {
        return Err(LineFault::Bad(LogCause::UnknownCommand));
    };
    if is_word(first, b"sync") {
        if fields.next().is_some() {
            return Err(LineFault::Bad(LogCause::WrongCount));
        }
        return Ok(Command::Sync);
    }
    let caller = caller(first)?;
    let Some(word) = fields.next() else {
        return Err(LineFault::Bad(LogCause::UnknownCommand));
    };
    called(room, caller, word, fields)
}

#[tactic(auto, unfolding(crate::specs::Reading::caller_of))]
fn caller(field: &[u8]) -> Result<u8, LogCause>
    ensures { result ≡ caller_of field.now }
{
    match field {
        [b'@', digit] if b'1' <= *digit && *digit <= b'8' => Ok(*digit - b'0'),
        [b'@', ..] => Err(LogCause::BadCaller),
        _ => Err(LogCause::UnknownCommand),
    }
}

#[tactic(auto, unfolding(crate::specs::Reading::called_of))]
fn called(room: Room, caller: u8, word: &[u8], fields: Fields) -> Result<Command, LineFault>
    ensures { Gives result (called_of room.format room.points caller word.now fields.entry) }
{
    match room.format {
        Format::One => {
            let format = Format::One;
            basic(Room { format, ..room }, caller, word, fields)
        }
        Format::Two => wide(room, caller, word, fields),
    }
}

// The command of version 2, whatever the room.
#[tactic(auto, unfolding(crate::specs::Reading::called_of))]
fn wide(room: Room, caller: u8, word: &[u8], fields: Fields) -> Result<Command, LineFault>
    ensures { Gives result (called_of Two room.points caller word.now fields.entry) }
{
    if is_word(word, b"nears") {
        return nears(room.alloc, caller, fields);
    }
    if is_word(word, b"ball") {
        return Ok(ball(caller, fields)?);
    }
    if is_word(word, b"lonely") {
        let (k, r) = reach(fields)?;
        return Ok(Command::Lonely { caller, k, r });
    }
    if is_word(word, b"clusters") {
        let (k, r) = reach(fields)?;
        return Ok(Command::Clusters { caller, k, r });
    }
    if is_word(word, b"pose") {
        return Ok(pose(caller, fields)?);
    }
    let format = Format::Two;
    basic(Room { format, ..room }, caller, word, fields)
}

#[tactic(auto, unfolding(crate::specs::Reading::basic_of))]
fn basic(room: Room, caller: u8, word: &[u8], fields: Fields) -> Result<Command, LineFault>
    ensures { Gives result (basic_of room.format room.points caller word.now fields.entry) }
{
    if is_word(word, b"near") {
        return Ok(near(room.format, caller, fields)?);
    }
    if is_word(word, b"box") {
        return Ok(inside(room.format, caller, fields)?);
    }
    let update = update(room, word, fields)?;
    Ok(Command::Change { caller, update })
}

#[tactic(auto, unfolding(crate::specs::Reading::update_of))]
fn update(room: Room, word: &[u8], fields: Fields) -> Result<Update, LineFault>
    ensures { Gives result (update_of room.format room.points word.now fields.entry) }
{
    let points = room.points.min(MAX_POINTS_OF_COMMAND);
    let room = Room { points, ..room };
    if is_word(word, b"add") {
        return Ok(Update::Add(scanned_points(room, fields)?));
    }
    if is_word(word, b"thin") {
        return Ok(Update::Thin(scanned_points(room, fields)?));
    }
    if is_word(word, b"erase") {
        return Ok(Update::Delete(units(room.alloc, room.format, fields)?));
    }
    if is_word(word, b"delete") {
        return Ok(Update::Delete(boxes(room.alloc, room.format, fields)?));
    }
    if is_word(word, b"suspend") {
        return Ok(Update::Suspend(boxes(room.alloc, room.format, fields)?));
    }
    if is_word(word, b"restore") {
        return Ok(Update::Restore(boxes(room.alloc, room.format, fields)?));
    }
    if room.format.has_expiry() && is_word(word, b"expire") {
        return Ok(expiry(fields)?);
    }
    Err(LineFault::Bad(LogCause::UnknownCommand))
}

#[tactic(auto, unfolding(crate::specs::Reading::expiry_of))]
fn expiry(fields: Fields) -> Result<Update, LogCause>
    ensures { result ≡ expiry_of fields.entry }
{
    let mut fields = fields;
    let number = fields.field()?;
    if fields.next().is_some() {
        return Err(LogCause::WrongCount);
    }
    Ok(Update::Expire(natural_in(0, MAX_POINTS, number)?))
}
