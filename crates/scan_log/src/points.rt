//! Reading points.
ghost use Rattle.std.specs.Prelude.{◌≡◌, ◌<◌, ◌≤◌, ◌*◌, length, drop, Ok, OnOk};
ghost use Rattle.scan_log.specs.{declared.format.Format.TheVariants.{Two}, Outcomes.{Gives}};
ghost use Rattle.scan_log.specs.Reading.{few_places_of, few_scanned_of, first_place, first_scanned, groups_of, place_of, places_of, scanned_places_of};
ghost use Rattle.scan_log.specs.Scripts.{IsLogCoordinate};

use crate::fields::Fields;
use crate::line_fault::LineFault;
use crate::number::coordinate;
use crate::room::Room;
use crate::{Format, LogCause};
use map_items::Points;
use point_geom::Point;
use std::alloc::Global;

/// How many groups of `size` fields remain: from one to `most`.
#[tactic(auto, unfolding(crate::specs::Reading::groups_of))]
pub fn groups(fields: &Fields, size: usize, most: usize) -> Result<usize, LogCause>
    requires { 0 < size }
    ensures { result ≡ groups_of size most fields.now }
{
    let count = fields.len();
    if count == 0 || count % size != 0 {
        return Err(LogCause::WrongCount);
    }
    if count / size > most {
        return Err(LogCause::TooManyPoints);
    }
    Ok(count / size)
}

/// The points that the fields spell, one or more, and at most as many as there is room for.
#[inline(always)]
#[tactic(auto, unfolding(crate::specs::Reading::few_places_of))]
pub fn points(room: Room, fields: Fields) -> Result<Points, LineFault>
    ensures { Gives result (few_places_of room.format room.points fields.entry) }
{
    let count = groups(&fields, 3, room.points)?;
    all_points(room.alloc, room.format, count, fields)
}

/// The points of a command that adds or thins them, at most as many as there is room for.
#[tactic(auto, unfolding(crate::specs::Reading::few_scanned_of, crate::specs::Reading::few_places_of))]
pub fn scanned_points(room: Room, fields: Fields) -> Result<Points, LineFault>
    ensures { Gives result (few_scanned_of room.format room.points fields.entry) }
{
    match room.format {
        Format::One => {
            let format = Format::One;
            points(Room { format, ..room }, fields)
        }
        Format::Two => {
            let count = groups(&fields, 4, room.points)?;
            all_scanned(room.alloc, count, fields)
        }
    }
}

// Takes memory for all at once.
fn all_scanned(alloc: Global, count: usize, fields: Fields) -> Result<Points, LineFault>
    requires { length fields ≡ 4 * count }
    ensures { Gives result (scanned_places_of Two fields.entry) }
{
    let mut fields = fields;
    let mut points = Vec::with_capacity(alloc, count)?;
    for _ in 0..count {
        let point = next_scanned(&mut fields)?;
        points.push(point)?;
    }
    Ok(Points::from(points))
}

#[tactic(auto, using(crate::proofs::Fronts::first_scanned_is))]
fn next_scanned(fields: &mut Fields) -> Result<Point, LogCause>
    requires { 4 ≤ length fields.old }
    ensures value { result ≡ first_scanned fields.old }
    ensures rest { OnOk result (fields.new ≡ drop 4 fields.old) }
{
    let point = next_point(Format::Two, fields)?;
    let intensity = fields.intensity()?;
    Ok(point.with_intensity(intensity))
}

/// The points that `count` groups of fields spell. Takes memory for all at once. Inlined, so that where the version is known its
/// limits are constants.
#[inline(always)]
pub fn all_points(
    alloc: Global,
    format: Format,
    count: usize,
    fields: Fields,
) -> Result<Points, LineFault>
    requires { length fields ≡ 3 * count }
    ensures { Gives result (places_of format fields.entry) }
{
    let mut fields = fields;
    let mut points = Vec::with_capacity(alloc, count)?;
    for _ in 0..count {
        let point = next_point(format, &mut fields)?;
        points.push(point)?;
    }
    Ok(Points::from(points))
}

fn next_point(format: Format, fields: &mut Fields) -> Result<Point, LogCause>
    requires { 3 ≤ length fields.old }
    ensures value { result ≡ first_place format fields.old }
    ensures rest { OnOk result (fields.new ≡ drop 3 fields.old) }
{
    let x = fields.coordinate(format)?;
    let y = fields.coordinate(format)?;
    let z = fields.coordinate(format)?;
    point_at(format, x, y, z)
}

#[tactic(auto, unfolding(crate::specs::Reading::place_of))]
pub fn point(format: Format, x: &[u8], y: &[u8], z: &[u8]) -> Result<Point, LogCause>
    ensures { result ≡ place_of format x.now y.now z.now }
{
    let x = coordinate(format, x)?;
    let y = coordinate(format, y)?;
    let z = coordinate(format, z)?;
    point_at(format, x, y, z)
}

// Every coordinate that was read is in range.
fn point_at(format: Format, x: i64, y: i64, z: i64) -> Result<Point, LogCause>
    requires x { IsLogCoordinate format x }
    requires y { IsLogCoordinate format y }
    requires z { IsLogCoordinate format z }
    ensures { result ≡ Ok (record { x = x; y = y; z = z; intensity = 0 }) }
{
    match Point::new(x, y, z) {
        Ok(point) => Ok(point),
        Err(_) => Err(LogCause::OutOfRange),
    }
}
