//! Reading boxes.
ghost use Rattle.std.specs.Prelude.{◌≡◌, ◌<◌, ◌∷◌, length, map, IfOk, OnOk, Ok};
ghost use Rattle.point_geom.specs.Boxes.{unit_box};
ghost use Rattle.scan_log.specs.{Outcomes.{Gives}, Reading.{box_of, boxes_of, corner_of, few_boxes_of, units_of, with_boxes}, Scripts.{IsBoxCorner}};

use crate::fields::Fields;
use crate::line_fault::LineFault;
use crate::number::corner_number;
use crate::points::{groups, points};
use crate::room::Room;
use crate::{Format, LogCause};
use map_items::Cuboids;
use point_geom::{Corner, Cuboid, Point};
use std::alloc::Global;

const MAX_BOXES_OF_COMMAND: usize = 262_144;

/// The boxes that the fields spell, from one to the limit of a command.
#[tactic(auto, unfolding(crate::specs::Reading::few_boxes_of))]
pub fn boxes(alloc: Global, format: Format, fields: Fields) -> Result<Cuboids, LineFault>
    ensures { Gives result (few_boxes_of format fields.entry) }
{
    let count = groups(&fields, 6, MAX_BOXES_OF_COMMAND)?;
    all_boxes(alloc, format, count, fields)
}

// Takes memory for all at once.
fn all_boxes(
    alloc: Global,
    format: Format,
    count: usize,
    fields: Fields,
) -> Result<Cuboids, LineFault>
    ensures { Gives result (boxes_of format fields.entry) }
{
    let mut fields = fields;
    let mut boxes = Vec::with_capacity(alloc, count)?;
    while let Some(x) = fields.next() {
        let cuboid = box_from(format, x, &mut fields)?;
        boxes.push(cuboid)?;
    }
    Ok(Cuboids::from(boxes))
}

// The box whose first field is `x`.
fn box_from(format: Format, x: &[u8], fields: &mut Fields) -> Result<Cuboid, LogCause>
    ensures value { boxes_of format (x.now ∷ fields.old) ≡ with_boxes format result fields.new }
    ensures fewer { OnOk result (length fields.new < length fields.old) }
{
    let y = fields.field()?;
    let z = fields.field()?;
    let (far_x, far_y, far_z) = fields.three()?;
    cuboid(format, x, y, z, far_x, far_y, far_z)
}

/// For each point that the fields spell, the box that holds that point alone.
#[tactic(auto, unfolding(crate::specs::Reading::units_of))]
pub fn units(alloc: Global, format: Format, fields: Fields) -> Result<Cuboids, LineFault>
    ensures { Gives result (units_of format fields.entry) }
{
    let room = Room {
        alloc,
        format,
        points: MAX_BOXES_OF_COMMAND,
    };
    let points = points(room, fields)?;
    units_around(alloc, points.as_slice())
}

fn units_around(alloc: Global, points: &[Point]) -> Result<Cuboids, LineFault>
    ensures { Gives result (Ok (map unit_box points.now)) }
{
    let mut units = Vec::with_capacity(alloc, points.len())?;
    for point in points {
        units.push(Cuboid::unit(point))?;
    }
    Ok(Cuboids::from(units))
}

#[tactic(auto, unfolding(crate::specs::Reading::box_of))]
pub fn cuboid(
    format: Format,
    x: &[u8],
    y: &[u8],
    z: &[u8],
    far_x: &[u8],
    far_y: &[u8],
    far_z: &[u8],
) -> Result<Cuboid, LogCause>
    ensures { result ≡ box_of format x.now y.now z.now far_x.now far_y.now far_z.now }
{
    let lo = corner(format, x, y, z)?;
    let hi = corner(format, far_x, far_y, far_z)?;
    match Cuboid::new(lo, hi) {
        Ok(cuboid) => Ok(cuboid),
        Err(_) => Err(LogCause::InvertedBox),
    }
}

#[tactic(auto, unfolding(crate::specs::Reading::corner_of))]
fn corner(format: Format, x: &[u8], y: &[u8], z: &[u8]) -> Result<Corner, LogCause>
    ensures value { result ≡ corner_of format x.now y.now z.now }
    ensures limits { IfOk result (IsBoxCorner format) }
{
    let x = corner_number(format, x)?;
    let y = corner_number(format, y)?;
    let z = corner_number(format, z)?;
    Ok(Corner { x, y, z })
}
