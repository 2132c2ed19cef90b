//! Reading queries.
ghost use Rattle.std.specs.{Prelude.{◌≡◌}, Option.{option_copied}};
ghost use Rattle.scan_log.specs.{Outcomes.{Gives}, Reading.{ball_of, inside_of, near_of, nearest_of, nears_of, reach_of}};

use crate::boxes::cuboid;
use crate::fields::Fields;
use crate::line_fault::LineFault;
use crate::number::{distance as distance_in, natural_in};
use crate::piece::is_word;
use crate::points::{all_points, groups, point};
use crate::{Command, Format, LogCause};
use std::alloc::Global;

const MAX_PLACES_OF_COMMAND: usize = 262_144;

/// The search for the nearest points that the fields behind `near` spell.
#[tactic(auto, unfolding(crate::specs::Reading::near_of))]
pub fn near(format: Format, caller: u8, mut fields: Fields) -> Result<Command, LogCause>
    ensures { result ≡ near_of format caller fields.entry }
{
    let k = fields.field()?;
    let (x, y, z) = fields.three()?;
    let Some(word) = fields.next() else {
        return nearest(format, caller, k, x, y, z, None);
    };
    let distance = fields.field()?;
    if fields.next().is_some() || !is_word(word, b"within") {
        return Err(LogCause::WrongCount);
    }
    nearest(format, caller, k, x, y, z, Some(distance))
}

// The distance, if there is one, is a bound.
#[tactic(auto, unfolding(crate::specs::Reading::near_of))]
fn nearest(
    format: Format,
    caller: u8,
    k: &[u8],
    x: &[u8],
    y: &[u8],
    z: &[u8],
    distance: Option<&[u8]>,
) -> Result<Command, LogCause>
    ensures { result ≡ nearest_of format caller k.now x.now y.now z.now (option_copied distance.entry) }
{
    let k = natural_in(1, 256, k)?;
    let point = point(format, x, y, z)?;
    let within = match distance {
        Some(distance) => Some(distance_in(format, distance)?),
        None => None,
    };
    Ok(Command::Near {
        caller,
        k,
        point,
        within,
    })
}

/// The search of a box that the fields behind `box` spell.
#[tactic(auto, unfolding(crate::specs::Reading::inside_of))]
pub fn inside(format: Format, caller: u8, mut fields: Fields) -> Result<Command, LogCause>
    ensures { result ≡ inside_of format caller fields.entry }
{
    let k = fields.field()?;
    let (x, y, z) = fields.three()?;
    let (far_x, far_y, far_z) = fields.three()?;
    if fields.next().is_some() {
        return Err(LogCause::WrongCount);
    }
    let k = natural_in(1, 256, k)?;
    let cuboid = cuboid(format, x, y, z, far_x, far_y, far_z)?;
    Ok(Command::Inside { caller, k, cuboid })
}

/// The searches for the nearest points of several places that the fields behind `nears` spell.
#[tactic(auto, unfolding(crate::specs::Reading::nears_of))]
pub fn nears(alloc: Global, caller: u8, mut fields: Fields) -> Result<Command, LineFault>
    ensures { Gives result (nears_of caller fields.entry) }
{
    let k = fields.field()?;
    let count = groups(&fields, 3, MAX_PLACES_OF_COMMAND)?;
    let k = natural_in(1, 256, k)?;
    let points = all_points(alloc, Format::Two, count, fields)?;
    Ok(Command::Nears { caller, k, points })
}

/// The search of a ball that the fields behind `ball` spell.
#[tactic(auto, unfolding(crate::specs::Reading::ball_of))]
pub fn ball(caller: u8, mut fields: Fields) -> Result<Command, LogCause>
    ensures { result ≡ ball_of caller fields.entry }
{
    let k = fields.field()?;
    let r = fields.field()?;
    let (x, y, z) = fields.three()?;
    if fields.next().is_some() {
        return Err(LogCause::WrongCount);
    }
    let k = natural_in(1, 256, k)?;
    let r = distance_in(Format::Two, r)?;
    let point = point(Format::Two, x, y, z)?;
    Ok(Command::Ball {
        caller,
        k,
        r,
        point,
    })
}

/// The count and the distance that the fields behind `lonely` or `clusters` spell.
#[tactic(auto, unfolding(crate::specs::Reading::reach_of))]
pub fn reach(mut fields: Fields) -> Result<(u32, u64), LogCause>
    ensures { result ≡ reach_of fields.entry }
{
    let k = fields.field()?;
    let r = fields.field()?;
    if fields.next().is_some() {
        return Err(LogCause::WrongCount);
    }
    let k = natural_in(1, 256, k)?;
    let r = distance_in(Format::Two, r)?;
    Ok((k, r))
}
