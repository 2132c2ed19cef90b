//! Reading where a robot is.
ghost use Rattle.std.specs.Prelude.{◌≡◌, ◌≤◌, ◌<◌, ◌*◌};
ghost use Rattle.scan_log.specs.Reading.{pose_of};

use crate::fields::Fields;
use crate::number::long_in;
use crate::points::point;
use crate::{Command, Format, LogCause};
use local_region::RegionRules;

const LONGEST_SIDE: u64 = 2_199_023_255_552;

/// The pose that the fields behind `pose` spell.
#[tactic(auto, unfolding(crate::specs::Reading::pose_of))]
pub fn pose(caller: u8, mut fields: Fields) -> Result<Command, LogCause>
    ensures { result ≡ pose_of caller fields.entry }
{
    let (side, ball, step) = fields.three()?;
    let (x, y, z) = fields.three()?;
    if fields.next().is_some() {
        return Err(LogCause::WrongCount);
    }
    let side = long_in(2, LONGEST_SIDE, side)?;
    let ball = long_in(0, (side - 1) / 2, ball)?;
    let step = long_in(1, side, step)?;
    let point = point(Format::Two, x, y, z)?;
    let rules = rules(side, ball, step);
    Ok(Command::Pose {
        caller,
        rules,
        point,
    })
}

// The ranges of the three numbers are those that the rules ask for.
fn rules(side: u64, ball: u64, step: u64) -> RegionRules
    requires side_from { 2 ≤ side }
    requires side_to { side ≤ 2199023255552 }
    requires ball { 2 * ball < side }
    requires step_from { 1 ≤ step }
    requires step_to { step ≤ side }
    ensures { result ≡ record { side = side; ball = ball; step = step } }
{
    RegionRules::new(side, ball, step).unwrap()
}
