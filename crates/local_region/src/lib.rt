//! The region of a map that moves with the robot, and what it leaves behind.
//!
//! On each axis on which the ball round the robot touches or passes a face, the region moves by a step that way. What
//! it leaves is at most three disjoint boxes, to be deleted. Intensities play no part.
#![tactic(auto)]

mod limits;
mod moving;
mod range;
mod region;
mod removing;
mod rules;

pub use moving::Moved;
pub use region::Region;
pub use rules::{RegionRules, RulesFault};
