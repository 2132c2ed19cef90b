//! Points, boxes and distances of a map, in whole millimetres.
#![tactic(auto)]

mod axis;
mod cuboid;
mod distance;
mod extent;
mod messages;
mod point;

pub use axis::Axis;
pub use cuboid::{Corner, Cuboid, CuboidError, MAX_EDGE, voxel};
pub use distance::{centre_dist2, dist2, dist2_on};
pub use extent::Extent;
pub use point::{OutOfRange, Point};
