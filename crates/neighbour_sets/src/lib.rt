//! Balls, lonely points and clusters of the live points of a k-d tree.
//!
//! Two live points are joined where they are at most `r` millimetres apart. Each call counts all that it finds and
//! lists the first by number. It looks only at what a ball meets, but no contract says how many nodes that is.
#![tactic(auto)]

mod alone;
mod ball;
mod front;
mod growing;
mod noted;

pub use alone::{Found, lonely};
pub use ball::{count_ball, in_ball};
pub use growing::{Grouped, clusters};
