//! The live items of a tree, or of a box of it, in one array: for when one version is searched many times. It doesn't follow updates.
#![tactic(auto)]

mod beside;
mod cell;
mod close;
mod distance;
mod frozen;
mod gather;
mod hull;
mod lay;
mod parts;
mod search;
mod shortlist;

pub use beside::nearest_beside;
pub use frozen::Frozen;
pub use shortlist::Shortlist;
