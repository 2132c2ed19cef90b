//! Labels of points, actions on labels, and counts of them.
#![tactic(auto)]

mod counts;
mod label;
mod tag;

pub use counts::{Counts, MAX_COUNTED};
pub use label::Label;
pub use tag::Tag;
