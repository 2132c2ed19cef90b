//! Maps that go on: a new map of a version's points.
#![tactic(auto)]

mod everywhere;
mod renewing;

pub use renewing::renewed;
