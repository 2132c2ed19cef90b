//! Numbers of a log's fields, in their one spelling.
#![tactic(auto)]

mod field;
mod front;

pub use field::numeral;
pub use front::{FrontNumber, front_number};
