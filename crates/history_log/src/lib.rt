//! The history of a map, written as a log that leads to the same map.
#![tactic(auto)]

mod counting;
mod fault;
mod fitting;
mod logging;
mod part;
mod parts;
mod putting;

pub use fault::LogFault;
pub use logging::{history_lines, history_log, parts_in_turn};
pub use part::{LogPart, Stop};
