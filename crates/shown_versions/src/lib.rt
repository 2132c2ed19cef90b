//! What a shared map shows: versions, each with a mark of its history, published under a rule. Nothing here knows the lock, its
//! turns, or who holds a version.
#![tactic(auto)]

mod mark;
mod name;
mod page;
mod published;
mod rule;
mod steps;

pub use mark::{Mark, MarkList};
pub use name::MapName;
pub use page::Page;
pub use published::Published;
pub use steps::{MapReader, MapWriter, make_pair, place_reader, publish, read_latest};
