//! What a map holds, and what updates make of it.
#![tactic(auto)]

mod choice;
mod entry;
mod item;
mod limits;
mod memory;
mod op;
mod sequence;
mod settings;
mod update;

pub use choice::Choice;
pub use entry::Entry;
pub use item::{Item, Items};
pub use limits::{MAX_FOUND, MAX_LARGE, MAX_POINTS, MAX_WITHIN, MIN_LARGE};
pub use memory::NoMemory;
pub use node_labels::{Counts, Label, Tag};
pub use op::{Op, Ops};
pub use sequence::Sequence;
pub use settings::Settings;
pub use update::{Cuboids, Points, Update};
