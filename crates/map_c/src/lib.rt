//! The map, for callers in C: each export takes handles, checks its arguments, does one call of the library, and returns a status.
#![tactic(auto)]

mod asking;
mod balls;
mod building;
mod detaching;
mod freezing;
mod handles;
mod logging;
mod making;
mod neighbours;
mod pages;
mod regions;
mod renewing;
mod searched;
mod searching;
mod swapping;
mod updating;
mod views;

pub use handles::built_subtree::BuiltSubtree;
pub use handles::content::{Around, Content, Index, Map, View, boxed};
pub use handles::detached_job::DetachedJob;
pub use handles::forms::{Bounds, Cluster, Hit, Item, Place, Point, Region, Totals};
pub use handles::handle::Handle;
pub use handles::listing::{count_in_box, list};
pub use handles::reading::{read_all, read_box, read_place};
pub use handles::rebuilding::{build, replay};
pub use handles::refusal::{DONE, Refusal, status_of};
pub use handles::showing::{frozen_index, shown, totals_of};
pub use handles::writing::{write_few, write_hits};
