//! Searches of a k-d tree: the nearest live points, and those in a box.
#![tactic(auto)]

mod best;
mod by_number;
mod count;
mod inside;
mod near;
mod pending;
mod rivals;
mod sides;

pub use best::best_in;
pub use by_number::insert_by_number;
pub use count::count_in;
pub use inside::in_cuboid;
pub use near::{Found, Query, nearest};
pub use pending::live_under;
pub use rivals::{Rivals, rivals_in};
