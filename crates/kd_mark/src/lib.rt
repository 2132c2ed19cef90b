//! Actions on chosen items of a k-d tree, what they do to watched subtrees, and rebuilding of unbalanced ones.
#![tactic(auto)]

mod log_mark;
mod mark;
mod mark_watched;
mod reach;
mod rebuild;
mod watch;
mod watches;
mod ways;

pub use log_mark::step_down;
pub use mark::marked;
pub use mark_watched::marked_watched;
pub use rebuild::{LEAST, NEVER, joined, joined_and_rebuilt_if_due, rebuilt, rebuilt_if_due};
pub use watch::{Watch, note};
pub use watches::Watches;
pub use ways::{Unwatched, Watched, Ways, spared_from};
