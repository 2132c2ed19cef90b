//! The map that several callers share: updates take turns at a lock, and publish versions that queries read without waiting. What a
//! caller's `Pass` has seen is a prefix of one history, and never gets shorter.
//!
//! A query can't take the lock: no call waits without an `rt`, and `Pass::nearest` and `Pass::in_cuboid` get none.
#![tactic(auto)]

mod desk;
mod ended;
mod locked;
mod marked_subtree;
mod meet;
mod opened;
mod pass;
mod retired;
mod shared;
mod start;
mod turn;
mod workers;

pub use ended::Ended;
pub use opened::Opened;
pub use pass::Pass;
pub use shared::Shared;
pub use shown_versions::MapName;
