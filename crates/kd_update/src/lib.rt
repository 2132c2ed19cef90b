//! Points put into a k-d tree, one by one or a scan in one pass; subtrees replaced, operations replayed. What a subtree
//! meets while it is rebuilt elsewhere is logged.
#![tactic(auto)]

mod limits;
mod points;
mod replacing;
mod replaying;
mod scans;
mod watching;

pub use kd_mark::{Watch, Watches, marked, marked_watched};
pub use limits::{MAX_PASS_LEVELS, PASS_FROM};
pub use points::insert::put;
pub use points::room::with_room;
pub use replacing::replace::replaced;
pub use replacing::replacement::Replaced;
pub use replacing::settle::settled;
pub use replaying::replay::replayed;
pub use scans::numbered::{live_items, put_points};
pub use scans::one_pass::put_at_once;
pub use scans::scan::put_all;
pub use watching::insert_watched::put_watched;
pub use watching::scan_watched::put_all_watched;
