//! The state of a map: its tree, its history, and the version that queries see. A step is planned, which may be
//! refused, and then entered, which may not.
#![tactic(auto)]

mod desk;
mod detach;
mod detached_items;
mod enter;
mod plan;
mod planned;
mod recycle;
mod state;
mod swap;
mod uncounted;

pub use desk::{Desk, SwapOrLate, Swapped};
pub use plan::MAX_UPDATES;
pub use planned::Planned;
pub use rebuild_parts::{
    Built, BuiltLeft, DetachedItems, Job, JobLeft, Late, LogAsk, MAX_UNFORCED, PartInfo, Snapshot,
    SnapshotLeft, StateFault, SwapFault, Version,
};
pub use state::MapState;
pub use swap::SwapLeft;
