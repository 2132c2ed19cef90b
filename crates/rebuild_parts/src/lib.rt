//! What the state of a map keeps and hands out: versions, which queries see, and detached subtrees, as parts,
//! snapshots, jobs and built values. And why it refuses a step. Nothing here knows the state.
#![tactic(auto)]

mod balanced;
mod built;
mod detached_items;
mod fault;
mod job;
mod logs;
mod messages;
mod part;
mod same_items;
mod snapshot;
mod version;

pub use built::{Built, BuiltLeft, replayed_onto};
pub use detached_items::DetachedItems;
pub use fault::{Late, LogAsk, MAX_UNFORCED, StateFault, SwapFault};
pub use job::{Job, JobLeft};
pub use logs::{PartLog, forgotten, forgotten_for, logs_of, relog_all};
pub use part::{Part, PartInfo, index_of, others_of, part_in, part_of, paths_of, watched};
pub use snapshot::{Snapshot, SnapshotLeft};
pub use version::Version;
