//! Subtrees that are to be rebuilt.

use rebuild_core::Job;

/// A subtree that is to be rebuilt, for a map with this `large`.
#[derive(Drop)]
pub struct DetachedJob {
    pub job: Job,
    pub large: u32,
}
