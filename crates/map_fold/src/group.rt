//! Clusters.
use map_items::Sequence;

/// A cluster: the least number in it, and how many items it has.
#[derive(Clone, Copy, Debug, PartialEq, Eq)]
pub struct Group {
    pub least: u32,
    pub size: u32,
}

pub type Groups = Sequence<Group>;
