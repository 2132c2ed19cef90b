//! Replies to queries.
use crate::{Groups, HitLists, Hits};
use map_items::Items;

/// The reply to a search for the nearest points.
#[derive(Debug, Drop)]
pub struct NearReply {
    /// How many updates of the history it is after.
    pub mark: u64,
    /// Nearest first.
    pub hits: Hits,
}

/// The reply to searches for the nearest points of several places.
#[derive(Debug, Drop)]
pub struct NearsReply {
    /// As in `NearReply`.
    pub mark: u64,
    /// In the order of the places.
    pub lists: HitLists,
}

/// The reply to a search that counts points and lists the first of them.
#[derive(Debug, Drop)]
pub struct BoxReply {
    /// As in `NearReply`.
    pub mark: u64,
    /// How many live points were found, listed or not.
    pub count: u32,
    /// The first of them by number, at most as many as were asked for.
    pub items: Items,
}

/// The reply to a search for clusters.
#[derive(Debug, Drop)]
pub struct ClusterReply {
    /// As in `NearReply`.
    pub mark: u64,
    /// How many clusters there are, listed or not.
    pub count: u32,
    /// The first of them by their least numbers, at most as many as were asked for.
    pub groups: Groups,
}
