//! Replies.
use map_fold::{BoxReply, ClusterReply, NearReply, NearsReply};

/// The reply to a command, or the one at the end.
pub enum Reply {
    /// An update was made.
    Done {
        /// Its number among the updates, from 1.
        mark: u64,
    },
    /// What a search for the nearest points found.
    Near(NearReply),
    /// What searches for the nearest points of several places found.
    Nears(NearsReply),
    /// What a search of a box found.
    Inside(BoxReply),
    /// What a search of a ball found.
    Ball(BoxReply),
    /// Which points have no other near them.
    Lonely(BoxReply),
    /// The clusters.
    Clusters(ClusterReply),
    /// How many points are held.
    Totals {
        /// How many updates were made before it.
        mark: u64,
        live: u32,
        suspended: u32,
    },
}

// Manual `Drop`: a derived one is proved at every exit of every owner.
impl Drop for Reply {
    fn drop(self) {
        match self {
            Reply::Done { mark: _mark } => {}
            Reply::Totals {
                mark: _mark,
                live: _live,
                suspended: _suspended,
            } => {}
            Reply::Near(_found) => {}
            Reply::Nears(_found) => {}
            Reply::Inside(_found) | Reply::Ball(_found) | Reply::Lonely(_found) => {}
            Reply::Clusters(_found) => {}
        }
    }
}
