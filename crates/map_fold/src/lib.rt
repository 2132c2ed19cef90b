//! What queries return, as definitions and as values, and the plain map; and all that `map_items` exports.
#![tactic(auto)]

mod group;
mod hits;
mod plain_map;
mod reply;
mod thin;

pub use group::{Group, Groups};
pub use hits::{Hit, HitLists, Hits};
pub use map_items::{
    Choice, Counts, Cuboids, Entry, Item, Items, Label, MAX_FOUND, MAX_LARGE, MAX_POINTS,
    MAX_WITHIN, MIN_LARGE, NoMemory, Op, Ops, Points, Sequence, Settings, Tag, Update,
};
pub use plain_map::PlainMap;
pub use reply::{BoxReply, ClusterReply, NearReply, NearsReply};
