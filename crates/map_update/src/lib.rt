//! What an update does to a tree and to what is watched of it. Nothing here knows a state, its history or its detached
//! subtrees.
//!
//! `update` takes an update apart; `draft` does one operation, and `pieces` puts many items. Scans that thin are
//! `thin`'s: their points, one of each voxel, are `entrants`, and wait in `waiting` until they are put.
#![tactic(auto)]

mod clear;
mod draft;
mod entrants;
mod pieces;
mod thin;
mod update;
mod waiting;

pub use draft::{Draft, Drafted};
pub use update::changed;
