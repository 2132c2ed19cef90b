//! Nearest points of many places at once, by several threads: for each the list that `kd_search::nearest` returns.
#![tactic(auto)]

mod each;
mod search;

pub use each::{frozen_nearest_each, nearest_each};
