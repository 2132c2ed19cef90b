//! What a tree holds, a box or a ball has, listed by number, a page at a time.
//!
//! A page begins at a number, so that the next one goes on where it ended. Only what is on it is sorted. It looks only
//! at subtrees that reach to its numbers and meet its box or ball; no contract says how many nodes that is.
#![tactic(auto)]

mod gather;
mod lists;
mod page;
mod sought;

pub use lists::{ball_items, box_items, items_from};
