//! Whether a text is a legal transcript of a script.
#![tactic(auto)]

mod checking;
mod heads;
mod held_map;
mod legality;
mod lines;
mod neighbours;
mod on_plain;
mod on_tree;
mod order;
mod replaying;
mod tree_map;
mod verdict;

pub use checking::{check, check_plainly};
pub use on_tree::{tree_reply, tree_totals};
pub use verdict::Verdict;
