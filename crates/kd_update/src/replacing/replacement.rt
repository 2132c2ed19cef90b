//! What a replacement of a subtree leaves.
use kd_tree::Tree;

/// A tree of which a subtree was replaced.
#[derive(Drop)]
pub struct Replaced {
    pub tree: Tree,
    /// Whether the whole tree was rebuilt by medians, for want of room.
    pub anew: bool,
}
