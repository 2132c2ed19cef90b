//! How large a tree may be.

/// The most nodes, dropped ones too: one for each point that a map may be given.
pub const MAX_NODES: u32 = 4_194_304;

/// The most levels. A tree that is built by medians has at most 23.
pub const MAX_LEVELS: u32 = 512;
