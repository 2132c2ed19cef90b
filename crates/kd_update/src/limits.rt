/// The most levels of a tree before a pass, which adds at most 22.
pub const MAX_PASS_LEVELS: u32 = 490;

/// From this many points on they are put in one pass. Of fewer each has most of its path to itself; and one by one they
/// leave every node where the last of them alone would.
pub const PASS_FROM: usize = 64;
