/// The longest side of a region, in millimetres.
pub const LONGEST: u64 = 2_199_023_255_552;

/// The least coordinate of a point, and of a corner for `Cuboid::new`.
pub const LEAST: i64 = -1_099_511_627_776;

/// The greatest of such a corner, one past a point's.
pub const GREATEST: i64 = 1_099_511_627_777;

/// No region starts farther from 0: it follows its point within a side and a half.
pub const FARTHEST: i64 = 4_398_046_511_104;
