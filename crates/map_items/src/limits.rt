//! Limits.

/// The most points given to a map in its life: dropped ones keep their numbers.
pub const MAX_POINTS: u32 = 4_194_304;

/// The least `large` of `Settings`, in nodes.
pub const MIN_LARGE: u32 = 16;

/// The greatest `large`.
pub const MAX_LARGE: u32 = 1_000_000;

/// The most that one question lists.
pub const MAX_FOUND: u32 = 256;

/// The greatest search distance, in millimetres: no two points are as far apart.
pub const MAX_WITHIN: u64 = 4_398_046_511_104;
