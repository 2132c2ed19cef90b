//! The versions of a log.

/// The version of a log, which its header names.
#[derive(Clone, Copy, Debug, PartialEq, Eq)]
pub enum Format {
    /// Coordinates are from -1,000,000,000 to 1,000,000,000 millimetres, and no point has an intensity.
    One,
    /// Coordinates are from -1,099,511,627,776 to 1,099,511,627,776 millimetres, and a point that is added or thinned has an
    /// intensity from 0 to 65,535.
    Two,
}

impl Format {
    ghost use Rattle.std.specs.Prelude.{◌≡◌, ◌≤ℤ◌, pos, negsuc};
    ghost use Rattle.scan_log.specs.Formats.{box_highest, farthest, has_expiry, highest, lowest};

    pub(crate) fn has_expiry(self) -> bool
        ensures { result ≡ has_expiry self }
    {
        match self {
            Format::One => false,
            Format::Two => true,
        }
    }

    pub(crate) fn limits(self) -> Limits
        ensures lowest { result.lowest ≡ lowest self }
        ensures highest { result.highest ≡ highest self }
        ensures box_highest { result.box_highest ≡ box_highest self }
        ensures farthest { result.farthest ≡ pos (farthest self) }
        ensures lowest_from { negsuc 999999999999999998 ≤ℤ result.lowest }
        ensures highest_to { result.highest ≤ℤ pos 999999999999999999 }
        ensures box_highest_to { result.box_highest ≤ℤ pos 999999999999999999 }
        ensures farthest_to { result.farthest ≤ℤ pos 999999999999999999 }
    {
        match self {
            Format::One => Limits {
                lowest: -1_000_000_000,
                highest: 1_000_000_000,
                box_highest: 1_000_000_001,
                farthest: 4_000_000_000,
            },
            Format::Two => Limits {
                lowest: -1_099_511_627_776,
                highest: 1_099_511_627_776,
                box_highest: 1_099_511_627_777,
                farthest: 4_398_046_511_104,
            },
        }
    }
}

/// How far the numbers of a log reach, in millimetres.
#[derive(Clone, Copy)]
pub(crate) struct Limits {
    pub lowest: i64,
    pub highest: i64,
    /// The greatest number of a box's corner, one past the last coordinate.
    pub box_highest: i64,
    /// The greatest distance that may be asked for.
    pub farthest: i64,
}
