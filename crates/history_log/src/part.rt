//! Parts of a log.

/// Why a part of a log ends before an update.
#[derive(Clone, Copy, Debug, PartialEq, Eq)]
pub enum Stop {
    /// It has a box beyond the coordinates of a log.
    NoLine,
    /// With its lines there would be more than a log may have.
    TooManyUpdates,
    /// Its lines take more than the remaining room.
    NoRoom,
}

/// The lines of consecutive updates.
#[derive(Drop)]
pub struct LogPart {
    /// Whole lines.
    pub bytes: Vec<u8>,
    /// The number of the first update after them.
    pub next: usize,
    /// Why that update's lines aren't here, if there is one.
    pub stop: Option<Stop>,
}
