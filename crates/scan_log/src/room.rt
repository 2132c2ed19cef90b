//! Where the points of a command go.
use crate::Format;
use std::alloc::Global;

/// What a command is read into.
#[derive(Clone, Copy)]
pub struct Room {
    pub alloc: Global,
    pub format: Format,
    /// For how many points there is room.
    pub points: usize,
}
