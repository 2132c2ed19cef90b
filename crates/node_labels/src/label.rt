//! Labels.

/// Whether searches find a point.
#[derive(Clone, Copy, Debug, PartialEq, Eq)]
pub enum Label {
    /// Searches find it.
    Live,
    /// Searches pass over it, and it may be restored.
    Suspended,
    /// It is gone for good.
    Dropped,
}
