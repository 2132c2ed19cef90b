//! How a run ends.

/// How a run ended.
#[derive(Clone, Copy, Debug, PartialEq, Eq)]
pub enum Status {
    /// The whole text was written.
    Done,
    /// The log has a fault.
    BadLog,
    /// The words ask for nothing that can be done.
    Usage,
    /// Reading the log failed.
    ReadFault,
    /// Writing to out failed.
    WriteFault,
    NoMemory,
    /// The log has more bytes, commands or points than a log may have.
    OverLimit,
}
