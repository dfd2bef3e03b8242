//! Why rows are not read as they are written.

/// Why a row is not read as one that was written.
#[derive(Debug, Drop)]
pub(crate) enum Unread {
    /// No such row is written.
    NotWritten,
    /// Out of memory.
    NoMemory,
}
