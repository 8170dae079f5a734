//! How a call of the outside refuses.

/// The outside failed; each time its count of faults has risen.
#[derive(Clone, Copy, Debug, PartialEq, Eq)]
pub struct Failed;

/// Why a file was not loaded.
#[derive(Clone, Copy, Debug, PartialEq, Eq)]
pub enum FileFault {
    /// The outside failed. It goes before `Missing` and `TooLong`.
    Failed,
    /// There is no file of that name.
    Missing,
    /// The file has more bytes than were allowed.
    TooLong,
    /// Memory for its bytes could not be had.
    NoMemory,
}
