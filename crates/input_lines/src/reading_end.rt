//! How the reading of an input ends.

ghost use Rattle.std.specs.Prelude.{◌≡◌};
ghost use Rattle.input_lines.specs.declared.reading_end.ReadingEnd.TheVariants.{NoMemory as OutOfMemory};

use std::alloc::AllocError;

/// How the reading of an input has ended.
#[derive(Clone, Copy, Debug, PartialEq, Eq)]
pub enum ReadingEnd {
    /// All lines were answered, up to one that ends the input or to its end.
    Finished,
    /// The input failed.
    Interrupted,
    /// The input has more than 4,294,967,295 bytes.
    TooMuch,
    /// A line has more than 131,072 bytes.
    LongLine,
    /// Memory was wanting.
    NoMemory,
    /// The sink failed.
    SinkFailed,
}

impl From<AllocError> for ReadingEnd {
    ghost from_gives = { λ _ ended. ended ≡ OutOfMemory };

    fn from(_wanting: AllocError) -> ReadingEnd {
        ReadingEnd::NoMemory
    }
}
