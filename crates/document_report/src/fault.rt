//! Why there is no report on a document.

ghost use Rattle.std.specs.Prelude.{◌≡◌};
ghost use Rattle.document_report.specs.declared.fault.DocumentFault.TheVariants.{NoMemory as OutOfMemory};

use mark_types::lists::NoMemory;
use std::alloc::AllocFailed;

/// Why there is no report on a document.
#[derive(Clone, Copy, Debug, PartialEq, Eq)]
pub enum DocumentFault {
    /// This is the first line that is not UTF-8. Lines count from 1.
    NotUtf8 { line: u64 },
    /// There are more paragraphs than this.
    TooManyParagraphs { limit: u64 },
    /// A paragraph has more bytes than this.
    LongParagraph { limit: u64 },
    /// Memory for the report could not be had.
    NoMemory,
}

impl From<NoMemory> for DocumentFault {
    ghost from_gives = { λ _ fault. fault ≡ OutOfMemory };

    fn from(_wanting: NoMemory) -> DocumentFault {
        DocumentFault::NoMemory
    }
}

impl<T: Drop> From<AllocFailed<T>> for DocumentFault {
    ghost from_gives = { λ _ fault. fault ≡ OutOfMemory };

    fn from(_wanting: AllocFailed<T>) -> DocumentFault {
        DocumentFault::NoMemory
    }
}
