//! Why a board refuses an event.

ghost use Rattle.std.specs.Prelude.{◌≡◌};
ghost use Rattle.edit_core.specs.Steps.{refusal_of};
ghost use Rattle.edit_core.specs.declared.refusal.Refusal.TheVariants.{NoMemory as OutOfMemory};

use mark_types::lists::NoMemory;
use paragraph_text::EditRefusal;
use std::alloc::AllocError;

/// Why a board refuses an event. Where several causes are there, `Spent` is told first; then come
/// those of the event, in this order; and want of memory may be told at any time.
#[derive(Clone, Copy, Debug, PartialEq, Eq)]
pub enum Refusal {
    /// The board stands at the last point of its history, which is this one: 2^62.
    Spent { point: u64 },
    /// The paragraph that is named is not there.
    Gone { id: u64 },
    /// The paragraph has this rev, and not the one that was given.
    Behind { rev: u64 },
    /// The bytes are not whole characters of the paragraph, which has so many bytes.
    BadSpan { length: u64 },
    /// The text that is put has a line feed, the first at this byte.
    HasBreak { at: u64 },
    /// The paragraph would have so many bytes, more than 65,536.
    TooLong { would: u64 },
    /// There are so many paragraphs that none may be put in: 20,000.
    Full { count: u64 },
    /// This worker holds the paragraph already.
    Taken { by: u32 },
    /// This dictionary version is in force, and not the one that was given.
    Reloaded { dict: u64 },
    /// The paragraph, which has this rev, is finished.
    Finished { rev: u64 },
    /// The paragraph, which has this rev, is parked.
    Parked { rev: u64 },
    /// The paragraph, which has this rev, is not parked.
    NotParked { rev: u64 },
    /// Memory for the answer could not be had.
    NoMemory,
}

impl From<NoMemory> for Refusal {
    ghost from_gives = { λ _ refusal. refusal ≡ OutOfMemory };

    fn from(_wanting: NoMemory) -> Refusal {
        Refusal::NoMemory
    }
}

impl From<AllocError> for Refusal {
    ghost from_gives = { λ _ refusal. refusal ≡ OutOfMemory };

    fn from(_wanting: AllocError) -> Refusal {
        Refusal::NoMemory
    }
}

impl From<EditRefusal> for Refusal {
    ghost from_gives = { λ refusal told. told ≡ refusal_of refusal };

    fn from(refusal: EditRefusal) -> Refusal {
        match refusal {
            EditRefusal::Gone { id } => Refusal::Gone { id },
            EditRefusal::Behind { rev } => Refusal::Behind { rev },
            EditRefusal::BadSpan { length } => Refusal::BadSpan { length },
            EditRefusal::HasBreak { at } => Refusal::HasBreak { at },
            EditRefusal::TooLong { would } => Refusal::TooLong { would },
            EditRefusal::Full { count } => Refusal::Full { count },
            EditRefusal::NoMemory => Refusal::NoMemory,
        }
    }
}
