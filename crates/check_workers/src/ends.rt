//! Why a check ends without marks, and why a worker ends.

ghost use Rattle.std.specs.Prelude.{◌≡◌};
ghost use Rattle.check_workers.specs.declared.ends.CheckEnd.TheVariants.{NoMemory as OutOfMemory};

use outside::lists::NoMemory;
use std::alloc::AllocError;

/// Why the check of a claim is not wanted any more. Of several causes the first in this order is
/// told.
#[derive(Clone, Copy, Debug, PartialEq, Eq)]
pub enum Why {
    /// The paragraph is not there.
    Gone,
    /// It has this rev, and not the claim's.
    Behind { rev: u64 },
    /// This dictionary version is in force, and not the claim's.
    Reloaded { dict: u64 },
    /// It is parked, with this rev.
    Parked { rev: u64 },
}

/// Why a claim was not checked.
#[derive(Clone, Copy, Debug, PartialEq, Eq)]
pub enum CheckEnd {
    /// A look showed that the check is not wanted any more.
    Stopped(Why),
    /// Memory for the check could not be had.
    NoMemory,
}

impl From<NoMemory> for CheckEnd {
    ghost from_gives = { λ _ end. end ≡ OutOfMemory };

    fn from(_wanting: NoMemory) -> CheckEnd {
        CheckEnd::NoMemory
    }
}

impl From<AllocError> for CheckEnd {
    ghost from_gives = { λ _ end. end ≡ OutOfMemory };

    fn from(_wanting: AllocError) -> CheckEnd {
        CheckEnd::NoMemory
    }
}

/// Why a worker ends.
#[derive(Clone, Copy, Debug, PartialEq, Eq)]
pub enum WorkEnd {
    /// The bell is closed.
    Closed,
    /// The history has come to its last point, which is this one: 2^62.
    Spent { point: u64 },
    /// Memory for a claim, for its check or for a finish could not be had.
    NoMemory,
}
