//! What a worker is told of a paragraph that it has claimed.

ghost use Rattle.std.specs.Prelude.{◌≡◌};
ghost use Rattle.board_share.specs.declared.claim.ClaimFault.TheVariants.{NoMemory as OutOfMemory};

use mark_types::lists::NoMemory;
use mark_types::text_lines::Text;
use std::sync::Arc;

/// A paragraph that a worker holds, and what it is to be checked by.
#[derive(Drop)]
pub struct Claim<J> {
    /// Its id.
    pub id: u64,
    /// The text version that last touched it.
    pub rev: u64,
    /// The version of the dictionary.
    pub dict: u64,
    /// Its text.
    pub text: Arc<Text>,
    /// The judge of the dictionary.
    pub judge: Arc<J>,
}

/// Why no paragraph was claimed, though one waits.
#[derive(Clone, Copy, Debug, PartialEq, Eq)]
pub enum ClaimFault {
    /// The history has come to its last point, which is this one: 2^62.
    Spent { point: u64 },
    /// Memory for the claim could not be had.
    NoMemory,
}

impl From<NoMemory> for ClaimFault {
    ghost from_gives = { λ _ fault. fault ≡ OutOfMemory };

    fn from(_wanting: NoMemory) -> ClaimFault {
        ClaimFault::NoMemory
    }
}
