//! The causes of faults of personal lists.

ghost use Rattle.std.specs.Prelude.{◌≡◌};
ghost use Rattle.personal_words.specs.Faults.{own_cause_number, own_cause_name, line_why_name};
ghost use Rattle.personal_words.specs.declared.faults.OwnFault.TheVariants as fault;
ghost use Rattle.personal_words.specs.declared.faults.OwnLineFault.TheVariants as line;

use line_faults::Cause;
use mark_types::lists::NoMemory;

/// What is wrong with a line of a file. Of two causes at one line the one that stands first here is
/// told.
#[derive(Clone, Copy, Debug, PartialEq, Eq)]
pub enum OwnWhy {
    /// The line is not UTF-8.
    NotUtf8,
    /// An item has no word, or a slash and no model behind it.
    EmptyWord,
    /// There are more items than are allowed.
    TooMany,
}

impl OwnWhy {
    /// The name of the cause, as the program prints it.
    #[tactic(auto, unfolding(crate::specs::Faults::own_cause_name))]
    pub fn name(self) -> &'static str
        ensures { result.now ≡ own_cause_name self }
    {
        match self {
            OwnWhy::NotUtf8 => "NotUtf8",
            OwnWhy::EmptyWord => "EmptyWord",
            OwnWhy::TooMany => "TooMany",
        }
    }
}

impl Cause for OwnWhy {
    ghost number = { own_cause_number };

    #[tactic(auto, unfolding(crate::specs::Faults::own_cause_number))]
    fn number(self) -> u8 {
        match self {
            OwnWhy::NotUtf8 => 1,
            OwnWhy::EmptyWord => 2,
            OwnWhy::TooMany => 3,
        }
    }
}

/// Why a personal list is not read.
#[derive(Clone, Copy, Debug, PartialEq, Eq)]
pub enum OwnFault {
    /// The file has a fault at this line, from 1.
    At { line: u64, why: OwnWhy },
    /// Memory for the answer could not be had.
    NoMemory,
}

impl From<NoMemory> for OwnFault {
    ghost from_gives = { λ _ gives. gives ≡ fault.NoMemory };

    fn from(_wanting: NoMemory) -> OwnFault {
        OwnFault::NoMemory
    }
}

/// What is wrong with a line that is to be added to a list.
#[derive(Clone, Copy, Debug, PartialEq, Eq)]
pub enum OwnLineWhy {
    /// The item has no word, or a slash and no model behind it.
    EmptyWord,
    /// The list has as many items as are allowed.
    TooMany,
}

impl OwnLineWhy {
    /// The name of the cause, as the program prints it.
    #[tactic(auto, unfolding(crate::specs::Faults::line_why_name))]
    pub fn name(self) -> &'static str
        ensures { result.now ≡ line_why_name self }
    {
        match self {
            OwnLineWhy::EmptyWord => "EmptyWord",
            OwnLineWhy::TooMany => "TooMany",
        }
    }
}

/// Why a line is not added to a list.
#[derive(Clone, Copy, Debug, PartialEq, Eq)]
pub enum OwnLineFault {
    /// The line is wrong, or the list is full.
    Why(OwnLineWhy),
    /// Memory for the answer could not be had.
    NoMemory,
}

impl From<NoMemory> for OwnLineFault {
    ghost from_gives = { λ _ gives. gives ≡ line.NoMemory };

    fn from(_wanting: NoMemory) -> OwnLineFault {
        OwnLineFault::NoMemory
    }
}
