//! The causes of faults of .dic files.

ghost use Rattle.std.specs.Prelude.{◌≡◌};
ghost use Rattle.dic_reader.specs.Faults.{dic_cause_name};
ghost use Rattle.dic_reader.specs.declared.faults.DicFault.TheVariants.{NoMemory as OutOfMemory};

use text_lines::lists::NoMemory;

/// What is wrong with a line. Of two causes at one line the one that stands first here is told.
#[derive(Clone, Copy, Debug, PartialEq, Eq)]
pub enum DicWhy {
    /// The line is not UTF-8.
    NotUtf8,
    /// The first line does not begin with a digit behind spaces.
    BadCount,
    /// An entry has no word.
    EmptyWord,
    /// A field lists no flags of the type.
    BadFlag,
    /// A field is not the ordinal of an alias.
    BadAlias,
    /// There are more entries than are allowed.
    TooMany,
}

impl DicWhy {
    /// The name of the cause, as the program prints it.
    #[tactic(auto, unfolding(crate::specs::Faults::dic_cause_name))]
    pub fn name(self) -> &'static str
        ensures { result.now ≡ dic_cause_name self }
    {
        match self {
            DicWhy::NotUtf8 => "NotUtf8",
            DicWhy::BadCount => "BadCount",
            DicWhy::EmptyWord => "EmptyWord",
            DicWhy::BadFlag => "BadFlag",
            DicWhy::BadAlias => "BadAlias",
            DicWhy::TooMany => "TooMany",
        }
    }
}

/// Why a .dic file is not read.
#[derive(Clone, Copy, Debug, PartialEq, Eq)]
pub enum DicFault {
    /// The file has a fault at this line, from 1.
    At { line: u64, why: DicWhy },
    /// Memory for the answer could not be had.
    NoMemory,
}

impl From<NoMemory> for DicFault {
    ghost from_gives = { λ _ fault. fault ≡ OutOfMemory };

    fn from(_wanting: NoMemory) -> DicFault {
        DicFault::NoMemory
    }
}
