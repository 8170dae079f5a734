//! The causes of faults.

ghost use Rattle.std.specs.Prelude.{◌≡◌};
ghost use Rattle.aff_lines.specs.Faults.{cause_number, why_name};

use line_faults::Cause;

/// What is wrong with a line. Of two causes at one line the one that stands first here is told.
#[derive(Clone, Copy, Debug, PartialEq, Eq)]
pub enum AffWhy {
    /// The line is not UTF-8.
    NotUtf8,
    /// The file names another encoding than UTF-8.
    OtherEncoding,
    /// The option is not built.
    LeftOut,
    /// A field that the option needs is not there.
    MissingField,
    /// The option may not be given again.
    Twice,
    /// A field is no number, or one that is too high.
    BadNumber,
    /// More lines are announced than are allowed.
    TooMany,
    /// Fewer lines follow than are announced.
    TableShort,
    /// There is no such type of flags.
    OtherFlag,
    /// Whether a class may be crossed is neither `Y` nor `N`.
    BadCross,
    /// A field lists no flags of the type, or not one.
    BadFlag,
    /// A field is not the ordinal of an alias.
    BadAlias,
    /// A bracket of a condition is not closed.
    BadCondition,
    /// A compound rule is no list of flags.
    BadPattern,
}

impl AffWhy {
    /// The name of the cause, as the program prints it.
    #[tactic(auto, unfolding(crate::specs::Faults::why_name))]
    pub fn name(self) -> &'static str
        ensures { result.now ≡ why_name self }
    {
        match self {
            AffWhy::NotUtf8 => "NotUtf8",
            AffWhy::OtherEncoding => "OtherEncoding",
            AffWhy::LeftOut => "LeftOut",
            AffWhy::MissingField => "MissingField",
            AffWhy::Twice => "Twice",
            AffWhy::BadNumber => "BadNumber",
            AffWhy::TooMany => "TooMany",
            AffWhy::TableShort => "TableShort",
            AffWhy::OtherFlag => "OtherFlag",
            AffWhy::BadCross => "BadCross",
            AffWhy::BadFlag => "BadFlag",
            AffWhy::BadAlias => "BadAlias",
            AffWhy::BadCondition => "BadCondition",
            AffWhy::BadPattern => "BadPattern",
        }
    }
}

/// A fault of an .aff file.
pub type Fault = line_faults::Fault<AffWhy>;

/// Why an .aff file is not read.
#[derive(Clone, Copy, Debug, PartialEq, Eq)]
pub enum AffFault {
    /// The file has a fault.
    At { line: u64, why: AffWhy },
    /// Memory for the answer could not be had.
    NoMemory,
}

impl Cause for AffWhy {
    ghost number = { cause_number };

    #[tactic(auto, unfolding(crate::specs::Faults::cause_number))]
    fn number(self) -> u8 {
        match self {
            AffWhy::NotUtf8 => 1,
            AffWhy::OtherEncoding => 2,
            AffWhy::LeftOut => 3,
            AffWhy::MissingField => 4,
            AffWhy::Twice => 5,
            AffWhy::BadNumber => 6,
            AffWhy::TooMany => 7,
            AffWhy::TableShort => 8,
            AffWhy::OtherFlag => 9,
            AffWhy::BadCross => 10,
            AffWhy::BadFlag => 11,
            AffWhy::BadAlias => 12,
            AffWhy::BadCondition => 13,
            AffWhy::BadPattern => 14,
        }
    }
}
