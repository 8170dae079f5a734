//! Why files are refused.

ghost use Rattle.std.specs.Prelude.{◌≡◌};
ghost use Rattle.dic_reader.specs.Faults.{dic_cause_number};
ghost use Rattle.affedit_c.specs.Faults.{refused_at_line, refused_too_long};
ghost use Rattle.affedit_c.specs.declared.faults.Refusal.TheVariants.{NoMemory as OutOfMemory};

use dic_reader::DicWhy;
use mark_types::lists::NoMemory;

/// The .aff file of a dictionary, among the files that may have a fault.
pub const AFF_FILE: u32 = 1;

/// The .dic file of a dictionary.
pub const DIC_FILE: u32 = 2;

/// A list of personal words.
pub const OWN_FILE: u32 = 3;

/// The first fault of a file, as C is told it.
#[repr(C)]
#[derive(Clone, Copy, Debug, Drop, PartialEq, Eq)]
pub struct Fault {
    /// The line, from 1; 0 where the file has too many bytes.
    pub line: u64,
    /// Which file it is.
    pub file: u32,
    /// The place of the cause among all causes of such a file, from 1; 0 where the file has too
    /// many bytes.
    pub cause: u32,
}

/// Why files are not read.
#[derive(Clone, Copy, Debug, PartialEq, Eq)]
pub enum Refusal {
    /// A file has this fault.
    Refused(Fault),
    /// Memory for what they say could not be had.
    NoMemory,
}

impl Refusal {
    /// A fault at a line of a file.
    pub fn at(file: u32, line: u64, cause: u8) -> Refusal
        ensures { result ≡ refused_at_line file line cause }
    {
        let cause = u32::from(cause);
        Refusal::Refused(Fault { line, file, cause })
    }

    /// A file has too many bytes.
    pub fn too_long(file: u32) -> Refusal
        ensures { result ≡ refused_too_long file }
    {
        Refusal::at(file, 0, 0)
    }
}

impl From<NoMemory> for Refusal {
    ghost from_gives = { λ _ refusal. refusal ≡ OutOfMemory };

    fn from(_wanting: NoMemory) -> Refusal {
        Refusal::NoMemory
    }
}

/// The place of a cause among all causes of a .dic file.
#[tactic(auto, unfolding(dic_reader::specs::Faults::dic_cause_number))]
pub fn dic_cause(why: DicWhy) -> u8
    ensures { result ≡ dic_cause_number why }
{
    match why {
        DicWhy::NotUtf8 => 1,
        DicWhy::BadCount => 2,
        DicWhy::EmptyWord => 3,
        DicWhy::BadFlag => 4,
        DicWhy::BadAlias => 5,
        DicWhy::TooMany => 6,
    }
}
