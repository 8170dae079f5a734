//! Why a file is no script.

ghost use Rattle.std.specs.Prelude.{◌≡◌};
ghost use Rattle.team_script.specs.declared.fault.ScriptFault.TheVariants.{NoMemory as OutOfMemory};

use text_lines::lists::NoMemory;

/// Why a file is no script. Of several causes the one that stands first here is told.
#[derive(Clone, Copy, Debug, PartialEq, Eq)]
pub enum ScriptFault {
    /// This is the first line that is not UTF-8, or of no form of a script's line. Lines count from
    /// 1.
    Bad { line: u64 },
    /// The text of some session's line has more than 131,072 bytes.
    LongLine,
    /// The texts load more than 4 different pairs of dictionary files.
    ManyPairs,
    /// Memory for the script could not be had.
    NoMemory,
}

impl From<NoMemory> for ScriptFault {
    ghost from_gives = { λ _ fault. fault ≡ OutOfMemory };

    fn from(_wanting: NoMemory) -> ScriptFault {
        ScriptFault::NoMemory
    }
}
