//! The commands of the console.

ghost use Rattle.std.specs.Prelude.{◌≡◌};
ghost use Rattle.console_lang.specs.declared.command.CommandFault.TheVariants.{NoMemory as OutOfMemory};

use mark_types::lists::NoMemory;
use mark_types::text_lines::Text;
use std::alloc::AllocError;

/// What a line of the console asks for. A place is the number of a paragraph, as it is written: no
/// command knows how many paragraphs there are.
#[derive(Debug, Drop)]
pub enum Command {
    /// `ins P TEXT`: a new paragraph with this text, before the one at the place.
    Ins {
        place: u32,
        text: Text,
    },
    /// `put P TEXT`: this text in place of the paragraph.
    Put {
        place: u32,
        text: Text,
    },
    /// `sub P FROM TO TEXT`: this text in place of the paragraph's bytes from `from` up to `to`,
    /// from 0.
    Sub {
        place: u32,
        from: u32,
        to: u32,
        text: Text,
    },
    /// `del P`: without the paragraph.
    Del {
        place: u32,
    },
    /// `load AFF DIC`: another dictionary, by the names of its files.
    Load {
        aff: Text,
        dic: Text,
    },
    /// `own TEXT`: one more item of the list of personal words, as a line of such a list.
    Own {
        text: Text,
    },
    /// `stop P`: the paragraph is not to be checked.
    Stop {
        place: u32,
    },
    /// `ask P`: the paragraph is to be checked again.
    Ask {
        place: u32,
    },
    /// `show`: the marks of all paragraphs.
    Show,
    /// `settle`: all paragraphs that are to be checked are checked.
    Settle,
    /// `quit`: the console ends.
    Quit,
}

/// Why a line gives no command.
#[derive(Clone, Copy, Debug, PartialEq, Eq)]
pub enum CommandFault {
    /// The line is not blank, and of the form of no command.
    BadCommand,
    /// Memory for the command's texts could not be had.
    NoMemory,
}

impl From<NoMemory> for CommandFault {
    ghost from_gives = { λ _ fault. fault ≡ OutOfMemory };

    fn from(_wanting: NoMemory) -> CommandFault {
        CommandFault::NoMemory
    }
}
