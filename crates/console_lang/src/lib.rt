//! The words of the console: which lines are commands, and the text of each reply; and which lines
//! of a script are for which session.
#![tactic(auto)]

ghost use Rattle.std.specs.Prelude.{◌≡◌, ◌↔◌, true, false, ℕ, List, Some};
ghost use Rattle.console_lang.specs.declared.command.Command.{Command};
ghost use Rattle.console_lang.specs.Words.{is_blank_line};
ghost use Rattle.console_lang.specs.Commands.{command_of};
ghost use Rattle.console_lang.specs.CommandLines.{IsLineOf};
ghost use Rattle.console_lang.specs.Scripts.{script_of, Nothing, ToSession, IsFor};

mod command;
mod forms;
mod reading;
mod reply;
mod script;
mod words;

pub use command::{Command, CommandFault};
pub use reading::read_command;
pub use reply::{Reply, ShownPara, write_reply};
pub use script::{ScriptLine, script_line};

/// A line is read as a command exactly where it is one of the command's lines. Different commands
/// have different lines, and none of them is blank.
pub fn commands_have_their_lines()
    ensures lines { (command : Command) (line : List ℕ) → (command_of line ≡ Some command)
        ↔ IsLineOf command line }
    ensures differ { (command other : Command) (line : List ℕ) → IsLineOf command line
        → IsLineOf other line → command ≡ other }
    ensures never_blank { (command : Command) (line : List ℕ) → IsLineOf command line
        → is_blank_line line ≡ false }
{}

/// A line of a script is read as a text for a session exactly where it is the session's number and
/// that text behind it, and as nothing exactly where it is blank.
pub fn sessions_have_their_lines()
    ensures lines { (session : ℕ) (text line : List ℕ) → (script_of line ≡ ToSession session text)
        ↔ IsFor session text line }
    ensures blank { (line : List ℕ) → (script_of line ≡ Nothing) ↔ (is_blank_line line ≡ true) }
{}
