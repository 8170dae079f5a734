//! A script: a file in which each line is for one of up to 16 sessions.
//!
//! A line `K TEXT` gives the session K, from 1 to 16, the text behind one space. A line of nothing
//! but spaces and tabs is for nobody. The lines of the file are those of `text_lines`. A session's
//! text is a line of the console, whatever it says; a script is asked only which pairs of
//! dictionary files its texts load.
#![tactic(auto)]

ghost use Rattle.std.specs.Prelude.{◌≡◌, ◌≤◌, length, IfOk};
ghost use Rattle.text_lines.specs.lists.Answers.{GivesDue};
ghost use Rattle.team_script.specs.Due.{MayComeOfScripts, script_due};

mod fault;
mod laws;
mod line;
mod pairs;
mod reading;
mod script;

pub use fault::ScriptFault;
pub use laws::{faults_have_causes, pairs_are_named_once};
pub use line::SessionLine;
pub use pairs::Pair;
use pairs::pairs_of;
use reading::{check_lengths, read_lines};
pub use script::Script;
use std::alloc::Global;

/// The script that a file is, or what is wrong with it first: a bad line, then a text that is too
/// long, then too many pairs. `bytes` are those of the whole file. A byte order mark at its start
/// is dropped, and so is a carriage return before a line feed. Lines count from 1. A text is all
/// behind the number and the space. It has at most 131,072 bytes, and no line feed. A pair is two
/// names of files; at most 4 different ones are loaded. Where memory is wanting, nothing is said of
/// the file.
#[tactic(auto, unfolding(crate::specs::Due::script_due))]
pub fn read_script(alloc: Global, bytes: &[u8]) -> Result<Script, ScriptFault>
    ensures due { GivesDue MayComeOfScripts (λ script. script) (script_due bytes.now) result }
    ensures few { IfOk result (λ script. length script.lines ≤ length bytes.now) }
{
    let lines = read_lines(alloc, bytes)?;
    check_lengths(&lines)?;
    let pairs = pairs_of(alloc, &lines)?;
    Ok(Script::from_parts(lines, pairs))
}
