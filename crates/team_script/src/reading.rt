//! Reads the lines of a script.

ghost use Rattle.std.specs.Prelude.{◌≡◌, ◌≤◌, ℕ, List, length, All, OnOk, IfOk};
ghost use Rattle.std.specs.List.{list_any};
ghost use Rattle.text_lines.specs.lists.Answers.{GivesDue};
ghost use Rattle.text_lines.specs.Lines.{IsInside, line_texts};
ghost use Rattle.team_script.specs.Lines.{told_in, is_long, HaveShort, HaveWhole};
ghost use Rattle.team_script.specs.Lines.{IsNumbered};
ghost use Rattle.team_script.specs.Due.{MayComeOfScripts, good_due, lines_due, unless_long};

use crate::fault::ScriptFault;
use crate::line::SessionLine;
use console_lang::{ScriptLine, script_line, sessions_have_their_lines};
use std::alloc::Global;
use text_lines::found::Line;
use text_lines::lists::Items;
use text_lines::{Text, line_text, lines};

/// How many bytes the text of a session's line has at most.
const TEXT_LIMIT: usize = 131_072;

/// The lines of the sessions, unless a line of the file is bad.
pub fn read_lines(alloc: Global, bytes: &[u8]) -> Result<Items<SessionLine>, ScriptFault>
    ensures due { GivesDue MayComeOfScripts (λ told. told) (lines_due (line_texts bytes.now)) result }
    ensures sessions { IfOk result (All IsNumbered) }
    ensures whole { IfOk result HaveWhole }
    ensures few { IfOk result (λ told. length told ≤ length bytes.now) }
{
    lines_are_sound();
    let found = lines(alloc, bytes)?;
    let told = good_lines(alloc, bytes, &found.good)?;
    match found.bad {
        None => Ok(told),
        Some(line) => Err(ScriptFault::Bad { line }),
    }
}

/// Each line that is told is for a session from 1 to 16. Where the lines are those of a file, no
/// text that is told has a line feed.
fn lines_are_sound()
    ensures sessions { (texts : List (List ℕ)) → All IsNumbered (told_in texts) }
    ensures whole { (bytes : List ℕ) → HaveWhole (told_in (line_texts bytes)) }
{
    sessions_have_their_lines();
}

/// The lines of the sessions among these, unless one of them is of no form.
fn good_lines(
    alloc: Global,
    bytes: &[u8],
    lines: &[Line],
) -> Result<Items<SessionLine>, ScriptFault>
    requires { All (IsInside bytes.now) lines.now }
    ensures { GivesDue MayComeOfScripts (λ told. told) (good_due bytes.now lines.now) result }
{
    let mut told = Items::new(alloc);
    for line in lines {
        match script_line(line_text(bytes, line)) {
            ScriptLine::Blank => {}
            ScriptLine::Of { session, text } => told.push(SessionLine {
                session,
                text: Text::from_str(alloc, text)?,
            })?,
            ScriptLine::Bad => return Err(ScriptFault::Bad { line: line.number }),
        }
    }
    Ok(told)
}

/// Whether no text is too long.
#[tactic(auto, unfolding(crate::specs::Due::unless_long))]
pub fn check_lengths(lines: &[SessionLine]) -> Result<(), ScriptFault>
    ensures due { GivesDue MayComeOfScripts (λ _. lines.now) (unless_long lines.now) result }
    ensures short { OnOk result (HaveShort lines.now) }
{
    if has_long(lines) {
        return Err(ScriptFault::LongLine);
    }
    Ok(())
}

fn has_long(lines: &[SessionLine]) -> bool
    ensures { result ≡ list_any is_long lines.now }
{
    lines
        .iter()
        .any(|line| line.text.as_str().len() > TEXT_LIMIT)
}
