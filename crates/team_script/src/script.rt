//! A script that was read.

ghost use Rattle.std.specs.Prelude.{◌≡◌, All, IfOk};
ghost use Rattle.std.specs.List.{list_any};
ghost use Rattle.team_script.specs.Lines.{is_of, texts_of, lent, AreShort, HasNoBreak};
ghost use Rattle.team_script.specs.Pairs.{LoadsAmong};
ghost use Rattle.team_script.specs.Told.{ScriptTold, IsScriptTold};

use crate::line::SessionLine;
use crate::pairs::Pair;
use std::alloc::Global;
use std::marker::Model;
use text_lines::lists::{Items, NoMemory};

/// The lines of the sessions of a script, and the pairs of dictionary files that they load.
/// Contracts see it as the record of both.
#[derive(Debug, Drop)]
pub struct Script {
    lines: Items<SessionLine>,
    pairs: Items<Pair>,
}

impl Model for Script {
    ghost use Rattle.team_script.specs.Told.{ScriptTold, told, IsScriptTold};

    ghost Value = { ScriptTold };

    ghost view = { λ inside. told inside.lines inside.pairs };

    ghost invariant = { λ inside. IsScriptTold (told inside.lines inside.pairs) };
}

impl Script {
    ghost use Rattle.team_script.specs.Told.{told};

    /// The script of these lines and of the pairs that they load.
    pub(crate) fn from_parts(lines: Items<SessionLine>, pairs: Items<Pair>) -> Script
        requires { IsScriptTold (told lines pairs) }
        ensures { result ≡ told lines pairs }
    {
        Script { lines, pairs }
    }

    /// The lines of all sessions, in the order of the file.
    pub fn lines(&self) -> &[SessionLine]
        ensures lines { result.now ≡ self.now.lines }
        ensures told { IsScriptTold self.now }
    {
        self.lines.as_slice()
    }

    /// The different pairs that the lines load, in the order in which they are first named: 4 at
    /// most.
    pub fn pairs(&self) -> &[Pair]
        ensures pairs { result.now ≡ self.now.pairs }
        ensures told { IsScriptTold self.now }
    {
        self.pairs.as_slice()
    }

    /// Whether a line is for this session.
    pub fn has(&self, session: u32) -> bool
        ensures { result ≡ list_any (is_of session) self.now.lines }
    {
        self.lines.iter().any(|line| line.session == session)
    }

    /// The texts of this session, in their order. Each has at most 131,072 bytes and no line feed,
    /// and the pair that it loads, if it loads one, is among the script's pairs. All lines are gone
    /// through once. It fails only where memory is wanting.
    pub fn lines_of(&self, alloc: Global, session: u32) -> Result<Vec<&str>, NoMemory>
        ensures texts { IfOk result
            (λ texts. lent texts.items ≡ texts_of session self.now.lines) }
        ensures short { IfOk result (λ texts. AreShort (lent texts.items)) }
        ensures whole { IfOk result (λ texts. All HasNoBreak (lent texts.items)) }
        ensures named { IfOk result
            (λ texts. All (LoadsAmong self.now.pairs) (lent texts.items)) }
    {
        texts_of(alloc, session, &self.lines)
    }
}

/// The texts of the lines that are for this session, in their order.
fn texts_of(alloc: Global, session: u32, lines: &[SessionLine]) -> Result<Vec<&str>, NoMemory>
    ensures { IfOk result (λ texts. lent texts.items ≡ texts_of session lines.now) }
{
    let mut texts = Vec::new(alloc);
    for line in lines {
        if line.session == session {
            texts.push(line.text.as_str())?;
        }
    }
    Ok(texts)
}
