//! What sessions are to do.

ghost use Rattle.std.specs.Prelude.{◌≡◌, ◌≤◌, All, IfOk, length};
ghost use Rattle.team_script.specs.Lines.{HasNoBreak};
ghost use Rattle.team_script.specs.Pairs.{LoadsAmong};
ghost use Rattle.team_forms.specs.Teamwork.{scripts_in};

use outside::lists::NoMemory;
use std::alloc::Global;
use std::marker::Model;
use team_script::Script;

/// The greatest number of a session.
const MOST_SESSIONS: u32 = 16;

/// What a session is to do: its number, and its lines. Contracts see it as these two.
#[derive(Drop)]
pub struct SessionLines<'a> {
    pub session: u32,
    pub lines: Vec<&'a str>,
}

impl<'a> Model for SessionLines<'a> {
    ghost use Rattle.std.specs.Prelude.{map};
    ghost use Rattle.team_forms.specs.Teamwork.{Script};

    ghost Value = { Script };

    ghost view = { λ inside. record {
      session = inside.session;
      lines = map (λ line. line.now) inside.lines.items;
    } };
}

/// What a script is to each session that has a line in it, by rising number. All lines are gone
/// through for each of 16 numbers.
pub fn scripts_of(alloc: Global, script: &Script) -> Result<Vec<SessionLines<'_>>, NoMemory>
    ensures scripts { IfOk result (λ scripts. scripts.items ≡ scripts_in script.now.lines) }
    ensures few { IfOk result (λ scripts. length scripts.items ≤ 16) }
    ensures short { IfOk result
        (λ scripts. All (λ of_one. length of_one.lines ≤ length script.now.lines) scripts.items) }
    ensures whole { IfOk result
        (λ scripts. All (λ of_one. All HasNoBreak of_one.lines) scripts.items) }
    ensures named { IfOk result
        (λ scripts. All (λ of_one. All (LoadsAmong script.now.pairs) of_one.lines) scripts.items) }
{
    let mut scripts = Vec::new(alloc);
    for before in 0..MOST_SESSIONS {
        let session = before + 1;
        if script.has(session) {
            let lines = script.lines_of(alloc, session)?;
            scripts.push(SessionLines { session, lines })?;
        }
    }
    Ok(scripts)
}
