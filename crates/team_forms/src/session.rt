//! A session, which answers its lines in whatever thread it is given.

ghost use Rattle.std.specs.Prelude.{◌≡◌, IfOk, None, map};
ghost use Rattle.std.specs.String.{string_bytes};
ghost use Rattle.team_forms.specs.Sessions.{HasPerformed, IsSessionReady};
ghost use Rattle.team_forms.specs.Teamwork.{session_line};

use crate::answering::answer_all;
use crate::pairs::LoadedPair;
use crate::scripts::SessionLines;
use board_share::{Desk, Eye, Naming};
use check_workers::Bell;
use desk_console::{DeskConsole, Stop};
use joined_tasks::Task;
use mark_types::Judge;
use outside::Gate;
use outside::lists::NoMemory;
use std::alloc::{AllocError, Global};
use std::marker::Model;
use std::sync::Wait;

/// A session: a console over an eye of its own, what it is to do, and what is to be printed of it.
#[derive(Drop)]
pub(crate) struct TeamSession<
    'a,
    'p,
    's,
    't,
    J: Judge + Drop,
    D: Naming,
    W: Wait + Drop,
    R: Wait,
    G: Gate,
> {
    pub(crate) alloc: Global,
    pub(crate) gate: &'a G,
    pub(crate) number: u32,
    pub(crate) lines: &'s [&'t str],
    pub(crate) pairs: &'p [LoadedPair<J>],
    pub(crate) console: DeskConsole<'a, J, (), D, W, R>,
    pub(crate) text: String,
    /// Why it was stopped, if it was.
    pub(crate) stopped: Option<Stop>,
}

impl<'a, 'p, 's, 't, J: Judge + Drop, D: Naming, W: Wait + Drop, R: Wait, G: Gate> Model
    for TeamSession<'a, 'p, 's, 't, J, D, W, R, G> {
    ghost use Rattle.std.specs.Prelude.{map};
    ghost use Rattle.std.specs.String.{string_bytes};
    ghost use Rattle.team_forms.specs.Sessions.{SessionSeen};

    ghost Value = { SessionSeen J };

    ghost view = { λ inside. record {
      number = inside.number;
      lines = map (λ line. line.now) inside.lines.now;
      pairs = inside.pairs.now;
      eye = inside.console.eye;
      text = string_bytes inside.text;
      stopped = inside.stopped;
    } };
}

impl<J: Judge + Drop, D: Naming, W: Wait + Drop, R: Wait, G: Gate> Task
    for TeamSession<'_, '_, '_, '_, J, D, W, R, G> {
    ghost IsReady = { IsSessionReady };

    ghost Does = { HasPerformed J.lexicon };

    /// Passes the gate, and answers its lines.
    fn perform(&mut self) {
        self.gate.enter(self.number);
        let answered = answer_all(
            self.alloc,
            self.number,
            self.lines,
            self.pairs,
            &mut self.console,
            &mut self.text,
        );
        self.stopped = answered.err();
    }
}

/// What the sessions of a desk share.
#[derive(Drop)]
pub(crate) struct Hall<'a, 'p, J: Judge + Drop, D: Naming, W: Wait + Drop, R: Wait, G: Gate> {
    pub(crate) rt: &'a R,
    pub(crate) alloc: Global,
    pub(crate) desk: &'a Desk<J, D, W>,
    pub(crate) bell: &'a Bell,
    pub(crate) gate: &'a G,
    pub(crate) pairs: &'p [LoadedPair<J>],
}

/// A session over this eye, which has done nothing.
pub(crate) fn session_of<
    'a,
    'p,
    's,
    't,
    J: Judge + Drop,
    D: Naming,
    W: Wait + Drop,
    R: Wait,
    G: Gate,
>(
    hall: &Hall<'a, 'p, J, D, W, R, G>,
    script: &'s SessionLines<'t>,
    eye: Eye<J, D>,
) -> Result<TeamSession<'a, 'p, 's, 't, J, D, W, R, G>, NoMemory>
    ensures { IfOk result (λ session. session ≡ record {
      number = script.now.session;
      lines = script.now.lines;
      pairs = hall.now.pairs.now;
      eye = eye;
      text = session_line script.now.session;
      stopped = None;
    }) }
{
    let text = head_of(hall.alloc, script.session)?;
    Ok(TeamSession {
        alloc: hall.alloc,
        gate: hall.gate,
        number: script.session,
        lines: script.lines.as_slice(),
        pairs: hall.pairs,
        console: DeskConsole::new(hall.rt, hall.desk, hall.bell, eye, ()),
        text,
        stopped: None,
    })
}

/// The line before the replies of a session.
fn head_of(alloc: Global, session: u32) -> Result<String, AllocError>
    ensures { IfOk result (λ text. string_bytes text ≡ session_line session) }
{
    let mut text = String::new(alloc);
    write!(text, "session {session}\n")?;
    Ok(text)
}

impl<J: Judge + Drop, D: Naming, W: Wait + Drop, R: Wait, G: Gate> TeamSession<
    '_,
    '_,
    '_,
    '_,
    J,
    D,
    W,
    R,
    G,
> {
    /// Its eye, what is to be printed of it, and why it was stopped, if it was.
    pub(crate) fn into_parts(self) -> (Eye<J, D>, String, Option<Stop>)
        ensures eye { result.0 ≡ self.entry.eye }
        ensures text { string_bytes result.1 ≡ self.entry.text }
        ensures stopped { result.2 ≡ self.entry.stopped }
    {
        let TeamSession {
            console,
            text,
            stopped,
            ..
        } = self;
        let (eye, _stopped) = console.into_eye();
        (eye, text, stopped)
    }
}
