//! Sessions at once, from the start of their desk to its end.

ghost use Rattle.std.specs.Prelude.{◌≡◌, ◌+◌, ◌<◌, ◌≤◌, ◌++◌, ℕ, [], All, IfOk, List, OnOk, None};
ghost use Rattle.std.specs.Prelude.{Some, length, map};
ghost use Rattle.std.specs.Arc.{arc_value};
ghost use Rattle.std.specs.String.{string_bytes};
ghost use Rattle.team_history.specs.ToldBy.{NamedFiles};
ghost use Rattle.board_share.specs.edit_core.Seen.{opening_of};
ghost use Rattle.board_share.specs.Namings.{IsNamed};
ghost use Rattle.input_lines.specs.Answers.{HasNoBreak};
ghost use Rattle.team_forms.specs.Pairs.{IsLoaded, LoadsHeld};
ghost use Rattle.desk_console.specs.declared.stop.Stop.TheVariants.{Spent};
ghost use Rattle.team_forms.specs.Seats.{AreSeatsBehind, first_stop, fresh_eyes, seats};
ghost use Rattle.team_forms.specs.Sessions.{IsSessionReady};
ghost use Rattle.team_forms.specs.Teamwork.{IsTeamwork};

use crate::closing::BellTask;
use crate::pairs::LoadedPair;
use crate::scripts::SessionLines;
use crate::session::{Hall, TeamSession, session_of};
use board_share::edit_core::Board;
use board_share::{Blank, Closed, Desk, Eye, Naming};
use check_workers::Bell;
use desk_console::Stop;
use mark_types::Judge;
use outside::Gate;
use outside::lists::NoMemory;
use std::alloc::Global;
use std::marker::Brand;
use std::sync::{Arc, Wait};
use std::thread::Threads;
use team_history::{
    closed_sessions_are_not_spent, closed_sessions_are_told, heard_sessions_go_on,
    only_sessions_ask,
};
use worker_crew::{Crew, Room, Workplace, crew_of, work_beside_crowd};

/// How many workers and sessions there may be together.
pub const MOST_AT_ONCE: u64 = 63;

/// How many lines a session may have.
pub const MOST_LINES: u64 = 16_777_216;

/// What sessions at once have come to.
#[derive(Drop)]
pub struct Teamed<J: Judge + Drop> {
    /// What is to be printed of each session, in the order of their scripts.
    pub texts: Vec<String>,
    /// The history of their desk.
    pub closed: Closed<J>,
}

/// Opens a desk without a text by a dictionary, and a session over it for each script. All answer
/// their lines at once, each in a thread of its own, while so many workers check beside them. Where
/// no thread can be made, they come one after another. The desk is closed at the end. Where memory
/// for any session is wanting, nothing is told.
pub fn answer_at_once<J, R, G>(
    place: &Workplace<'_, R, G>,
    workers: u32,
    judge: Arc<J>,
    pairs: &[LoadedPair<J>],
    scripts: &[SessionLines<'_>],
) -> Result<Teamed<J>, NoMemory>
where
    J: Judge + Drop + Send + Sync,
    R: Threads + Wait + Sync,
    G: Gate + Sync,
    requires few { workers + length scripts.now ≤ MOST_AT_ONCE }
    requires short { All (λ script. length script.lines ≤ MOST_LINES) scripts.now }
    requires whole { All (λ script. All HasNoBreak script.lines) scripts.now }
    requires held { All (λ script. All (LoadsHeld pairs.now) script.lines) scripts.now }
    // The history of the desk tells what is to be printed, by the dictionaries that were loaded.
    ensures { IfOk result (λ done. (files : List NamedFiles)
        → All (IsLoaded J.lexicon files) pairs.now
        → IsTeamwork files workers (opening_of (J.lexicon (arc_value judge)) []) scripts.now
        done.closed (map string_bytes done.texts.items)) }
{
    let opening = empty_board(place.alloc, judge)?;
    let eyes = workers + scripts.len() as u32 + 1;
    answer_named::<J, Brand, R, G>(place, workers, opening, Blank::new(eyes), pairs, scripts)
}

/// A board without a text, by a dictionary.
fn empty_board<J: Judge + Drop>(alloc: Global, judge: Arc<J>) -> Result<Board<J>, NoMemory>
    ensures { IfOk result
        (λ board. board ≡ opening_of (J.lexicon (arc_value judge)) []) }
{
    match Board::opening(alloc, judge, Vec::new(alloc)) {
        Ok(board) => Ok(board),
        Err(_wanting) => Err(NoMemory),
    }
}

/// Starts a desk of this name with an eye for each worker and each session, and one more, so that
/// there is a desk where there are none.
fn answer_named<J, D, R, G>(
    place: &Workplace<'_, R, G>,
    workers: u32,
    opening: Board<J>,
    blank: Blank<J>,
    pairs: &[LoadedPair<J>],
    scripts: &[SessionLines<'_>],
) -> Result<Teamed<J>, NoMemory>
where
    J: Judge + Drop + Send + Sync,
    D: Naming + Send + Sync,
    R: Threads + Wait + Sync,
    G: Gate + Sync,
    requires few { workers + length scripts.now ≤ MOST_AT_ONCE }
    requires short { All (λ script. length script.lines ≤ MOST_LINES) scripts.now }
    requires whole { All (λ script. All HasNoBreak script.lines) scripts.now }
    requires held { All (λ script. All (LoadsHeld pairs.now) script.lines) scripts.now }
    requires opens { opening ≡ opening_of opening.lexicon [] }
    requires named { IsNamed blank opening D.name D.parts D.book D.opening }
    requires parts { blank.parts ≡ workers + length scripts.now + 1 }
    ensures { IfOk result (λ done. (files : List NamedFiles)
        → All (IsLoaded J.lexicon files) pairs.now
        → IsTeamwork files workers opening scripts.now done.closed
        (map string_bytes done.texts.items)) }
{
    let eyes = workers + scripts.len() as u32 + 1;
    let (desk, eyes) = Desk::<J, D, &R>::start(place.rt, place.alloc, opening, eyes, blank)?;
    answer_over(place, workers, desk, eyes, pairs, scripts)
}

/// Lets the workers and the sessions of a desk work, and closes the desk.
fn answer_over<J, D, W, R, G>(
    place: &Workplace<'_, R, G>,
    workers: u32,
    desk: Desk<J, D, W>,
    eyes: Vec<Eye<J, D>>,
    pairs: &[LoadedPair<J>],
    scripts: &[SessionLines<'_>],
) -> Result<Teamed<J>, NoMemory>
where
    J: Judge + Drop + Send + Sync,
    D: Naming + Send + Sync,
    W: Wait + Drop + Send + Sync,
    R: Threads + Wait + Sync,
    G: Gate + Sync,
    requires few { workers + length scripts.now ≤ MOST_AT_ONCE }
    requires short { All (λ script. length script.lines ≤ MOST_LINES) scripts.now }
    requires whole { All (λ script. All HasNoBreak script.lines) scripts.now }
    requires held { All (λ script. All (LoadsHeld pairs.now) script.lines) scripts.now }
    requires eyes { eyes.items
        ≡ fresh_eyes D.opening 0 (workers + length scripts.now + 1) }
    requires parts { D.parts ≡ workers + length scripts.now + 1 }
    requires empty { D.opening.paragraphs ≡ [] }
    ensures { IfOk result (λ done. (files : List NamedFiles)
        → All (IsLoaded J.lexicon files) pairs.now
        → IsTeamwork files workers D.opening scripts.now done.closed
        (map string_bytes done.texts.items)) }
{
    closed_sessions_are_not_spent();
    closed_sessions_are_told();
    heard_sessions_go_on();
    only_sessions_ask();
    let mut eyes = eyes;
    let Some(spare) = eyes.pop() else {
        unreachable!()
    };
    let Answered {
        mut eyes,
        texts,
        stopped,
    } = answer_by(place, workers, &desk, eyes, pairs, scripts)?;
    eyes.push(spare)?;
    let closed = desk.close(place.rt, eyes);
    concluded(stopped, texts, closed)
}

/// What sessions have come to whose desk is closed. One that was stopped has met want of memory,
/// since no history gets to its last point.
fn concluded<J: Judge + Drop>(
    stopped: Option<Stop>,
    texts: Vec<String>,
    closed: Closed<J>,
) -> Result<Teamed<J>, NoMemory>
    requires { (point : ℕ) → ¬ (stopped ≡ Some (Spent point)) }
    ensures none { OnOk result (stopped ≡ None) }
    ensures all { IfOk result (λ done. done ≡ record { texts = texts; closed = closed }) }
{
    match stopped {
        None => Ok(Teamed { texts, closed }),
        Some(Stop::Wanting) => Err(NoMemory),
        Some(Stop::Spent { .. }) => unreachable!(),
    }
}

/// What the workers and the sessions of a desk leave: their eyes, first those of the workers, what
/// is to be printed of each session, and why the first was stopped that was.
#[derive(Drop)]
struct Answered<J: Judge + Drop, D: Naming> {
    eyes: Vec<Eye<J, D>>,
    texts: Vec<String>,
    stopped: Option<Stop>,
}

/// Lets the workers and the sessions of a desk work: the first eyes are those of the workers.
fn answer_by<J, D, W, R, G>(
    place: &Workplace<'_, R, G>,
    workers: u32,
    desk: &Desk<J, D, W>,
    eyes: Vec<Eye<J, D>>,
    pairs: &[LoadedPair<J>],
    scripts: &[SessionLines<'_>],
) -> Result<Answered<J, D>, NoMemory>
where
    J: Judge + Drop + Send + Sync,
    D: Naming + Send + Sync,
    W: Wait + Drop + Send + Sync,
    R: Threads + Wait + Sync,
    G: Gate + Sync,
    requires few { workers + length scripts.now ≤ MOST_AT_ONCE }
    requires whole { All (λ script. All HasNoBreak script.lines) scripts.now }
    requires held { All (λ script. All (LoadsHeld pairs.now) script.lines) scripts.now }
    requires eyes { eyes.items ≡ fresh_eyes D.opening 0 (workers + length scripts.now) }
    ensures { IfOk result (λ answered. AreSeatsBehind J.lexicon
        (seats pairs.now scripts.now (fresh_eyes D.opening workers (length scripts.now)))
        (fresh_eyes D.opening 0 workers) answered.eyes.items
        (map string_bytes answered.texts.items) answered.stopped) }
{
    let mut eyes = eyes;
    let bell = Bell::new();
    let others = eyes.split_off(workers as usize)?;
    let room = Room {
        rt: place.rt,
        alloc: place.alloc,
        desk,
        bell: &bell,
        gate: place.gate,
    };
    let crew = crew_of(room, eyes)?;
    let hall = Hall {
        rt: place.rt,
        alloc: place.alloc,
        desk,
        bell: &bell,
        gate: place.gate,
        pairs,
    };
    let sessions = sessions_of(&hall, others, scripts)?;
    let closing = BellTask {
        rt: place.rt,
        bell: &bell,
    };
    answer_beside(place.alloc, crew, closing, sessions)
}

/// A session for each script, over the eye at the same place.
fn sessions_of<'a, 'p, 's, 't, J, D, W, R, G>(
    hall: &Hall<'a, 'p, J, D, W, R, G>,
    eyes: Vec<Eye<J, D>>,
    scripts: &'s [SessionLines<'t>],
) -> Result<Vec<TeamSession<'a, 'p, 's, 't, J, D, W, R, G>>, NoMemory>
where
    J: Judge + Drop,
    D: Naming,
    W: Wait + Drop,
    R: Wait,
    G: Gate,
    requires { length eyes.items ≡ length scripts.now }
    ensures { IfOk result
        (λ sessions. sessions.items ≡ seats hall.now.pairs.now scripts.now eyes.items) }
{
    let mut sessions = Vec::with_capacity(hall.alloc, eyes.len())?;
    for eye in eyes {
        let Some(script) = scripts.get(sessions.len()) else {
            unreachable!()
        };
        sessions.push(session_of(hall, script, eye)?)?;
    }
    Ok(sessions)
}

/// Lets sessions answer their lines at once, beside a crew.
fn answer_beside<J, D, W, R, G>(
    alloc: Global,
    crew: Crew<'_, J, D, W, R, G>,
    closing: BellTask<'_, R>,
    sessions: Vec<TeamSession<'_, '_, '_, '_, J, D, W, R, G>>,
) -> Result<Answered<J, D>, NoMemory>
where
    J: Judge + Drop + Send + Sync,
    D: Naming + Send + Sync,
    W: Wait + Drop + Send + Sync,
    R: Threads + Wait + Sync,
    G: Gate + Sync,
    requires { All IsSessionReady sessions.items }
    ensures { IfOk result (λ answered. AreSeatsBehind J.lexicon sessions.entry.items crew.entry
        answered.eyes.items (map string_bytes answered.texts.items) answered.stopped) }
{
    let mut sessions = sessions;
    let mut closing = closing;
    let eyes = work_beside_crowd(crew, &mut sessions, &mut closing);
    gather(alloc, eyes, sessions)
}

/// The eyes of sessions behind others, what is to be printed of each, and why the first was stopped
/// that was.
fn gather<J: Judge + Drop, D: Naming, W: Wait + Drop, R: Wait, G: Gate>(
    alloc: Global,
    eyes: Vec<Eye<J, D>>,
    sessions: Vec<TeamSession<'_, '_, '_, '_, J, D, W, R, G>>,
) -> Result<Answered<J, D>, NoMemory>
    ensures stopped { IfOk result
        (λ answered. answered.stopped ≡ first_stop sessions.entry.items) }
    ensures eyes { IfOk result (λ answered. answered.eyes.items
        ≡ eyes.items ++ map (λ session. session.eye) sessions.entry.items) }
    ensures texts { IfOk result (λ answered. map string_bytes answered.texts.items
        ≡ map (λ session. session.text) sessions.entry.items) }
{
    let mut eyes = eyes;
    let mut texts = Vec::with_capacity(alloc, sessions.len())?;
    let mut stopped = None;
    for session in sessions {
        let (eye, text, cause) = session.into_parts();
        eyes.push(eye)?;
        texts.push(text)?;
        stopped = stopped.or(cause);
    }
    Ok(Answered {
        eyes,
        texts,
        stopped,
    })
}
