//! The dialogue, from the start of a desk to its end.

ghost use Rattle.std.specs.Prelude.{◌≡◌, ℕ, ◌+◌, ◌<◌, ◌≤◌, map, None, Some, IfOk, OnErr};
ghost use Rattle.std.specs.List.{range_with_len};
ghost use Rattle.input_lines.specs.Turns.{IsOver};
ghost use Rattle.board_share.specs.Eyes.{fresh_eye};
ghost use Rattle.board_share.specs.Namings.{IsNamed};
ghost use Rattle.console_board.specs.Transcripts.{is_quit};
ghost use Rattle.desk_console.specs.Consoles.{lines_left_for_eye};
ghost use Rattle.desk_console.specs.declared.stop.Stop.TheVariants.{Spent};
ghost use Rattle.input_lines.specs.declared.limits.TheConstants.{INPUT_LIMIT};
ghost use Rattle.line_forms.specs.Dialogues.{AreReplied, IsClosedAt};
ghost use Rattle.line_forms.specs.Endings.{reading_end_with_stop, history_of};
ghost use Rattle.line_forms.specs.Talks.{AreBehind, first_seat, fresh_workers, opening_by};

use crate::talk::{Closing, talk_beside};
use board_share::edit_core::Board;
use board_share::{Blank, Closed, Desk, Eye, Naming};
use check_workers::Bell;
use console_history::{
    closed_consoles_are_followed, closed_consoles_are_not_spent, told_consoles_keep_their_eyes,
};
use desk_console::{DeskConsole, Stop};
use input_lines::ReadingEnd;
use mark_types::Judge;
use outside::lists::NoMemory;
use outside::{Files, Gate, Sink, Source};
use own_dictionary::personal_words::Dictionary;
use std::alloc::Global;
use std::marker::Brand;
use std::sync::{Arc, Wait};
use std::thread::Threads;
use worker_crew::{Crew, Room, Workplace, crew_of};

/// How many workers a console may have beside it.
pub const MOST_BESIDE: u32 = 63;

/// How a dialogue has ended.
#[derive(Drop)]
pub struct Conversed<J: Judge + Drop> {
    /// How the reading of the input has ended.
    pub ended: ReadingEnd,
    /// The history of the desk, where the input was read to its end or to `quit`.
    pub closed: Option<Closed<J>>,
}

/// Opens a desk without a text by a dictionary, and a console over it, which replies to the lines of
/// an input until `quit` or its end. So many workers check beside it, each in a thread of its own.
/// Where no thread can be made, nothing is checked but by `settle`. The desk is closed at the end.
/// Where memory for it is wanting, no line is read.
pub fn converse<J, O, R, F, S, K, G>(
    place: &Workplace<'_, R, G>,
    workers: u32,
    dictionary: O,
    files: &mut F,
    input: &mut S,
    out: &mut K,
) -> Conversed<J>
where
    J: Judge + Drop + Send + Sync,
    O: Dictionary<J> + Drop,
    R: Threads + Wait + Sync,
    F: Files,
    S: Source,
    K: Sink,
    G: Gate + Sync,
    requires { workers ≤ MOST_BESIDE }
    // What was written is what these lines are replied to.
    ensures over { IsOver is_quit
        (AreReplied (record {
          workers = workers;
          dictionary = O.seen dictionary;
          folder = F.told files.old;
          failed = F.Files.faults files.old;
          failed_now = F.Files.faults files.new;
        }) result.closed)
        (record {
          before = S.left input.old;
          after = S.left input.new;
          faults_before = S.Source.faults input.old;
          faults_after = S.Source.faults input.new;
        }) (K.Sink.faults out.old < K.Sink.faults out.new) (K.written out.old) (K.written out.new)
        result.ended }
    ensures closed { IsClosedAt result.ended result.closed }
    ensures same { F.told files.new ≡ F.told files.old }
    ensures files_count { F.Files.faults files.old ≤ F.Files.faults files.new }
    ensures input_count { S.Source.faults input.old ≤ S.Source.faults input.new }
    ensures sink_count { K.Sink.faults out.old ≤ K.Sink.faults out.new }
{
    match converse_named(place, workers, dictionary, files, input, out) {
        Ok(done) => done,
        Err(NoMemory) => Conversed {
            ended: ReadingEnd::NoMemory,
            closed: None,
        },
    }
}

/// A dialogue over a desk with a name of its own.
fn converse_named<J, O, R, F, S, K, G>(
    place: &Workplace<'_, R, G>,
    workers: u32,
    dictionary: O,
    files: &mut F,
    input: &mut S,
    out: &mut K,
) -> Result<Conversed<J>, NoMemory>
where
    J: Judge + Drop + Send + Sync,
    O: Dictionary<J> + Drop,
    R: Threads + Wait + Sync,
    F: Files,
    S: Source,
    K: Sink,
    G: Gate + Sync,
    requires { workers ≤ MOST_BESIDE }
    ensures over { IfOk result (λ done. IsOver is_quit
        (AreReplied (record {
          workers = workers;
          dictionary = O.seen dictionary;
          folder = F.told files.old;
          failed = F.Files.faults files.old;
          failed_now = F.Files.faults files.new;
        }) done.closed)
        (record {
          before = S.left input.old;
          after = S.left input.new;
          faults_before = S.Source.faults input.old;
          faults_after = S.Source.faults input.new;
        }) (K.Sink.faults out.old < K.Sink.faults out.new) (K.written out.old) (K.written out.new)
        done.ended) }
    ensures closed { IfOk result (λ done. IsClosedAt done.ended done.closed) }
    ensures silent { OnErr result
        ((files.new ≡ files.old) × (input.new ≡ input.old) × (out.new ≡ out.old)) }
    ensures same { F.told files.new ≡ F.told files.old }
    ensures files_count { F.Files.faults files.old ≤ F.Files.faults files.new }
    ensures input_count { S.Source.faults input.old ≤ S.Source.faults input.new }
    ensures sink_count { K.Sink.faults out.old ≤ K.Sink.faults out.new }
{
    let opening = opening_by(place.alloc, &dictionary)?;
    let blank = Blank::new(workers + 1);
    converse_over::<J, O, Brand, R, F, S, K, G>(
        place, workers, opening, blank, dictionary, files, input, out,
    )
}

/// A board without a text, by a dictionary.
fn opening_by<J: Judge + Drop, O: Dictionary<J>>(
    alloc: Global,
    dictionary: &O,
) -> Result<Board<J>, NoMemory>
    ensures { IfOk result (λ board. board ≡ opening_by (O.seen dictionary.now)) }
{
    let judge = Arc::try_clone(dictionary.judge())?;
    match Board::opening(alloc, judge, Vec::new(alloc)) {
        Ok(board) => Ok(board),
        Err(_wanting) => Err(NoMemory),
    }
}

/// Starts a desk of this name with an eye for each worker and one for the console, and lets them
/// work.
fn converse_over<J, O, D, R, F, S, K, G>(
    place: &Workplace<'_, R, G>,
    workers: u32,
    opening: Board<J>,
    blank: Blank<J>,
    dictionary: O,
    files: &mut F,
    input: &mut S,
    out: &mut K,
) -> Result<Conversed<J>, NoMemory>
where
    J: Judge + Drop + Send + Sync,
    O: Dictionary<J> + Drop,
    D: Naming + Send + Sync,
    R: Threads + Wait + Sync,
    F: Files,
    S: Source,
    K: Sink,
    G: Gate + Sync,
    requires few { workers ≤ MOST_BESIDE }
    requires opens { opening ≡ opening_by (O.seen dictionary) }
    requires named { IsNamed blank opening D.name D.parts D.book D.opening }
    requires parts { blank.parts ≡ workers + 1 }
    ensures over { IfOk result (λ done. IsOver is_quit
        (AreReplied (record {
          workers = workers;
          dictionary = O.seen dictionary;
          folder = F.told files.old;
          failed = F.Files.faults files.old;
          failed_now = F.Files.faults files.new;
        }) done.closed)
        (record {
          before = S.left input.old;
          after = S.left input.new;
          faults_before = S.Source.faults input.old;
          faults_after = S.Source.faults input.new;
        }) (K.Sink.faults out.old < K.Sink.faults out.new) (K.written out.old) (K.written out.new)
        done.ended) }
    ensures closed { IfOk result (λ done. IsClosedAt done.ended done.closed) }
    ensures silent { OnErr result
        ((files.new ≡ files.old) × (input.new ≡ input.old) × (out.new ≡ out.old)) }
    ensures same { F.told files.new ≡ F.told files.old }
    ensures files_count { F.Files.faults files.old ≤ F.Files.faults files.new }
    ensures input_count { S.Source.faults input.old ≤ S.Source.faults input.new }
    ensures sink_count { K.Sink.faults out.old ≤ K.Sink.faults out.new }
{
    let (desk, eyes) = Desk::<J, D, &R>::start(place.rt, place.alloc, opening, workers + 1, blank)?;
    talk_over(place, workers, desk, eyes, dictionary, files, input, out)
}

/// Lets the eyes of a desk work, and closes the desk.
fn talk_over<J, O, D, W, R, F, S, K, G>(
    place: &Workplace<'_, R, G>,
    workers: u32,
    desk: Desk<J, D, W>,
    eyes: Vec<Eye<J, D>>,
    dictionary: O,
    files: &mut F,
    input: &mut S,
    out: &mut K,
) -> Result<Conversed<J>, NoMemory>
where
    J: Judge + Drop + Send + Sync,
    O: Dictionary<J> + Drop,
    D: Naming + Send + Sync,
    W: Wait + Drop + Send + Sync,
    R: Threads + Wait + Sync,
    F: Files,
    S: Source,
    K: Sink,
    G: Gate + Sync,
    requires few { workers ≤ MOST_BESIDE }
    requires eyes { eyes.items
        ≡ map (fresh_eye (opening_by (O.seen dictionary))) (range_with_len 0 (workers + 1)) }
    requires parts { D.parts ≡ workers + 1 }
    ensures over { IfOk result (λ done. IsOver is_quit
        (AreReplied (record {
          workers = workers;
          dictionary = O.seen dictionary;
          folder = F.told files.old;
          failed = F.Files.faults files.old;
          failed_now = F.Files.faults files.new;
        }) done.closed)
        (record {
          before = S.left input.old;
          after = S.left input.new;
          faults_before = S.Source.faults input.old;
          faults_after = S.Source.faults input.new;
        }) (K.Sink.faults out.old < K.Sink.faults out.new) (K.written out.old) (K.written out.new)
        done.ended) }
    ensures closed { IfOk result (λ done. IsClosedAt done.ended done.closed) }
    ensures silent { OnErr result
        ((files.new ≡ files.old) × (input.new ≡ input.old) × (out.new ≡ out.old)) }
    ensures same { F.told files.new ≡ F.told files.old }
    ensures files_count { F.Files.faults files.old ≤ F.Files.faults files.new }
    ensures input_count { S.Source.faults input.old ≤ S.Source.faults input.new }
    ensures sink_count { K.Sink.faults out.old ≤ K.Sink.faults out.new }
{
    closed_consoles_are_followed();
    closed_consoles_are_not_spent();
    told_consoles_keep_their_eyes();
    let talked = talk_at(place, workers, &desk, eyes, dictionary, files, input, out)?;
    let Talked {
        eyes,
        stopped,
        ended,
    } = talked;
    let closed = desk.close(place.rt, eyes);
    Ok(concluded(ended, stopped, closed))
}

/// What the eyes of a desk leave: first the eyes of the workers, in their order, and then the
/// console's; why the console was stopped, if it was; and how the reading of its input has ended.
#[derive(Drop)]
struct Talked<J: Judge + Drop, D: Naming> {
    eyes: Vec<Eye<J, D>>,
    stopped: Option<Stop>,
    ended: ReadingEnd,
}

/// Lets the eyes of a desk work: the last one is the console's.
fn talk_at<J, O, D, W, R, F, S, K, G>(
    place: &Workplace<'_, R, G>,
    workers: u32,
    desk: &Desk<J, D, W>,
    eyes: Vec<Eye<J, D>>,
    dictionary: O,
    files: &mut F,
    input: &mut S,
    out: &mut K,
) -> Result<Talked<J, D>, NoMemory>
where
    J: Judge + Drop + Send + Sync,
    O: Dictionary<J> + Drop,
    D: Naming + Send + Sync,
    W: Wait + Drop + Send + Sync,
    R: Threads + Wait + Sync,
    F: Files,
    S: Source,
    K: Sink,
    G: Gate + Sync,
    requires few { workers ≤ MOST_BESIDE }
    requires eyes { eyes.items
        ≡ map (fresh_eye (opening_by (O.seen dictionary))) (range_with_len 0 (workers + 1)) }
    ensures behind { IfOk result (λ talked. AreBehind (first_seat workers (O.seen dictionary))
        (fresh_workers workers (O.seen dictionary)) talked.eyes.items
        (record {
          folder = F.told files.old;
          folder_now = F.told files.new;
          failed = F.Files.faults files.old;
          failed_now = F.Files.faults files.new;
          reading = record {
            before = S.left input.old;
            after = S.left input.new;
            faults_before = S.Source.faults input.old;
            faults_after = S.Source.faults input.new;
          };
          sink_failed = K.Sink.faults out.old;
          sink_failed_now = K.Sink.faults out.new;
          written = K.written out.old;
          written_now = K.written out.new;
        }) None talked.stopped talked.ended) }
    ensures silent { OnErr result
        ((files.new ≡ files.old) × (input.new ≡ input.old) × (out.new ≡ out.old)) }
    ensures input_count { S.Source.faults input.old ≤ S.Source.faults input.new }
    ensures sink_count { K.Sink.faults out.old ≤ K.Sink.faults out.new }
{
    let mut eyes = eyes;
    let bell = Bell::new();
    let Some(eye) = eyes.pop() else {
        unreachable!()
    };
    let room = Room {
        rt: place.rt,
        alloc: place.alloc,
        desk,
        bell: &bell,
        gate: place.gate,
    };
    let crew = crew_of(room, eyes)?;
    let closing = Closing {
        rt: place.rt,
        alloc: place.alloc,
        bell: &bell,
    };
    Ok(talk_in(crew, closing, desk, eye, dictionary, files, input, out))
}

/// Lets a console over an eye reply to the lines of an input, beside a crew.
fn talk_in<'a, J, O, D, W, R, F, S, K, G>(
    crew: Crew<'a, J, D, W, R, G>,
    closing: Closing<'a, R>,
    desk: &'a Desk<J, D, W>,
    eye: Eye<J, D>,
    dictionary: O,
    files: &mut F,
    input: &mut S,
    out: &mut K,
) -> Talked<J, D>
where
    J: Judge + Drop + Send + Sync,
    O: Dictionary<J> + Drop,
    D: Naming + Send + Sync,
    W: Wait + Drop + Send + Sync,
    R: Threads + Wait + Sync,
    F: Files,
    S: Source,
    K: Sink,
    G: Gate + Sync,
    requires room { INPUT_LIMIT + 1 ≤ lines_left_for_eye eye }
    ensures behind { AreBehind (record { eye = eye; dictionary = O.seen dictionary }) crew.entry
        result.eyes.items
        (record {
          folder = F.told files.old;
          folder_now = F.told files.new;
          failed = F.Files.faults files.old;
          failed_now = F.Files.faults files.new;
          reading = record {
            before = S.left input.old;
            after = S.left input.new;
            faults_before = S.Source.faults input.old;
            faults_after = S.Source.faults input.new;
          };
          sink_failed = K.Sink.faults out.old;
          sink_failed_now = K.Sink.faults out.new;
          written = K.written out.old;
          written_now = K.written out.new;
        }) None result.stopped result.ended }
    ensures input_count { S.Source.faults input.old ≤ S.Source.faults input.new }
    ensures sink_count { K.Sink.faults out.old ≤ K.Sink.faults out.new }
{
    let mut console = DeskConsole::new(closing.rt, desk, closing.bell, eye, dictionary);
    let mut ended = ReadingEnd::NoMemory;
    let mut eyes = talk_beside(crew, closing, &mut console, files, input, out, &mut ended);
    let (eye, stopped) = console.into_eye();
    let Ok(()) = eyes.push(eye) else {
        unreachable!()
    };
    Talked {
        eyes,
        stopped,
        ended,
    }
}

/// How a dialogue has ended. A console that was stopped has met want of memory, since no history gets
/// to its last point.
fn concluded<J: Judge + Drop>(
    ended: ReadingEnd,
    stopped: Option<Stop>,
    closed: Closed<J>,
) -> Conversed<J>
    requires { (point : ℕ) → ¬ (stopped ≡ Some (Spent point)) }
    ensures ended { result.ended ≡ reading_end_with_stop ended stopped }
    ensures closed { result.closed ≡ history_of ended stopped closed }
{
    match (ended, stopped) {
        (ReadingEnd::Finished, None) => Conversed {
            ended,
            closed: Some(closed),
        },
        (ReadingEnd::Finished, Some(Stop::Wanting)) => Conversed {
            ended: ReadingEnd::NoMemory,
            closed: None,
        },
        (ReadingEnd::Finished, Some(Stop::Spent { .. })) => unreachable!(),
        (ended, _) => Conversed {
            ended,
            closed: None,
        },
    }
}
