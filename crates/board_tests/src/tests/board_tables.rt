//! Boards, as one event after another makes them.

ghost use Rattle.std.specs.Arc.{arc_value};
ghost use Rattle.std.specs.List.{AllByRecursion};
ghost use Rattle.std.specs.Prelude.{◌≡◌, IfOk, IfSome, map};
ghost use Rattle.edit_core.specs.Events.{event_of};
ghost use Rattle.edit_core.specs.Runs.{IsOfBoard};
ghost use Rattle.edit_core.specs.Seen.{Seen};
ghost use Rattle.edit_core.specs.Steps.{IsFit};

use desk_doubles::{Numbers, part_at};
use edit_core::{
    Board, Event, ParaView, Refusal, Shown, checks_are_fit, ids_name_paragraphs, runs_only_grow,
};
use mark_types::Judge;
use mark_types::lists::NoMemory;
use mark_types::text_lines::Text;
use paragraph_marks::{Checked, Checking, Plain};
use paragraph_text::Edit;
use std::alloc::{AllocError, Global};
use std::process::Abort;
use std::sync::Arc;
use std::test::Fail;

/// A line that opens a board has its texts, parted by bars. Each line behind it has an event, and
/// behind ` = ` why it is refused, or the board that it makes: its point and its versions, and of
/// each paragraph its id, its rev and its marks, or `?` where it waits, `w0` where worker 0 holds
/// it, `-` where it is parked. In an event stand the worker, the id, the rev and the dictionary
/// version, as far as it has them; a text is one word, in which `/` is a line feed. The dictionary
/// that is loaded is always the same; words that are no numbers are marked.
const HISTORIES: &str = "
open 12345|wurk
claim 0 1 0 = 1 0 0|0.0 ?|1.0 w0
claim 1 1 0 = Taken 0
put 0 0 0 5 1234 = 2 1 0|0.1 ?|1.0 w0
finish 0 1 0 0 = 3 1 0|0.1 ?|1.0 0-4
put 0 0 0 0 x = Behind 1
load = 4 1 1|0.1 ?|1.0 ?
finish 0 1 0 0 = Reloaded 1
park 1 = 5 1 1|0.1 ?|1.0 -
finish 0 1 0 1 = Parked 0
put 0 1 3 9 x = BadSpan 4
del 7 0 = Gone 7

# Each event at each state, where it is refused; and the first of two refusals that both are there.
open 23456|wurk helo|34567|12345
claim 9 1 0 = 1 0 0|0.0 ?|1.0 w9|2.0 ?|3.0 ?
park 2 = 2 0 0|0.0 ?|1.0 w9|2.0 -|3.0 ?
finish 0 3 0 0 = 3 0 0|0.0 ?|1.0 w9|2.0 -|3.0
claim 0 4 0 = Gone 4
claim 0 4 1 = Gone 4
claim 0 1 1 = Behind 0
claim 0 1 0 = Taken 9
claim 9 1 0 = Taken 9
claim 0 2 1 = Behind 0
claim 0 2 0 = Parked 0
claim 0 3 1 = Behind 0
claim 0 3 0 = Finished 0
finish 0 0 1 1 = Behind 0
finish 0 0 0 1 = Reloaded 0
finish 0 2 1 0 = Behind 0
finish 0 2 0 1 = Reloaded 0
finish 0 2 0 0 = Parked 0
finish 0 3 0 1 = Reloaded 0
finish 0 3 0 0 = Finished 0
park 4 = Gone 4
park 2 = Parked 0
park 3 = Finished 0
ask 4 = Gone 4
ask 0 = NotParked 0
ask 1 = NotParked 0
ask 3 = NotParked 0
put 4 1 9 0 / = Gone 4
put 0 1 9 0 / = Behind 0
put 0 0 4 3 / = BadSpan 5
put 0 0 0 5 x/ = HasBreak 1
ins 4 / = Gone 4
ins 0 / = HasBreak 0
del 0 1 = Behind 0

# The same events where each is taken.
open 23456|wurk helo|34567|12345
finish 7 0 0 0 = 1 0 0|0.0|1.0 ?|2.0 ?|3.0 ?
claim 0 1 0 = 2 0 0|0.0|1.0 w0|2.0 ?|3.0 ?
finish 1 1 0 0 = 3 0 0|0.0|1.0 0-4 5-9|2.0 ?|3.0 ?
claim 0 2 0 = 4 0 0|0.0|1.0 0-4 5-9|2.0 w0|3.0 ?
park 2 = 5 0 0|0.0|1.0 0-4 5-9|2.0 -|3.0 ?
park 3 = 6 0 0|0.0|1.0 0-4 5-9|2.0 -|3.0 -
ask 3 = 7 0 0|0.0|1.0 0-4 5-9|2.0 -|3.0 ?
ins 1 wurk = 8 1 0|0.0|4.1 ?|1.0 0-4 5-9|2.0 -|3.0 ?
ins - x = 9 2 0|0.0|4.1 ?|1.0 0-4 5-9|2.0 -|3.0 ?|5.2 ?
put 1 0 0 5  = 10 3 0|0.0|4.1 ?|1.3 ?|2.0 -|3.0 ?|5.2 ?
finish 0 1 3 0 = 11 3 0|0.0|4.1 ?|1.3 0-4|2.0 -|3.0 ?|5.2 ?
put 2 0 0 2  = 12 4 0|0.0|4.1 ?|1.3 0-4|2.4 ?|3.0 ?|5.2 ?
park 2 = 13 4 0|0.0|4.1 ?|1.3 0-4|2.4 -|3.0 ?|5.2 ?
load = 14 4 1|0.0 ?|4.1 ?|1.3 ?|2.4 -|3.0 ?|5.2 ?
del 2 4 = 15 5 1|0.0 ?|4.1 ?|1.3 ?|3.0 ?|5.2 ?
finish 0 4 1 1 = 16 5 1|0.0 ?|4.1 0-4|1.3 ?|3.0 ?|5.2 ?
del 4 1 = 17 6 1|0.0 ?|1.3 ?|3.0 ?|5.2 ?
ins - y = 18 7 1|0.0 ?|1.3 ?|3.0 ?|5.2 ?|6.7 ?
";

fn word(line: &str, place: usize) -> &str {
    part_at(line, ' ', place)
}

fn number(line: &str, place: usize) -> u64 {
    word(line, place).parse().unwrap_or(0)
}

/// A number of 32 bits.
fn small(line: &str, place: usize) -> u32 {
    word(line, place).parse().unwrap_or(0)
}

fn text_of(alloc: Global, written: &str) -> Result<Text, NoMemory> {
    let mut made = String::new(alloc);
    for c in written.chars() {
        made.push(if c == '/' { '\n' } else { c })?;
    }
    Text::from_str(alloc, made.as_str())
}

fn texts_of(alloc: Global, line: &str) -> Result<Vec<Text>, NoMemory> {
    let mut texts = Vec::new(alloc);
    for text in line.split('|') {
        texts.push(Text::from_str(alloc, text)?)?;
    }
    Ok(texts)
}

fn opening(alloc: Global, judge: &Arc<Numbers>, line: &str) -> Result<Board<Numbers>, NoMemory> {
    let texts = texts_of(alloc, line)?;
    let judge = Arc::try_clone(judge)?;
    match Board::opening(alloc, judge, texts) {
        Ok(board) => Ok(board),
        Err(_) => Err(NoMemory),
    }
}

/// A text, checked by a judge. It has fewer than a hundred bytes.
fn checked_by<J: Judge + Drop>(
    alloc: Global,
    judge: &Arc<J>,
    text: &Arc<Text>,
) -> Result<Checked<J>, NoMemory>
    ensures judge { IfOk result (λ checked. checked.judge ≡ arc_value judge.now) }
    ensures text { IfOk result (λ checked. checked.text ≡ arc_value text.now) }
{
    if text.as_str().len() >= 100 {
        return Err(NoMemory);
    }
    let mut asker = Plain::new(Arc::try_clone(judge)?);
    let mut checking = Checking::start(alloc, Arc::try_clone(judge)?, Arc::try_clone(text)?)?;
    checking.step(alloc, &mut asker, u32::MAX)?;
    checking.done().map_err(|_| NoMemory)
}

/// A finish of the paragraph with a place, by a check of its text.
fn finish<J: Judge + Drop>(
    alloc: Global,
    board: &Board<J>,
    place: usize,
    line: &str,
) -> Result<Option<Event<J>>, NoMemory>
    ensures { IfOk result
        (λ event. IfSome event (λ event. IsFit board.now (event_of J.lexicon event))) }
{
    checks_are_fit();
    let Some(view) = board.para(place) else {
        return Ok(None);
    };
    if view.id != number(line, 2) {
        return Ok(None);
    }
    let checked = checked_by(alloc, board.judge(), view.text)?;
    Ok(Some(Event::Finish {
        worker: small(line, 1),
        id: view.id,
        rev: number(line, 3),
        dict: number(line, 4),
        checked,
    }))
}

/// A finish of the paragraph with a place, by a check of its text and for its rev.
fn own_finish<J: Judge + Drop>(
    alloc: Global,
    board: &Board<J>,
    place: usize,
    line: &str,
) -> Result<Option<Event<J>>, NoMemory>
    ensures { IfOk result
        (λ event. IfSome event (λ event. IsOfBoard board.now (event_of J.lexicon event))) }
{
    ids_name_paragraphs();
    let Some(view) = board.para(place) else {
        return Ok(None);
    };
    if view.id != number(line, 2) {
        return Ok(None);
    }
    let checked = checked_by(alloc, board.judge(), view.text)?;
    Ok(Some(Event::Finish {
        worker: small(line, 1),
        id: view.id,
        rev: view.rev,
        dict: number(line, 4),
        checked,
    }))
}

/// A finish of the paragraph that a line names, which is there.
fn finish_of<J: Judge + Drop>(
    alloc: Global,
    board: &Board<J>,
    line: &str,
) -> Result<Event<J>, NoMemory>
    ensures { IfOk result (λ event. IsFit board.now (event_of J.lexicon event)) }
{
    for place in 0..20 {
        if let Some(event) = finish(alloc, board, place, line)? {
            return Ok(event);
        }
    }
    Err(NoMemory)
}

/// The same, for the rev that the paragraph has.
fn own_finish_of<J: Judge + Drop>(
    alloc: Global,
    board: &Board<J>,
    line: &str,
) -> Result<Event<J>, NoMemory>
    ensures { IfOk result (λ event. IsOfBoard board.now (event_of J.lexicon event)) }
{
    for place in 0..20 {
        if let Some(event) = own_finish(alloc, board, place, line)? {
            return Ok(event);
        }
    }
    Err(NoMemory)
}

fn edit_of(alloc: Global, line: &str) -> Result<Edit, NoMemory> {
    match word(line, 0) {
        "put" => Ok(Edit::Replace {
            id: number(line, 1),
            rev: number(line, 2),
            from: small(line, 3),
            to: small(line, 4),
            text: text_of(alloc, word(line, 5))?,
        }),
        "ins" => Ok(Edit::Insert {
            before: word(line, 1).parse().ok(),
            text: text_of(alloc, word(line, 2))?,
        }),
        _ => Ok(Edit::Remove {
            id: number(line, 1),
            rev: number(line, 2),
        }),
    }
}

/// An event that brings no check and no dictionary.
fn plain_event<J: Judge + Drop>(alloc: Global, line: &str) -> Result<Event<J>, NoMemory>
    ensures fit { IfOk result (λ event. (board : Seen) → IsFit board (event_of J.lexicon event)) }
    ensures of { IfOk result
        (λ event. (board : Seen) → IsOfBoard board (event_of J.lexicon event)) }
{
    match word(line, 0) {
        "claim" => Ok(Event::Claim {
            worker: small(line, 1),
            id: number(line, 2),
            rev: number(line, 3),
        }),
        "park" => Ok(Event::Park {
            session: 0,
            id: number(line, 1),
        }),
        "ask" => Ok(Event::Ask {
            session: 0,
            id: number(line, 1),
        }),
        _ => Ok(Event::Edit {
            session: 0,
            edit: edit_of(alloc, line)?,
        }),
    }
}

/// A load of the dictionary in force.
fn own_load<J: Judge + Drop>(board: &Board<J>) -> Result<Event<J>, NoMemory>
    ensures fit { IfOk result (λ event. IsFit board.now (event_of J.lexicon event)) }
    ensures of { IfOk result (λ event. IsOfBoard board.now (event_of J.lexicon event)) }
{
    let judge = Arc::try_clone(board.judge())?;
    Ok(Event::Load { judge })
}

/// The event of a line, for a board.
fn event_in<J: Judge + Drop>(
    alloc: Global,
    board: &Board<J>,
    line: &str,
) -> Result<Event<J>, NoMemory>
    ensures { IfOk result (λ event. IsFit board.now (event_of J.lexicon event)) }
{
    match word(line, 0) {
        "load" => own_load(board),
        "finish" => finish_of(alloc, board, line),
        _ => plain_event(alloc, line),
    }
}

/// The same, with the rev that the paragraph of a check has on the board.
fn own_event_in<J: Judge + Drop>(
    alloc: Global,
    board: &Board<J>,
    line: &str,
) -> Result<Event<J>, NoMemory>
    ensures { IfOk result (λ event. IsOfBoard board.now (event_of J.lexicon event)) }
{
    match word(line, 0) {
        "load" => own_load(board),
        "finish" => own_finish_of(alloc, board, line),
        _ => plain_event(alloc, line),
    }
}

fn told(alloc: Global, refusal: Refusal) -> Result<String, AllocError> {
    match refusal {
        Refusal::Spent { point } => format!(in alloc; "Spent {point}"),
        Refusal::Gone { id } => format!(in alloc; "Gone {id}"),
        Refusal::Behind { rev } => format!(in alloc; "Behind {rev}"),
        Refusal::BadSpan { length } => format!(in alloc; "BadSpan {length}"),
        Refusal::HasBreak { at } => format!(in alloc; "HasBreak {at}"),
        Refusal::TooLong { would } => format!(in alloc; "TooLong {would}"),
        Refusal::Full { count } => format!(in alloc; "Full {count}"),
        Refusal::Taken { by } => format!(in alloc; "Taken {by}"),
        Refusal::Reloaded { dict } => format!(in alloc; "Reloaded {dict}"),
        Refusal::Finished { rev } => format!(in alloc; "Finished {rev}"),
        Refusal::Parked { rev } => format!(in alloc; "Parked {rev}"),
        Refusal::NotParked { rev } => format!(in alloc; "NotParked {rev}"),
        Refusal::NoMemory => format!(in alloc; "NoMemory"),
    }
}

/// How a paragraph stands, with a space before it, and before each mark.
fn state_of(alloc: Global, shown: Shown<'_>) -> Result<String, AllocError> {
    match shown {
        Shown::Pending {
            held_by: Some(worker),
            ..
        } => format!(in alloc; " w{worker}"),
        Shown::Pending { parked: true, .. } => format!(in alloc; " -"),
        Shown::Pending { .. } => format!(in alloc; " ?"),
        Shown::Marks(marks) => {
            let mut text = String::new(alloc);
            for mark in marks.as_slice() {
                let span = format!(in alloc; " {}-{}", mark.from, mark.to)?;
                text.push_str(span.as_str())?;
            }
            Ok(text)
        }
    }
}

fn para_of(alloc: Global, view: ParaView<'_>) -> Result<String, AllocError> {
    let state = state_of(alloc, view.shown)?;
    format!(in alloc; "|{}.{}{}", view.id, view.rev, state.as_str())
}

fn shown_of(alloc: Global, board: &Board<Numbers>) -> Result<String, AllocError> {
    let progress = board.progress();
    let mut text = format!(in alloc; "{} {} {}", progress.point, progress.text, progress.dict)?;
    for place in 0..20 {
        if let Some(view) = board.para(place) {
            text.push_str(para_of(alloc, view)?.as_str())?;
        }
    }
    Ok(text)
}

/// The board behind an event, or the same one where it is refused, as a line says.
fn assert_event(
    rt: &impl Abort,
    alloc: Global,
    board: Board<Numbers>,
    line: &str,
) -> Result<Board<Numbers>, NoMemory> {
    let (event, wanted) = line.split_once(" = ").unwrap_or((line, ""));
    let event = event_in(alloc, &board, event)?;
    match board.next(alloc, event) {
        Ok(next) => {
            assert_shown(rt, alloc, &next, wanted)?;
            Ok(next)
        }
        Err(refusal) => {
            assert_eq!(rt; told(alloc, refusal)?.as_str(), wanted, "{line}");
            Ok(board)
        }
    }
}

fn assert_shown(
    rt: &impl Abort,
    alloc: Global,
    board: &Board<Numbers>,
    wanted: &str,
) -> Result<(), AllocError> {
    assert_eq!(rt; shown_of(alloc, board)?.as_str(), wanted);
    Ok(())
}

/// All events of a history, one by one, and how many there are.
fn assert_history(
    rt: &impl Abort,
    alloc: Global,
    judge: &Arc<Numbers>,
    history: &str,
) -> Result<usize, NoMemory> {
    let mut lines = history.split('\n').filter(|line| !line.starts_with('#'));
    let first = lines.next().unwrap_or("");
    let mut board = opening(alloc, judge, first.strip_prefix("open ").unwrap_or(""))?;
    let mut count = 0usize;
    for line in lines {
        board = assert_event(rt, alloc, board, line)?;
        count = count.saturating_add(1);
    }
    Ok(count)
}

fn assert_histories(rt: &impl Abort, alloc: Global, judge: &Arc<Numbers>) -> Result<(), Fail> {
    let mut count = 0usize;
    for history in HISTORIES.trim().split("\n\n") {
        count = count.saturating_add(assert_history(rt, alloc, judge, history)?);
    }
    assert_eq!(rt; count, 62);
    Ok(())
}

/// Each event is made of the board before it, and behind it stands what the line says.
#[test]
fn events_make_what_is_wanted(rt: HostRuntime) -> Result<(), Fail> {
    let judge = Arc::new(rt.alloc(), Numbers::new())?;
    assert_histories(&rt, rt.alloc(), &judge)
}

/// What is told of the finish of a paragraph with a place that is taken out before.
fn late_finish<J: Judge + Drop>(
    alloc: Global,
    board: &Board<J>,
    place: usize,
) -> Result<Option<Refusal>, NoMemory> {
    checks_are_fit();
    ids_name_paragraphs();
    runs_only_grow();
    let Some(view) = board.para(place) else {
        return Ok(None);
    };
    let (id, rev) = (view.id, view.rev);
    let event = Event::Finish {
        worker: 0,
        id,
        rev,
        dict: board.progress().dict,
        checked: checked_by(alloc, board.judge(), view.text)?,
    };
    let removal = Event::Edit {
        session: 0,
        edit: Edit::Remove { id, rev },
    };
    match board.next(alloc, removal) {
        Ok(later) => Ok(later.next(alloc, event).err()),
        Err(_) => Ok(None),
    }
}

fn assert_late_finishes(rt: &impl Abort, alloc: Global, judge: &Arc<Numbers>) -> Result<(), Fail> {
    let board = opening(alloc, judge, "12345|wurk|23456")?;
    for place in 0..3u64 {
        let refusal = late_finish(alloc, &board, place as usize)?;
        assert_eq!(rt; refusal, Some(Refusal::Gone { id: place }));
    }
    Ok(())
}

/// A check that comes when its paragraph is not there any more is refused.
#[test]
fn a_finish_may_come_too_late(rt: HostRuntime) -> Result<(), Fail> {
    let judge = Arc::new(rt.alloc(), Numbers::new())?;
    assert_late_finishes(&rt, rt.alloc(), &judge)
}

/// The events of a history, with checks of the board's own texts.
fn list_of<J: Judge + Drop>(
    alloc: Global,
    board: &Board<J>,
    history: &str,
) -> Result<Vec<Event<J>>, NoMemory>
    ensures { IfOk result
        (λ events. AllByRecursion (IsOfBoard board.now) (map (event_of J.lexicon) events.items)) }
{
    let mut events = Vec::new(alloc);
    for line in history.split('\n') {
        if let Some((event, _)) = line.split_once(" = ") {
            events.push(own_event_in(alloc, board, event)?)?;
        }
    }
    Ok(events)
}

/// The board that the events of a history make, all of them together.
fn replayed<J: Judge + Drop>(
    alloc: Global,
    board: Board<J>,
    history: &str,
) -> Result<Board<J>, NoMemory> {
    checks_are_fit();
    let _judge = board.judge();
    let events = list_of(alloc, &board, history)?;
    board.replay(alloc, events)
}

fn assert_replay(rt: &impl Abort, alloc: Global, judge: &Arc<Numbers>) -> Result<(), Fail> {
    let history = HISTORIES.trim().split("\n\n").next().unwrap_or("");
    let board = opening(alloc, judge, "12345|wurk")?;
    let last = replayed(alloc, board, history)?;
    assert_eq!(rt; shown_of(alloc, &last)?.as_str(), "5 1 1|0.1 ?|1.0 -");
    Ok(())
}

/// The first history as one list of events.
#[test]
fn a_list_of_events_is_a_history(rt: HostRuntime) -> Result<(), Fail> {
    let judge = Arc::new(rt.alloc(), Numbers::new())?;
    assert_replay(&rt, rt.alloc(), &judge)
}
