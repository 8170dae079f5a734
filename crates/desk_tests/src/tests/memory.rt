//! Calls for which memory is wanting: both eyes see the board of before at their next look, and the
//! same call passes when memory is there again.

ghost use Rattle.std.specs.Prelude.{IfSome};
ghost use Rattle.board_share.specs.edit_core.Events.{event_of};
ghost use Rattle.board_share.specs.edit_core.Steps.{IsFit};
ghost use Rattle.board_share.specs.Events.{MayPublish};

use super::desks::edited;
use super::scenes::{Scene, play};
use board_share::edit_core::{Board, Event, ParaView, Refusal, Shown};
use board_share::paragraph_text::Edit;
use board_share::{ClaimFault, Desk, Eye, Naming};
use check_workers::settle;
use desk_doubles::{Numbers, inserted, part_at, replaced};
use mark_types::Judge;
use std::alloc::Global;
use std::process::Abort;
use std::sync::{Arc, Wait};
use std::thread::Threads;

/// The board that stands before each call, and behind it those of the events: a name; the point and
/// both versions; and of each paragraph its id, its rev, its one mark, or `?` where it waits, `w7`
/// where worker 7 holds it, `-` where it is parked, and its text.
const BOARDS: &str = "\
before|5 2 1|0 0 0-4 wurk|1 1 ? helo|2 2 - foo
insert|6 3 1|0 0 0-4 wurk|1 1 ? helo|2 2 - foo|3 3 ? x
replace|6 3 1|0 0 0-4 wurk|1 3 ? xelo|2 2 - foo
remove|6 3 1|0 0 0-4 wurk|2 2 - foo
load|6 2 2|0 0 ? wurk|1 1 ? helo|2 2 - foo
claim|6 2 1|0 0 0-4 wurk|1 1 w7 helo|2 2 - foo
park|6 2 1|0 0 0-4 wurk|1 1 - helo|2 2 - foo
ask|6 2 1|0 0 0-4 wurk|1 1 ? helo|2 2 ? foo
finish|6 2 1|0 0 0-4 wurk|1 1 0-4 helo|2 2 - foo";

/// The place of the board that stands before each call.
const BEFORE: usize = 0;

fn number(line: &str, place: usize) -> Option<u64> {
    part_at(line, ' ', place).parse().ok()
}

/// Whether a paragraph stands so.
fn stands(shown: &Shown<'_>, wanted: &str) -> bool {
    match shown {
        Shown::Pending { parked: true, .. } => wanted == "-",
        Shown::Pending {
            held_by: Some(worker),
            ..
        } => *worker == 7 && wanted == "w7",
        Shown::Pending { .. } => wanted == "?",
        Shown::Marks(marks) => match (marks.as_slice(), wanted.split_once('-')) {
            ([mark], Some((from, to))) => {
                from.parse().ok() == Some(mark.from) && to.parse().ok() == Some(mark.to)
            }
            _ => false,
        },
    }
}

/// Whether a paragraph is the one of a row.
fn is_para(view: &ParaView<'_>, row: &str) -> bool {
    Some(view.id) == number(row, 0)
        && Some(view.rev) == number(row, 1)
        && stands(&view.shown, part_at(row, ' ', 2))
        && view.text.as_str() == part_at(row, ' ', 3)
}

/// A board is the one with this place among all: it has its versions, its paragraphs and no
/// others. This takes no memory.
fn assert_board<J: Judge>(rt: &impl Abort, board: &Board<J>, place: usize) {
    let wanted = part_at(BOARDS, '\n', place);
    let versions = part_at(wanted, '|', 1);
    let seen = board.versions();
    assert_eq!(rt; Some(seen.point), number(versions, 0), "{wanted}");
    assert_eq!(rt; Some(seen.text), number(versions, 1), "{wanted}");
    assert_eq!(rt; Some(seen.dict), number(versions, 2), "{wanted}");
    let mut count = 0usize;
    for row in wanted.split('|').skip(2) {
        match board.para(count) {
            Some(view) => assert!(rt; is_para(&view, row), "{wanted}: {row}"),
            None => assert!(rt; false, "{wanted}: {row} is not there"),
        }
        count = count.saturating_add(1);
    }
    assert_eq!(rt; seen.paragraphs, count as u64, "{wanted}");
}

/// The next look of an eye shows this board. It takes no memory.
fn assert_look<J: Judge + Drop, D: Naming>(rt: &impl Abort, eye: &mut Eye<J, D>, place: usize) {
    match eye.look() {
        Ok(board) => assert_board(rt, &board, place),
        Err(_) => assert!(rt; false, "no look"),
    }
}

/// What is called.
#[derive(Clone, Copy, Debug, PartialEq, Eq)]
enum Call {
    /// Nothing.
    Nothing,
    /// The next board of the last one that an eye sees, which is not published.
    Next,
    /// A publish of an event.
    Publish,
    /// A claim, or a settle.
    Check,
}

/// Which event it makes.
#[derive(Clone, Copy, Debug, PartialEq, Eq)]
enum What {
    Insert,
    Replace,
    Remove,
    Load,
    Claim,
    Park,
    Ask,
    Finish,
}

/// Those that bring no check.
const PLAIN: [What; 7] = [
    What::Insert,
    What::Replace,
    What::Remove,
    What::Load,
    What::Claim,
    What::Park,
    What::Ask,
];

impl What {
    /// The place of the board behind it.
    fn place(self) -> usize {
        match self {
            What::Insert => 1,
            What::Replace => 2,
            What::Remove => 3,
            What::Load => 4,
            What::Claim => 5,
            What::Park => 6,
            What::Ask => 7,
            What::Finish => 8,
        }
    }

    /// The edit, if it is one.
    fn edit(self, alloc: Global) -> Option<Edit> {
        match self {
            What::Insert => inserted(alloc, "x"),
            What::Replace => replaced(alloc, 1, 1, "x"),
            _ => Some(Edit::Remove { id: 1, rev: 1 }),
        }
    }
}

/// An event that brings no check, for a board or for the history that an eye knows. What is loaded
/// is the dictionary in force.
fn plain_event<J: Judge + Drop, D: Naming>(
    alloc: Global,
    board: &Board<J>,
    eye: &Eye<J, D>,
    what: What,
) -> Option<Event<J>>
    ensures fit { IfSome result (λ event. IsFit board.now (event_of J.lexicon event)) }
    ensures free { IfSome result (λ event. MayPublish eye.now.run (event_of J.lexicon event)) }
{
    match what {
        What::Load => Some(Event::Load {
            judge: Arc::try_clone(board.judge()).ok()?,
        }),
        What::Claim => Some(Event::Claim {
            worker: 7,
            id: 1,
            rev: 1,
        }),
        What::Park => Some(Event::Park { session: 1, id: 1 }),
        What::Ask => Some(Event::Ask { session: 1, id: 2 }),
        _ => Some(Event::Edit {
            session: 1,
            edit: what.edit(alloc)?,
        }),
    }
}

/// The board that an event makes of another one. Tells whether memory was wanting for it; nothing,
/// where it was wanting for the event.
fn is_next_wanting<J: Judge + Drop, D: Naming>(
    rt: &impl Abort,
    alloc: Global,
    board: &Board<J>,
    eye: &Eye<J, D>,
    what: What,
) -> Option<bool> {
    let event = plain_event(alloc, board, eye, what)?;
    match board.next(alloc, event) {
        Ok(next) => {
            assert_board(rt, &next, what.place());
            Some(false)
        }
        Err(refusal) => {
            assert_eq!(rt; refusal, Refusal::NoMemory);
            Some(true)
        }
    }
}

/// The board of an eye's next look, and what an event makes of it, in two calls where memory was
/// wanting in the first. The board stays as it is.
fn assert_next<J: Judge + Drop, D: Naming>(
    rt: &impl Abort,
    alloc: Global,
    eye: &mut Eye<J, D>,
    what: What,
) -> Option<()> {
    let board = eye.look().ok()?;
    if is_next_wanting(rt, alloc, &board, eye, what)? {
        assert_board(rt, &board, BEFORE);
        let again = is_next_wanting(rt, alloc, &board, eye, what);
        assert_eq!(rt; again, Some(false));
    }
    assert_board(rt, &board, BEFORE);
    Some(())
}

/// Publishes an event through an eye. Tells whether memory was wanting for it; nothing, where it
/// was wanting for the event.
fn is_publish_wanting<J: Judge + Drop, D: Naming, W: Wait + Drop>(
    rt: &impl Wait,
    alloc: Global,
    desk: &Desk<J, D, W>,
    eye: &mut Eye<J, D>,
    what: What,
) -> Option<bool> {
    let board = eye.look().ok()?;
    let event = plain_event(alloc, &board, eye, what)?;
    let published = desk.publish(rt, alloc, eye, event);
    Some(published.err() == Some(Refusal::NoMemory))
}

/// Claims for worker 7, or settles, through an eye, and tells whether memory was wanting.
fn is_check_wanting<J: Judge + Drop, D: Naming, W: Wait + Drop>(
    rt: &impl Wait,
    alloc: Global,
    desk: &Desk<J, D, W>,
    eye: &mut Eye<J, D>,
    what: What,
) -> bool {
    let fault = match what {
        What::Claim => desk.claim(rt, alloc, eye, 7).err(),
        _ => settle(rt, alloc, desk, eye).err(),
    };
    fault == Some(ClaimFault::NoMemory)
}

/// Both eyes see this board.
fn assert_looks<J: Judge + Drop, D: Naming>(
    rt: &impl Abort,
    first: &mut Eye<J, D>,
    second: &mut Eye<J, D>,
    place: usize,
) {
    assert_look(rt, first, place);
    assert_look(rt, second, place);
}

/// An event is published, in two calls where memory was wanting in the first.
fn assert_publish<J: Judge + Drop, D: Naming, W: Wait + Drop, R: Wait + Abort>(
    rt: &R,
    alloc: Global,
    desk: &Desk<J, D, W>,
    first: &mut Eye<J, D>,
    second: &mut Eye<J, D>,
    what: What,
) -> Option<()> {
    if is_publish_wanting(rt, alloc, desk, first, what)? {
        assert_looks(rt, first, second, BEFORE);
        let again = is_publish_wanting(rt, alloc, desk, first, what);
        assert_eq!(rt; again, Some(false));
    }
    assert_looks(rt, first, second, what.place());
    Some(())
}

/// A paragraph is claimed or settled, in two calls where memory was wanting in the first.
fn assert_check<J: Judge + Drop, D: Naming, W: Wait + Drop, R: Wait + Abort>(
    rt: &R,
    alloc: Global,
    desk: &Desk<J, D, W>,
    first: &mut Eye<J, D>,
    second: &mut Eye<J, D>,
    what: What,
) {
    if is_check_wanting(rt, alloc, desk, first, what) {
        assert_looks(rt, first, second, BEFORE);
        assert!(rt; !is_check_wanting(rt, alloc, desk, first, what));
    }
    assert_looks(rt, first, second, what.place());
}

/// Loads the dictionary again, finishes the one paragraph, and puts in two more, of which the last
/// is parked.
fn prepare<J: Judge + Drop, D: Naming, W: Wait + Drop, R: Wait>(
    rt: &R,
    alloc: Global,
    desk: &Desk<J, D, W>,
    eye: &mut Eye<J, D>,
) -> Option<()> {
    let board = eye.look().ok()?;
    let judge = Arc::try_clone(board.judge()).ok()?;
    desk.publish(rt, alloc, eye, Event::Load { judge }).ok()?;
    settle(rt, alloc, desk, eye).ok()?;
    for text in ["helo", "foo"] {
        let edit = inserted(alloc, text)?;
        let event = Event::Edit { session: 1, edit };
        desk.publish(rt, alloc, eye, event).ok()?;
    }
    let event = Event::Park { session: 1, id: 2 };
    desk.publish(rt, alloc, eye, event).ok()?;
    Some(())
}

/// A call behind the same events always, seen by two eyes.
fn assert_call<J: Judge + Drop, D: Naming, W: Wait + Drop, R: Wait + Abort>(
    rt: &R,
    alloc: Global,
    desk: &Desk<J, D, W>,
    first: &mut Eye<J, D>,
    second: &mut Eye<J, D>,
    asked: (Call, What),
) -> Option<()> {
    let (call, what) = asked;
    prepare(rt, alloc, desk, first)?;
    assert_looks(rt, first, second, BEFORE);
    match call {
        Call::Nothing => {
            let board = first.look().ok()?;
            let _unused = plain_event(alloc, &board, first, what)?;
        }
        Call::Next => assert_next(rt, alloc, first, what)?,
        Call::Publish => assert_publish(rt, alloc, desk, first, second, what)?,
        Call::Check => assert_check(rt, alloc, desk, first, second, what),
    }
    Some(())
}

/// What is called behind the same events always.
#[derive(Clone, Copy)]
struct Wanting {
    call: Call,
    what: What,
}

impl Scene for Wanting {
    fn play<
        D: Naming + Send + Sync,
        W: Wait + Drop + Send + Sync,
        R: Threads + Wait + Abort + Sync,
    >(
        &self,
        rt: &R,
        alloc: Global,
        desk: &Desk<Numbers, D, W>,
        eyes: &mut Vec<Eye<Numbers, D>>,
    ) -> Option<()> {
        let (mut first, mut second) = (eyes.pop()?, eyes.pop()?);
        let asked = (self.call, self.what);
        assert_call(rt, alloc, desk, &mut first, &mut second, asked)
    }
}

/// A call for each of these events, over a desk of its own. Where memory is wanting before the call,
/// it is not made.
fn assert_calls<R: Threads + Wait + Abort + Sync>(
    rt: &R,
    alloc: Global,
    call: Call,
    events: &[What],
) -> Option<()> {
    for what in events {
        let wanting = Wanting { call, what: *what };
        play(rt, alloc, 2, &["wurk"], &wanting)?;
    }
    Some(())
}

#[test]
fn each_call_is_made_where_memory_is_there(rt: HostRuntime) {
    let alloc = rt.alloc();
    let next = assert_calls(&rt, alloc, Call::Next, &PLAIN);
    let publish = assert_calls(&rt, alloc, Call::Publish, &PLAIN);
    let check = assert_calls(&rt, alloc, Call::Check, &[What::Claim, What::Finish]);
    assert_eq!(&rt; [next, publish, check], [Some(()); 3]);
}

// Each of the following passes whichever request for memory fails. The first and the second make all
// requests that the others make before their calls.

#[test]
fn boards_stand_before_events(rt: HostRuntime) {
    let _made = assert_calls(&rt, rt.alloc(), Call::Nothing, &PLAIN);
}

#[test]
fn a_board_stands_before_a_check(rt: HostRuntime) {
    let _made = assert_calls(&rt, rt.alloc(), Call::Nothing, &[What::Finish]);
}

#[test]
fn a_next_without_memory_leaves_the_board(rt: HostRuntime) {
    let _made = assert_calls(&rt, rt.alloc(), Call::Next, &PLAIN);
}

#[test]
fn a_publish_without_memory_shows_the_board_of_before(rt: HostRuntime) {
    let _made = assert_calls(&rt, rt.alloc(), Call::Publish, &PLAIN);
}

#[test]
fn a_claim_without_memory_shows_the_board_of_before(rt: HostRuntime) {
    let _made = assert_calls(&rt, rt.alloc(), Call::Check, &[What::Claim]);
}

#[test]
fn a_settle_without_memory_shows_the_board_of_before(rt: HostRuntime) {
    let _made = assert_calls(&rt, rt.alloc(), Call::Check, &[What::Finish]);
}

/// An event that is published is seen through another eye, and one that finds no memory is not.
fn assert_seen_or_not<D: Naming, W: Wait + Drop, R: Wait + Abort>(
    rt: &R,
    alloc: Global,
    desk: &Desk<Numbers, D, W>,
    eye: &mut Eye<Numbers, D>,
    other: &mut Eye<Numbers, D>,
) -> Option<()> {
    let edit = inserted(alloc, "x")?;
    let before = eye.known();
    let published = edited(rt, alloc, desk, eye, edit).is_ok();
    let wanted = before.wrapping_add(u64::from(published));
    assert_eq!(rt; (eye.known(), other.progress().point), (wanted, wanted));
    Some(())
}

/// Three events, one after another.
struct Three;

impl Scene for Three {
    fn play<
        D: Naming + Send + Sync,
        W: Wait + Drop + Send + Sync,
        R: Threads + Wait + Abort + Sync,
    >(
        &self,
        rt: &R,
        alloc: Global,
        desk: &Desk<Numbers, D, W>,
        eyes: &mut Vec<Eye<Numbers, D>>,
    ) -> Option<()> {
        let (mut first, mut second) = (eyes.pop()?, eyes.pop()?);
        for _ in 0..3 {
            assert_seen_or_not(rt, alloc, desk, &mut first, &mut second)?;
        }
        Some(())
    }
}

#[test]
fn an_event_without_memory_is_not_seen(rt: HostRuntime) {
    let _played = play(&rt, rt.alloc(), 2, &[], &Three);
}
