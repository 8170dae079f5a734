//! Sessions and workers on threads of their own.

ghost use Rattle.std.specs.Prelude.{◌≡◌, ◌<◌, ◌≤◌};
ghost use Rattle.board_share.specs.edit_core.Seen.{IsOpening};
ghost use Rattle.board_share.specs.Namings.{IsNamed};

use board_share::edit_core::Board;
use board_share::{Blank, Desk, Eye, Naming};
use check_workers::{Bell, CheckEnd, Why, WorkEnd, Worker};
use desk_doubles::{DeskSession, Numbers, inserted, judge_of, opening_of, replaced};
use edit_session::Session;
use outside::{FreeGate, Gate};
use std::alloc::Global;
use std::marker::Brand;
use std::process::Abort;
use std::sync::Wait;
use std::sync::atomic::{AtomicBool, AtomicU32, Ordering};
use std::thread;
use std::thread::{Threads, for_each_mut};

/// How often a thread looks whether another one has come so far.
const MOST_TURNS: u32 = 100_000_000;

/// What a thread has: its eye, while no session and no worker has it, and what it brings back.
#[derive(Drop)]
struct ThreadSeat<D: Naming> {
    eyes: Vec<Eye<Numbers, D>>,
    brought: Brought,
}

/// What a thread brings back.
#[derive(Clone, Copy)]
struct Brought {
    /// The last text version and dictionary version that a session was told or saw.
    last: Option<(u64, u64)>,
    /// Whether a worker was ended by its bell, or a session saw what it waited for.
    is_done: bool,
    /// Why a check ended without marks.
    end: Option<CheckEnd>,
}

impl Brought {
    const NOTHING: Brought = Brought {
        last: None,
        is_done: false,
        end: None,
    };
}

fn seat_of<D: Naming>(alloc: Global, eye: Eye<Numbers, D>) -> Option<ThreadSeat<D>> {
    let mut eyes = Vec::new(alloc);
    eyes.push(eye).ok()?;
    Some(ThreadSeat {
        eyes,
        brought: Brought::NOTHING,
    })
}

/// A seat for each eye, the last eye first.
fn seats_of<D: Naming>(
    alloc: Global,
    eyes: &mut Vec<Eye<Numbers, D>>,
) -> Option<Vec<ThreadSeat<D>>> {
    let mut seats = Vec::new(alloc);
    for _ in 0..eyes.len() {
        seats.push(seat_of(alloc, eyes.pop()?)?).ok()?;
    }
    Some(seats)
}

/// Inserts so many paragraphs, each of which has a new id and raises the text version.
fn insert_all<D: Naming, W: Wait + Drop, R: Wait>(
    rt: &R,
    alloc: Global,
    session: &mut DeskSession<'_, D, W>,
    count: u64,
) -> Option<(u64, u64)> {
    let mut last = (0, 0);
    let mut next_id = 0;
    for _ in 0..count {
        let told = session
            .edit(rt, alloc, inserted(alloc, "hello wrold")?)
            .ok()?;
        let id = told.made?;
        if told.text <= last.0 || id < next_id {
            return None;
        }
        last = (told.text, told.dict);
        next_id = id.checked_add(1)?;
    }
    Some(last)
}

/// Loads the dictionary in force again and again, each time as a new version.
fn load_all<D: Naming, W: Wait + Drop, R: Wait>(
    rt: &R,
    alloc: Global,
    session: &mut DeskSession<'_, D, W>,
    count: u64,
) -> Option<(u64, u64)> {
    let mut last = (0, 0);
    for _ in 0..count {
        let judge = judge_of(session)?;
        let told = session.reload(rt, alloc, judge).ok()?;
        if told.dict <= last.1 {
            return None;
        }
        last = (told.text, told.dict);
    }
    Some(last)
}

/// The id of the first paragraph.
fn first_id<D: Naming, W: Wait + Drop>(session: &mut DeskSession<'_, D, W>) -> Option<u64> {
    let board = session.look().ok()?;
    Some(board.para(0)?.id)
}

/// Parks the first paragraph and asks for its check again, each time, and sees no version fall.
fn park_all<D: Naming, W: Wait + Drop, R: Wait>(
    rt: &R,
    alloc: Global,
    session: &mut DeskSession<'_, D, W>,
    count: u64,
) -> Option<(u64, u64)> {
    let mut last = (0, 0);
    for _ in 0..count {
        let id = first_id(session)?;
        session.park(rt, alloc, id).ok()?;
        let told = session.ask(rt, alloc, id).ok()?;
        if told.text < last.0 || told.dict < last.1 {
            return None;
        }
        last = (told.text, told.dict);
    }
    Some(last)
}

/// Looks, and sees no version fall.
fn look_all<D: Naming, W: Wait + Drop>(
    session: &mut DeskSession<'_, D, W>,
    count: u64,
) -> Option<(u64, u64)> {
    let mut last = (0, 0);
    for _ in 0..count {
        let versions = session.look().ok()?.versions();
        if versions.text < last.0 || versions.dict < last.1 {
            return None;
        }
        last = (versions.text, versions.dict);
    }
    Some(last)
}

/// What sessions do, and what comes of it.
#[derive(Clone, Copy)]
struct Sessions {
    /// How often each does what it does.
    each: u64,
    /// How many edits and loads the history has then.
    edits: u64,
    loads: u64,
    /// How often it is parked and asked.
    asks: u64,
}

/// What the session with a number does: two insert, one loads, one parks, and the others look.
fn act<D: Naming, W: Wait + Drop, R: Wait>(
    rt: &R,
    alloc: Global,
    desk: &Desk<Numbers, D, W>,
    each: u64,
    place: usize,
    seat: &mut ThreadSeat<D>,
) -> Option<()> {
    let number = u32::try_from(place).ok()?;
    let mut session = Session::new(desk, seat.eyes.pop()?, number);
    seat.brought.last = match place {
        0 | 1 => insert_all(rt, alloc, &mut session, each),
        2 => load_all(rt, alloc, &mut session, each),
        3 => park_all(rt, alloc, &mut session, each),
        _ => look_all(&mut session, each),
    };
    seat.eyes.push(session.into_eye()).ok()
}

/// All sessions at once.
fn act_at_once<D: Naming + Send + Sync, W: Wait + Drop + Send + Sync, R: Threads + Wait + Sync>(
    rt: &R,
    alloc: Global,
    desk: &Desk<Numbers, D, W>,
    each: u64,
    seats: &mut [ThreadSeat<D>],
) {
    for_each_mut(
        rt,
        seats,
        5,
        &|place: usize, seat: &mut ThreadSeat<D>| {
            let _done = act(rt, alloc, desk, each, place, seat);
        },
    );
}

/// Sessions at once, each by an eye of its own.
fn play_sessions<
    D: Naming + Send + Sync,
    W: Wait + Drop + Send + Sync,
    R: Threads + Wait + Abort + Sync,
>(
    rt: &R,
    alloc: Global,
    desk: &Desk<Numbers, D, W>,
    eyes: &mut Vec<Eye<Numbers, D>>,
    sessions: Sessions,
) -> Option<()> {
    let mut seats = seats_of(alloc, eyes)?;
    act_at_once(rt, alloc, desk, sessions.each, &mut seats);
    assert_seats(rt, &seats, &sessions)?;
    let progress = seats.first_mut()?.eyes.first_mut()?.progress();
    assert_eq!(rt;
        (progress.text, progress.dict),
        (sessions.edits, sessions.loads)
    );
    Some(())
}

/// Each thread did all, and was told no more than the whole history has; together they were told
/// of all of it. One parked and asked, so often each, and the others never.
fn assert_seats<D: Naming>(
    rt: &impl Abort,
    seats: &[ThreadSeat<D>],
    wanted: &Sessions,
) -> Option<()> {
    let (mut edits, mut loads, mut asks) = (0u64, 0u64, 0u64);
    let mut greatest = (0, 0);
    for (place, seat) in seats.iter().enumerate() {
        let last = seat.brought.last?;
        assert!(rt; last.0 <= wanted.edits && last.1 <= wanted.loads);
        // The last one of five only looks.
        if place < 4 {
            greatest = (last.0.max(greatest.0), last.1.max(greatest.1));
        }
        let counts = seat.eyes.first()?.counts();
        edits = edits.wrapping_add(counts.edits);
        loads = loads.wrapping_add(counts.loads);
        asks = asks.wrapping_add(counts.asks);
    }
    assert_eq!(rt;
        (edits, loads, asks),
        (wanted.edits, wanted.loads, wanted.asks)
    );
    assert_eq!(rt; greatest, (wanted.edits, wanted.loads));
    Some(())
}

/// A worker claims the one paragraph, and checks it.
fn check<D: Naming, W: Wait + Drop, R: Wait>(
    rt: &R,
    alloc: Global,
    desk: &Desk<Numbers, D, W>,
    seat: &mut ThreadSeat<D>,
) -> Option<()> {
    let mut worker = Worker::new(desk, seat.eyes.pop()?, 7);
    let claim = worker.claim(rt, alloc).ok()??;
    seat.brought.end = worker.check_claim(alloc, &FreeGate, &claim).err();
    Some(())
}

/// A session replaces the text when the judge has been asked, which answers then.
fn replace<D: Naming, W: Wait + Drop, R: Wait>(
    rt: &R,
    alloc: Global,
    desk: &Desk<Numbers, D, W>,
    seat: &mut ThreadSeat<D>,
) -> Option<()> {
    let mut session = Session::new(desk, seat.eyes.pop()?, 1);
    let judge = judge_of(&mut session)?;
    if judge.is_asked_in_time() {
        let told = session.edit(rt, alloc, replaced(alloc, 0, 0, "w")?).ok()?;
        seat.brought.last = Some((told.text, told.dict));
    }
    judge.hold(false);
    Some(())
}

/// The first thread checks, and the second one replaces.
fn check_and_replace<
    D: Naming + Send + Sync,
    W: Wait + Drop + Send + Sync,
    R: Threads + Wait + Sync,
>(rt: &R, alloc: Global, desk: &Desk<Numbers, D, W>, seats: &mut [ThreadSeat<D>]) {
    for_each_mut(
        rt,
        seats,
        2,
        &|place: usize, seat: &mut ThreadSeat<D>| {
            let _done = if place == 0 {
                check(rt, alloc, desk, seat)
            } else {
                replace(rt, alloc, desk, seat)
            };
        },
    );
}

/// Lets the judge of the dictionary in force wait before its answers.
fn hold<D: Naming>(eye: &mut Eye<Numbers, D>) -> Option<()> {
    eye.look().ok()?.judge().hold(true);
    Some(())
}

/// The text is replaced while the first word is judged. A look stands between the first 32 words
/// and the last.
fn play_polling<
    D: Naming + Send + Sync,
    W: Wait + Drop + Send + Sync,
    R: Threads + Wait + Abort + Sync,
>(
    rt: &R,
    alloc: Global,
    desk: &Desk<Numbers, D, W>,
    eyes: &mut Vec<Eye<Numbers, D>>,
) -> Option<()> {
    hold(eyes.first_mut()?)?;
    let mut seats = seats_of(alloc, eyes)?;
    check_and_replace(rt, alloc, desk, &mut seats);
    let [worker, session] = seats.as_slice() else {
        return None;
    };
    let stopped = CheckEnd::Stopped(Why::Behind { rev: 1 });
    assert_eq!(rt; worker.brought.end, Some(stopped));
    assert_eq!(rt; session.brought.last, Some((1, 0)));
    Some(())
}

/// A worker works until its bell is closed.
fn work<D: Naming, W: Wait + Drop, R: Wait, G: Gate>(
    rt: &R,
    alloc: Global,
    desk: &Desk<Numbers, D, W>,
    gate: &G,
    bell: &Bell,
    seat: &mut ThreadSeat<D>,
) -> Option<()> {
    let mut worker = Worker::new(desk, seat.eyes.pop()?, 7);
    seat.brought.is_done = worker.work(rt, alloc, gate, bell) == WorkEnd::Closed;
    seat.eyes.push(worker.into_eye()).ok()
}

/// Each thread came to its end, and claimed and finished so often. Both paragraphs are finished.
fn assert_checks<D: Naming>(
    rt: &impl Abort,
    seats: &mut [ThreadSeat<D>],
    checks: [u64; 2],
) -> Option<()> {
    for (seat, checks) in seats.iter_mut().zip(checks) {
        assert!(rt; seat.brought.is_done);
        let eye = seat.eyes.first_mut()?;
        assert_eq!(rt; eye.counts().checks, checks);
        assert_eq!(rt; eye.progress().finished, 2);
    }
    Some(())
}

/// Holds the first worker until a second one is there, and then closes the bell.
#[derive(Drop)]
struct MeetingGate<'a, R> {
    rt: &'a R,
    bell: &'a Bell,
    passes: AtomicU32,
    has_met: AtomicBool,
}

impl<R: Wait> Gate for MeetingGate<'_, R> {
    fn pass(&self, _worker: u32, _id: u64) {
        if self.passes.fetch_add(1, Ordering::SeqCst) == 0 {
            self.wait_for_another();
        }
        self.bell.close(self.rt);
    }

    fn enter(&self, _session: u32) {}
}

impl<R> MeetingGate<'_, R> {
    fn wait_for_another(&self) {
        for _ in 0..MOST_TURNS {
            if self.passes.load(Ordering::SeqCst) > 1 {
                self.has_met.store(true, Ordering::SeqCst);
                return;
            }
            thread::yield_now();
        }
    }
}

/// All workers at once, at one gate.
fn work_at_once<D: Naming + Send + Sync, W: Wait + Drop + Send + Sync, R: Threads + Wait + Sync>(
    rt: &R,
    alloc: Global,
    desk: &Desk<Numbers, D, W>,
    gate: &MeetingGate<'_, R>,
    seats: &mut [ThreadSeat<D>],
) {
    for_each_mut(
        rt,
        seats,
        2,
        &|_, seat: &mut ThreadSeat<D>| {
            let _done = work(rt, alloc, desk, gate, gate.bell, seat);
        },
    );
}

/// The first of two workers is held until the second one is there.
fn play_meeting<
    D: Naming + Send + Sync,
    W: Wait + Drop + Send + Sync,
    R: Threads + Wait + Abort + Sync,
>(
    rt: &R,
    alloc: Global,
    desk: &Desk<Numbers, D, W>,
    eyes: &mut Vec<Eye<Numbers, D>>,
) -> Option<()> {
    let bell = Bell::new();
    let gate = MeetingGate {
        rt,
        bell: &bell,
        passes: AtomicU32::new(0),
        has_met: AtomicBool::new(false),
    };
    let mut seats = seats_of(alloc, eyes)?;
    work_at_once(rt, alloc, desk, &gate, &mut seats);
    assert!(rt; gate.has_met.load(Ordering::SeqCst));
    assert_checks(rt, &mut seats, [2, 2])
}

/// Looks until so many paragraphs are finished; none where they are not in time.
fn wait_for<D: Naming, W: Wait + Drop>(
    session: &mut DeskSession<'_, D, W>,
    finished: u64,
) -> Option<()> {
    for _ in 0..MOST_TURNS {
        if session.progress().finished == finished {
            return Some(());
        }
        thread::yield_now();
    }
    None
}

/// When the first paragraph is finished, a session puts a second one in, and rings.
fn insert_and_ring<D: Naming, W: Wait + Drop, R: Wait>(
    rt: &R,
    alloc: Global,
    bell: &Bell,
    session: &mut DeskSession<'_, D, W>,
) -> Option<()> {
    wait_for(session, 1)?;
    session.edit(rt, alloc, inserted(alloc, "wurk")?).ok()?;
    bell.ring(rt);
    wait_for(session, 2)
}

/// A session puts a paragraph in, and closes the bell when that is finished.
fn write<D: Naming, W: Wait + Drop, R: Wait>(
    rt: &R,
    alloc: Global,
    desk: &Desk<Numbers, D, W>,
    bell: &Bell,
    seat: &mut ThreadSeat<D>,
) -> Option<()> {
    let mut session = Session::new(desk, seat.eyes.pop()?, 1);
    seat.brought.is_done = insert_and_ring(rt, alloc, bell, &mut session).is_some();
    bell.close(rt);
    seat.eyes.push(session.into_eye()).ok()
}

/// The first thread is a session, and the second one a worker for which nothing waits in between.
fn write_and_work<D: Naming + Send + Sync, W: Wait + Drop + Send + Sync, R: Threads + Wait + Sync>(
    rt: &R,
    alloc: Global,
    desk: &Desk<Numbers, D, W>,
    bell: &Bell,
    seats: &mut [ThreadSeat<D>],
) {
    for_each_mut(
        rt,
        seats,
        2,
        &|place: usize, seat: &mut ThreadSeat<D>| {
            let _done = if place == 0 {
                write(rt, alloc, desk, bell, seat)
            } else {
                work(rt, alloc, desk, &FreeGate, bell, seat)
            };
        },
    );
}

/// The worker waits for the bell, and goes on when it rings.
fn play_ringing<
    D: Naming + Send + Sync,
    W: Wait + Drop + Send + Sync,
    R: Threads + Wait + Abort + Sync,
>(
    rt: &R,
    alloc: Global,
    desk: &Desk<Numbers, D, W>,
    eyes: &mut Vec<Eye<Numbers, D>>,
) -> Option<()> {
    let bell = Bell::new();
    let mut seats = seats_of(alloc, eyes)?;
    write_and_work(rt, alloc, desk, &bell, &mut seats);
    assert_checks(rt, &mut seats, [0, 4])
}

/// What threads play over a desk.
#[derive(Clone, Copy)]
enum Play {
    Sessions(Sessions),
    Polling,
    Meeting,
    Ringing,
}

/// Plays it over a desk with this name.
fn play_over<D: Naming + Send + Sync, R: Threads + Wait + Abort + Sync>(
    rt: &R,
    alloc: Global,
    opening: Board<Numbers>,
    eyes: u32,
    blank: Blank<Numbers>,
    play: Play,
) -> Option<()>
    requires eyes { (0 < eyes) × (eyes ≤ 64) }
    requires opens { IsOpening opening }
    requires named { IsNamed blank opening D.name D.parts D.book D.opening }
    requires parts { blank.parts ≡ eyes }
{
    let (desk, mut eyes) = Desk::<Numbers, D, &R>::start(rt, alloc, opening, eyes, blank).ok()?;
    match play {
        Play::Sessions(sessions) => play_sessions(rt, alloc, &desk, &mut eyes, sessions),
        Play::Polling => play_polling(rt, alloc, &desk, &mut eyes),
        Play::Meeting => play_meeting(rt, alloc, &desk, &mut eyes),
        Play::Ringing => play_ringing(rt, alloc, &desk, &mut eyes),
    }
}

/// Plays it over a desk of its own, to its end.
fn assert_plays<R: Threads + Wait + Abort + Sync>(
    rt: &R,
    alloc: Global,
    eyes: u32,
    texts: &[&str],
    play: Play,
)
    requires { (0 < eyes) × (eyes ≤ 64) }
{
    let played = played(rt, alloc, eyes, texts, play);
    assert_eq!(rt; played, Some(()));
}

fn played<R: Threads + Wait + Abort + Sync>(
    rt: &R,
    alloc: Global,
    eyes: u32,
    texts: &[&str],
    play: Play,
) -> Option<()>
    requires { (0 < eyes) × (eyes ≤ 64) }
{
    let opening = opening_of(alloc, texts)?;
    play_over::<Brand, R>(rt, alloc, opening, eyes, Blank::new(eyes), play)
}

#[test]
fn two_sessions_at_once(rt: HostRuntime) {
    let sessions = Sessions {
        each: 100,
        edits: 200,
        loads: 0,
        asks: 0,
    };
    assert_plays(&rt, rt.alloc(), 2, &[], Play::Sessions(sessions));
}

#[test]
fn five_sessions_at_once(rt: HostRuntime) {
    let sessions = Sessions {
        each: 50,
        edits: 100,
        loads: 50,
        asks: 100,
    };
    assert_plays(&rt, rt.alloc(), 5, &["hello"], Play::Sessions(sessions));
}

#[test]
fn a_look_comes_behind_32_words(rt: HostRuntime) {
    let text = "a a a a a a a a a a a a a a a a a a a a a a a a a a a a a a a a a";
    assert_plays(&rt, rt.alloc(), 2, &[text], Play::Polling);
}

#[test]
fn two_workers_hold_two_paragraphs(rt: HostRuntime) {
    assert_plays(&rt, rt.alloc(), 2, &["hello", "wurk"], Play::Meeting);
}

#[test]
fn a_ring_wakes_a_worker(rt: HostRuntime) {
    assert_plays(&rt, rt.alloc(), 2, &["hello"], Play::Ringing);
}
