//! Workers and settles, workers that are held or outdated, bells, and how often a cache asks.

ghost use Rattle.check_workers.specs.Knowing.{KnowsClaim};

use super::scenes::{Scene, assert_plays};
use board_share::edit_core::{Refusal, Shown};
use board_share::{Claim, Desk, Eye, Naming, Told};
use check_workers::{Bell, CheckEnd, Why, WorkEnd, Worker, settle};
use desk_doubles::{DeskSession, Numbers, inserted, judge_of, replaced};
use edit_session::Session;
use mark_types::{Asker, Judge};
use outside::{FreeGate, Gate};
use std::alloc::Global;
use std::process::Abort;
use std::sync::atomic::{AtomicU32, AtomicU64, Ordering};
use std::sync::{Arc, Mutex, Wait};
use std::thread::Threads;
use verdict_cache::Cached;

/// Counts how often it is passed, and holds no one.
#[derive(Drop)]
struct Counting {
    passes: AtomicU32,
}

impl Gate for Counting {
    fn pass(&self, _worker: u32, _id: u64) {
        let _before = self.passes.fetch_add(1, Ordering::SeqCst);
    }

    fn enter(&self, _session: u32) {}
}

/// Closes a bell, and keeps whom it let pass.
#[derive(Drop)]
struct BellPasses<'a, R> {
    rt: &'a R,
    bell: &'a Bell,
    worker: AtomicU32,
    id: AtomicU64,
}

impl<R: Wait> Gate for BellPasses<'_, R> {
    fn pass(&self, worker: u32, id: u64) {
        self.worker.store(worker, Ordering::SeqCst);
        self.id.store(id, Ordering::SeqCst);
        self.bell.close(self.rt);
    }

    fn enter(&self, _session: u32) {}
}

/// What a session does while a worker is at the gate.
#[derive(Clone, Copy, Debug)]
enum Act {
    Replace,
    Reload,
    Park,
}

/// A session that acts while a worker is held at its gate.
#[derive(Drop)]
struct Acting<'a, D: Naming, W: Wait + Drop, R> {
    rt: &'a R,
    alloc: Global,
    session: Mutex<DeskSession<'a, D, W>>,
    act: Act,
}

impl<D: Naming, W: Wait + Drop, R: Wait> Gate for Acting<'_, D, W, R> {
    fn pass(&self, _worker: u32, id: u64) {
        let mut session = self.session.lock(self.rt);
        let _done = do_act(self.rt, self.alloc, &mut session, self.act, id);
    }

    fn enter(&self, _session: u32) {}
}

/// Does what the session is to do with a paragraph, which has rev 0.
fn do_act<D: Naming, W: Wait + Drop, R: Wait>(
    rt: &R,
    alloc: Global,
    session: &mut DeskSession<'_, D, W>,
    act: Act,
    id: u64,
) -> Option<()> {
    let done = match act {
        Act::Replace => session.edit(rt, alloc, replaced(alloc, id, 0, "w")?),
        Act::Reload => {
            let judge = judge_of(session)?;
            session.reload(rt, alloc, judge)
        }
        Act::Park => session.park(rt, alloc, id),
    };
    done.ok().map(|_told| ())
}

/// A worker is given the paragraph with this id and rev, or none.
fn assert_claims<D: Naming, W: Wait + Drop, R: Wait + Abort>(
    rt: &R,
    alloc: Global,
    worker: &mut Worker<'_, Numbers, D, Desk<Numbers, D, W>>,
    wanted: Option<(u64, u64)>,
) -> Option<()> {
    let claimed = worker.claim(rt, alloc).ok()?;
    assert_eq!(rt; claimed.map(|claim| (claim.id, claim.rev)), wanted);
    Some(())
}

/// A session inserts a paragraph in which one word is marked.
fn insert<D: Naming, W: Wait + Drop, R: Wait>(
    rt: &R,
    alloc: Global,
    session: &mut DeskSession<'_, D, W>,
) -> Option<()> {
    session.edit(rt, alloc, inserted(alloc, "1 wurk")?).ok()?;
    Some(())
}

/// The next look of a session shows the first paragraph finished, with one mark.
fn assert_finished<D: Naming, W: Wait + Drop>(
    rt: &impl Abort,
    session: &mut DeskSession<'_, D, W>,
) -> Option<()> {
    let board = session.look().ok()?;
    match board.para(0)?.shown {
        Shown::Marks(marks) => assert_eq!(rt; marks.as_slice().len(), 1),
        Shown::Pending { .. } => return None,
    }
    Some(())
}

/// A settle finishes the one paragraph.
fn assert_settles<D: Naming, W: Wait + Drop, R: Wait + Abort>(
    rt: &R,
    alloc: Global,
    desk: &Desk<Numbers, D, W>,
    eye: &mut Eye<Numbers, D>,
) {
    let wanted = Told {
        point: 2,
        text: 1,
        dict: 0,
        made: None,
    };
    let told = settle(rt, alloc, desk, eye);
    assert_eq!(rt; told.ok(), Some(wanted));
}

/// A worker finds nothing to claim where a session parked the one paragraph.
struct Parked;

impl Scene for Parked {
    fn play<
        D: Naming + Send + Sync,
        W: Wait + Drop + Send + Sync,
        R: Threads + Wait + Abort + Sync,
    >(
        &self,
        rt: &R,
        alloc: Global,
        desk: &Desk<Numbers, D, W>,
        eyes: &mut Vec<Eye<Numbers, D>>,
    ) -> Option<()> {
        Session::new(desk, eyes.pop()?, 1).park(rt, alloc, 0).ok()?;
        assert_claims(rt, alloc, &mut Worker::new(desk, eyes.pop()?, 7), None)
    }
}

#[test]
fn nothing_is_claimed_where_all_is_parked(rt: HostRuntime) {
    assert_plays(&rt, rt.alloc(), 2, &["hello"], &Parked);
}

/// A worker claims what a session inserted.
struct Claimed;

impl Scene for Claimed {
    fn play<
        D: Naming + Send + Sync,
        W: Wait + Drop + Send + Sync,
        R: Threads + Wait + Abort + Sync,
    >(
        &self,
        rt: &R,
        alloc: Global,
        desk: &Desk<Numbers, D, W>,
        eyes: &mut Vec<Eye<Numbers, D>>,
    ) -> Option<()> {
        insert(rt, alloc, &mut Session::new(desk, eyes.pop()?, 1))?;
        let mut worker = Worker::new(desk, eyes.pop()?, 7);
        assert_claims(rt, alloc, &mut worker, Some((0, 1)))
    }
}

#[test]
fn a_worker_without_a_call_claims_an_insert(rt: HostRuntime) {
    assert_plays(&rt, rt.alloc(), 2, &[], &Claimed);
}

/// A settle finishes what a session inserted, and the session sees it.
struct Settled;

impl Scene for Settled {
    fn play<
        D: Naming + Send + Sync,
        W: Wait + Drop + Send + Sync,
        R: Threads + Wait + Abort + Sync,
    >(
        &self,
        rt: &R,
        alloc: Global,
        desk: &Desk<Numbers, D, W>,
        eyes: &mut Vec<Eye<Numbers, D>>,
    ) -> Option<()> {
        let mut session = Session::new(desk, eyes.pop()?, 1);
        insert(rt, alloc, &mut session)?;
        assert_settles(rt, alloc, desk, &mut eyes.pop()?);
        assert_finished(rt, &mut session)
    }
}

#[test]
fn a_settle_without_a_call_finishes_an_insert(rt: HostRuntime) {
    assert_plays(&rt, rt.alloc(), 2, &[], &Settled);
}

/// The check of a claim ends so, without marks.
fn assert_stops<J: Judge + Drop, D: Naming, K, G: Gate>(
    rt: &impl Abort,
    alloc: Global,
    worker: &mut Worker<'_, J, D, K>,
    claim: &Claim<J>,
    gate: &G,
    why: Why,
)
    requires { KnowsClaim J.lexicon worker.old.eye.run claim.now }
    ensures { KnowsClaim J.lexicon worker.new.eye.run claim.now }
{
    let end = worker.check_claim(alloc, gate, claim).err();
    assert_eq!(rt; end, Some(CheckEnd::Stopped(why)));
}

/// A worker claims the one paragraph, and a session replaces its text. The worker's check is
/// stopped.
fn assert_outdated<D: Naming, W: Wait + Drop, R: Wait + Abort, G: Gate>(
    rt: &R,
    alloc: Global,
    session: &mut DeskSession<'_, D, W>,
    worker: &mut Worker<'_, Numbers, D, Desk<Numbers, D, W>>,
    gate: &G,
) -> Option<()> {
    let claim = worker.claim(rt, alloc).ok()??;
    let edit = replaced(alloc, claim.id, claim.rev, "w")?;
    session.edit(rt, alloc, edit).ok()?;
    assert_stops(rt, alloc, worker, &claim, gate, Why::Behind { rev: 1 });
    Some(())
}

/// The worker has not passed the gate.
struct Before;

impl Scene for Before {
    fn play<
        D: Naming + Send + Sync,
        W: Wait + Drop + Send + Sync,
        R: Threads + Wait + Abort + Sync,
    >(
        &self,
        rt: &R,
        alloc: Global,
        desk: &Desk<Numbers, D, W>,
        eyes: &mut Vec<Eye<Numbers, D>>,
    ) -> Option<()> {
        let gate = Counting {
            passes: AtomicU32::new(0),
        };
        let mut session = Session::new(desk, eyes.pop()?, 1);
        let mut worker = Worker::new(desk, eyes.pop()?, 7);
        let outdated = assert_outdated(rt, alloc, &mut session, &mut worker, &gate);
        assert_eq!(rt; gate.passes.load(Ordering::SeqCst), 0);
        outdated
    }
}

#[test]
fn a_look_comes_before_the_gate(rt: HostRuntime) {
    assert_plays(&rt, rt.alloc(), 2, &["hello wurk"], &Before);
}

/// What a session does, and what the worker is told of it.
#[derive(Clone, Copy, Debug)]
struct HeldWork {
    act: Act,
    why: Why,
    refusal: Refusal,
}

/// A check is made before the worker is held. At the gate the worker is told that no check is
/// wanted; and so is one who finishes it nevertheless.
fn assert_unwanted<J: Judge + Drop, D: Naming, W: Wait + Drop, R: Wait + Abort, G: Gate>(
    rt: &R,
    alloc: Global,
    worker: &mut Worker<'_, J, D, Desk<J, D, W>>,
    claim: &Claim<J>,
    gate: &G,
    held: HeldWork,
) -> Option<()>
    requires { KnowsClaim J.lexicon worker.old.eye.run claim.now }
{
    let checked = worker.check_claim(alloc, &FreeGate, claim).ok()?;
    assert_stops(rt, alloc, worker, claim, gate, held.why);
    let finished = worker.finish(rt, alloc, claim, checked);
    assert_eq!(rt; finished.err(), Some(held.refusal));
    Some(())
}

/// A worker claims the one paragraph, and is held.
fn assert_held<J: Judge + Drop, D: Naming, W: Wait + Drop, R: Wait + Abort, G: Gate>(
    rt: &R,
    alloc: Global,
    worker: &mut Worker<'_, J, D, Desk<J, D, W>>,
    gate: &G,
    held: HeldWork,
) -> Option<()> {
    let claim = worker.claim(rt, alloc).ok()??;
    assert_eq!(rt; (claim.id, claim.rev, claim.dict), (0, 0, 0));
    assert_unwanted(rt, alloc, worker, &claim, gate, held)
}

impl Scene for HeldWork {
    fn play<
        D: Naming + Send + Sync,
        W: Wait + Drop + Send + Sync,
        R: Threads + Wait + Abort + Sync,
    >(
        &self,
        rt: &R,
        alloc: Global,
        desk: &Desk<Numbers, D, W>,
        eyes: &mut Vec<Eye<Numbers, D>>,
    ) -> Option<()> {
        let gate = Acting {
            rt,
            alloc,
            session: Mutex::new(Session::new(desk, eyes.pop()?, 1)),
            act: self.act,
        };
        let mut worker = Worker::new(desk, eyes.pop()?, 7);
        assert_held(rt, alloc, &mut worker, &gate, *self)
    }
}

#[test]
fn the_text_is_replaced_at_the_gate(rt: HostRuntime) {
    let held = HeldWork {
        act: Act::Replace,
        why: Why::Behind { rev: 1 },
        refusal: Refusal::Behind { rev: 1 },
    };
    assert_plays(&rt, rt.alloc(), 2, &["hello wurk"], &held);
}

#[test]
fn the_dictionary_is_exchanged_at_the_gate(rt: HostRuntime) {
    let held = HeldWork {
        act: Act::Reload,
        why: Why::Reloaded { dict: 1 },
        refusal: Refusal::Reloaded { dict: 1 },
    };
    assert_plays(&rt, rt.alloc(), 2, &["hello wurk"], &held);
}

#[test]
fn the_paragraph_is_parked_at_the_gate(rt: HostRuntime) {
    let held = HeldWork {
        act: Act::Park,
        why: Why::Parked { rev: 0 },
        refusal: Refusal::Parked { rev: 0 },
    };
    assert_plays(&rt, rt.alloc(), 2, &["hello wurk"], &held);
}

/// A worker works twice, and gives its eye back. Each time it ends since the bell is closed.
fn work_twice<D: Naming, W: Wait + Drop, R: Wait + Abort, G: Gate>(
    rt: &R,
    alloc: Global,
    mut worker: Worker<'_, Numbers, D, Desk<Numbers, D, W>>,
    gate: &G,
    bell: &Bell,
) -> Eye<Numbers, D> {
    for _ in 0..2 {
        let end = worker.work(rt, alloc, gate, bell);
        assert_eq!(rt; end, WorkEnd::Closed);
    }
    worker.into_eye()
}

/// One paragraph was claimed and finished through an eye.
fn assert_one_finished<D: Naming>(rt: &impl Abort, eye: &mut Eye<Numbers, D>) {
    assert_eq!(rt; eye.counts().checks, 2);
    assert_eq!(rt; eye.progress().finished, 1);
}

/// The worker finishes the paragraph that it has claimed, and claims no other.
struct ClosedDesk;

impl Scene for ClosedDesk {
    fn play<
        D: Naming + Send + Sync,
        W: Wait + Drop + Send + Sync,
        R: Threads + Wait + Abort + Sync,
    >(
        &self,
        rt: &R,
        alloc: Global,
        desk: &Desk<Numbers, D, W>,
        eyes: &mut Vec<Eye<Numbers, D>>,
    ) -> Option<()> {
        let bell = Bell::new();
        let gate = BellPasses {
            rt,
            bell: &bell,
            worker: AtomicU32::new(0),
            id: AtomicU64::new(9),
        };
        let worker = Worker::new(desk, eyes.pop()?, 7);
        assert_one_finished(rt, &mut work_twice(rt, alloc, worker, &gate, &bell));
        assert_eq!(rt; gate.worker.load(Ordering::SeqCst), 7);
        assert_eq!(rt; gate.id.load(Ordering::SeqCst), 0);
        Some(())
    }
}

#[test]
fn a_closed_bell_ends_a_worker(rt: HostRuntime) {
    assert_plays(&rt, rt.alloc(), 1, &["hello", "wurk"], &ClosedDesk);
}

/// The verdict on a word.
fn asked<A: Asker>(alloc: Global, asker: &mut A, word: &str) -> Option<bool> {
    let characters: Vec<char> = word.chars().collect(alloc).ok()?;
    asker.verdict(alloc, &characters).ok()
}

/// A cache of one word is asked for each of these.
fn ask_all<A: Asker>(rt: &impl Abort, alloc: Global, cached: &mut A, words: &[&str]) -> Option<()> {
    for word in words {
        assert_eq!(rt; asked(alloc, cached, word)?, *word == "12");
    }
    Some(())
}

/// It asks its judge so often.
fn assert_asks(rt: &impl Abort, alloc: Global, words: &[&str], times: u32) -> Option<()> {
    let judge = Arc::new(alloc, Numbers::new()).ok()?;
    let mut cached = Cached::new(alloc, Arc::try_clone(&judge).ok()?, 1).ok()?;
    ask_all(rt, alloc, &mut cached, words)?;
    assert_eq!(rt; judge.asked(), times);
    Some(())
}

#[test]
fn a_word_that_is_held_is_asked_for_once(rt: HostRuntime) {
    let alloc = rt.alloc();
    let known = assert_asks(&rt, alloc, &["12", "12"], 1);
    let unknown = assert_asks(&rt, alloc, &["wurk", "wurk", "wurk"], 1);
    let both = assert_asks(&rt, alloc, &["12", "wurk", "12"], 3);
    assert_eq!(&rt; [known, unknown, both], [Some(()); 3]);
}
