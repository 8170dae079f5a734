//! What a worker, a session and a reader do again and again, and how long they are at it.

ghost use Rattle.std.specs.Prelude.{IfSome};
ghost use Rattle.check_workers.specs.Knowing.{KnowsClaim};

use super::seats::{Run, Seat, Tally};
use board_share::edit_core::Refusal;
use board_share::paragraph_text::Edit;
use board_share::{Claim, Desk, Eye, Naming};
use check_workers::{CheckEnd, Worker};
use edit_session::Session;
use mark_types::Judge;
use mark_types::text_lines::Text;
use outside::FreeGate;
use std::alloc::Global;
use std::sync::Wait;
use std::sync::atomic::Ordering;
use std::time::{Clock, Instant};

/// How many looks of a thread are timed, at most.
const MOST_LOOKS: usize = 1_000_000;

/// A worker over a desk, and a session over it.
pub(super) type Own<'a, J, D, W> = Worker<'a, J, D, Desk<J, D, W>>;

pub(super) type Writer<'a, J, D, W> = Session<'a, J, D, Desk<J, D, W>>;

/// Claims, checks and finishes until no paragraph waits, until enough is finished by all workers,
/// or until the time is over.
pub(super) fn work_all<J: Judge + Drop, D: Naming, W: Wait + Drop, R: Wait + Clock>(
    rt: &R,
    alloc: Global,
    worker: &mut Own<'_, J, D, W>,
    run: &Run,
    tally: &mut Tally,
) -> Option<()> {
    let began = Instant::now(rt).ok()?;
    for _ in 0..u64::MAX {
        let Some(claim) = claim_one(rt, alloc, worker, tally)? else {
            break;
        };
        finish_one(rt, alloc, worker, &claim, run, tally)?;
        if run.finished.load(Ordering::SeqCst) >= run.paragraphs
            || is_over(rt, began, run, tally)?
        {
            break;
        }
    }
    is_over(rt, began, run, tally)?;
    Some(())
}

/// Claims a paragraph, if one waits. The time inside `Worker::claim` is counted: that of waiting
/// for the lock and that of holding it together, for no clock is read under the lock. A worker that
/// is alone never waits, so its time is that of holding, and of little beside.
fn claim_one<J: Judge + Drop, D: Naming, W: Wait + Drop, R: Wait + Clock>(
    rt: &R,
    alloc: Global,
    worker: &mut Own<'_, J, D, W>,
    tally: &mut Tally,
) -> Option<Option<Claim<J>>>
    ensures { IfSome result
        (λ claimed. IfSome claimed (KnowsClaim J.lexicon worker.new.eye.run)) }
{
    let began = Instant::now(rt).ok()?;
    let claimed = worker.claim(rt, alloc).ok()?;
    tally.inside = tally.inside.wrapping_add(nanos_since(rt, began)?);
    if claimed.is_some() {
        tally.claimed = tally.claimed.wrapping_add(1);
    }
    Some(claimed)
}

/// Checks a claim and finishes it, or drops a check that is not wanted any more. The time inside
/// `Worker::finish` is counted as that inside `Worker::claim` is.
fn finish_one<J: Judge + Drop, D: Naming, W: Wait + Drop, R: Wait + Clock>(
    rt: &R,
    alloc: Global,
    worker: &mut Own<'_, J, D, W>,
    claim: &Claim<J>,
    run: &Run,
    tally: &mut Tally,
) -> Option<()>
    requires { KnowsClaim J.lexicon worker.old.eye.run claim.now }
{
    let checked = match worker.check_claim(alloc, &FreeGate, claim) {
        Ok(checked) => checked,
        Err(CheckEnd::Stopped(_)) => {
            tally.dropped = tally.dropped.wrapping_add(1);
            return Some(());
        }
        Err(CheckEnd::NoMemory) => return None,
    };
    let began = Instant::now(rt).ok()?;
    let finished = worker.finish(rt, alloc, claim, checked);
    tally.inside = tally.inside.wrapping_add(nanos_since(rt, began)?);
    match finished {
        Ok(_told) => {
            tally.finished = tally.finished.wrapping_add(1);
            run.finished.fetch_add(1, Ordering::SeqCst);
        }
        Err(Refusal::Spent { .. } | Refusal::NoMemory) => return None,
        Err(_not_wanted) => tally.dropped = tally.dropped.wrapping_add(1),
    }
    Some(())
}

/// Replaces the first byte of a paragraph until all workers have ended, or often enough, or until the
/// time is over.
pub(super) fn edit_all<J: Judge + Drop, D: Naming, W: Wait + Drop, R: Wait + Clock>(
    rt: &R,
    alloc: Global,
    session: &mut Writer<'_, J, D, W>,
    run: &Run,
    id: u64,
    tally: &mut Tally,
) -> Option<()> {
    let began = Instant::now(rt).ok()?;
    let mut rev = 0;
    for _ in 0..run.work.events {
        let edit = Edit::Replace {
            id,
            rev,
            from: 0,
            to: 1,
            text: Text::from_str(alloc, "x").ok()?,
        };
        rev = session.edit(rt, alloc, edit).ok()?.text;
        tally.published = tally.published.wrapping_add(1);
        if is_over(rt, began, run, tally)? || has_no_worker_left(run) {
            break;
        }
    }
    Some(())
}

/// Looks until all workers have ended, or often enough, or until the time is over. One of 16 looks is
/// timed.
pub(super) fn look_all<J: Judge + Drop, D: Naming, R: Clock>(
    rt: &R,
    run: &Run,
    seat: &mut Seat<J, D>,
) -> Option<()> {
    let began = Instant::now(rt).ok()?;
    let mut eye = seat.eyes.pop()?;
    for turn in 0..run.work.events {
        if turn % 16 == 0 {
            look_timed(rt, &mut eye, &mut seat.looks)?;
            if is_over(rt, began, run, &mut seat.tally)? || has_no_worker_left(run) {
                break;
            }
        } else {
            eye.look().ok()?;
        }
        seat.tally.looked = seat.tally.looked.wrapping_add(1);
    }
    Some(())
}

/// Looks, and notes how long that took.
fn look_timed<J: Judge + Drop, D: Naming, R: Clock>(
    rt: &R,
    eye: &mut Eye<J, D>,
    looks: &mut Vec<u64>,
) -> Option<()> {
    let began = Instant::now(rt).ok()?;
    eye.look().ok()?;
    let nanos = nanos_since(rt, began)?;
    if looks.len() < MOST_LOOKS {
        looks.push(nanos).ok()?;
    }
    Some(())
}

/// Whether there were workers, and all have ended.
fn has_no_worker_left(run: &Run) -> bool {
    run.work.workers > 0 && run.working.load(Ordering::SeqCst) == 0
}

/// Whether the time is over; how long it was so far is kept.
fn is_over<R: Clock>(rt: &R, began: Instant, run: &Run, tally: &mut Tally) -> Option<bool> {
    tally.nanos = nanos_since(rt, began)?;
    let seconds = run.work.seconds;
    Some(seconds > 0 && tally.nanos / 1_000_000_000 >= seconds)
}

fn nanos_since<R: Clock>(rt: &R, began: Instant) -> Option<u64> {
    let elapsed = began.elapsed(rt).ok()?;
    Some(u64::try_from(elapsed.as_nanos()).unwrap_or(u64::MAX))
}
