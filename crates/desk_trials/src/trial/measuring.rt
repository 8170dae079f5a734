//! Threads that check, threads that edit, and threads that look, over one desk.

ghost use Rattle.std.specs.Prelude.{◌≡◌, ◌<◌, ◌≤◌};
ghost use Rattle.board_share.specs.edit_core.Seen.{IsOpening};
ghost use Rattle.board_share.specs.Namings.{IsNamed};

use super::rates::{Rates, rates_of};
use super::seats::{Run, Seat, Tally};
use super::turns::{edit_all, look_all, work_all};
use board_share::edit_core::Board;
use board_share::{Blank, Desk, Eye, Naming};
use check_workers::Worker;
use edit_session::Session;
use mark_types::Judge;
use outside::lists::NoMemory;
use std::alloc::Global;
use std::sync::Wait;
use std::sync::atomic::Ordering;
use std::thread::{Threads, for_each_mut};
use std::time::Clock;

/// Does the work, and says how fast.
pub(super) fn measured<
    J: Judge + Drop + Send + Sync,
    D: Naming + Send + Sync,
    R: Threads + Wait + Clock + Sync,
>(
    rt: &R,
    alloc: Global,
    opening: Board<J>,
    run: &Run,
    eyes: u32,
    blank: Blank<J>,
) -> Result<Rates, NoMemory>
    requires eyes { (0 < eyes) × (eyes ≤ 64) }
    requires opens { IsOpening opening }
    requires named { IsNamed blank opening D.name D.parts D.book D.opening }
    requires parts { blank.parts ≡ eyes }
{
    let (desk, eyes) = Desk::<J, D, &R>::start(rt, alloc, opening, eyes, blank)?;
    let mut seats = seats_of(alloc, eyes)?;
    act_at_once(rt, alloc, &desk, run, &mut seats);
    Ok(rates_of(&mut seats))
}

/// A seat for each eye.
fn seats_of<J: Judge + Drop, D: Naming>(
    alloc: Global,
    eyes: Vec<Eye<J, D>>,
) -> Result<Vec<Seat<J, D>>, NoMemory> {
    let mut seats = Vec::new(alloc);
    for eye in eyes {
        let mut eyes = Vec::new(alloc);
        eyes.push(eye)?;
        let tally = Tally {
            claimed: 0,
            finished: 0,
            dropped: 0,
            published: 0,
            looked: 0,
            nanos: 0,
            inside: 0,
        };
        let seat = Seat {
            eyes,
            tally,
            looks: Vec::new(alloc),
            failed: false,
        };
        seats.push(seat)?;
    }
    Ok(seats)
}

/// All threads at once: the workers first, then the sessions, and last those that look.
fn act_at_once<
    J: Judge + Drop + Send + Sync,
    D: Naming + Send + Sync,
    W: Wait + Drop + Send + Sync,
    R: Threads + Wait + Clock + Sync,
>(rt: &R, alloc: Global, desk: &Desk<J, D, W>, run: &Run, seats: &mut [Seat<J, D>]) {
    let threads = seats.len().max(1);
    for_each_mut(
        rt,
        seats,
        threads,
        &|place: usize, seat: &mut Seat<J, D>| {
            seat.failed = act(rt, alloc, desk, run, place, seat).is_none();
        },
    );
}

/// What one thread does.
fn act<J: Judge + Drop, D: Naming, W: Wait + Drop, R: Wait + Clock>(
    rt: &R,
    alloc: Global,
    desk: &Desk<J, D, W>,
    run: &Run,
    place: usize,
    seat: &mut Seat<J, D>,
) -> Option<()> {
    let number = u32::try_from(place).ok()?;
    match number.checked_sub(run.work.workers) {
        None => work(rt, alloc, desk, run, number, seat),
        Some(behind) if behind < run.work.sessions => {
            edit(rt, alloc, desk, run, number, behind, seat)
        }
        Some(_) => look_all(rt, run, seat),
    }
}

/// What the thread of a worker does.
fn work<J: Judge + Drop, D: Naming, W: Wait + Drop, R: Wait + Clock>(
    rt: &R,
    alloc: Global,
    desk: &Desk<J, D, W>,
    run: &Run,
    number: u32,
    seat: &mut Seat<J, D>,
) -> Option<()> {
    let mut worker = Worker::new(desk, seat.eyes.pop()?, number);
    let done = work_all(rt, alloc, &mut worker, run, &mut seat.tally);
    run.working.fetch_sub(1, Ordering::SeqCst);
    done
}

/// What the thread of a session does. It edits one of the last paragraphs, which no other session
/// edits and which the workers come to last.
fn edit<J: Judge + Drop, D: Naming, W: Wait + Drop, R: Wait + Clock>(
    rt: &R,
    alloc: Global,
    desk: &Desk<J, D, W>,
    run: &Run,
    number: u32,
    behind: u32,
    seat: &mut Seat<J, D>,
) -> Option<()> {
    let id = run
        .paragraphs
        .checked_sub(1)?
        .checked_sub(u64::from(behind))?;
    let mut session = Session::new(desk, seat.eyes.pop()?, number);
    edit_all(rt, alloc, &mut session, run, id, &mut seat.tally)
}
