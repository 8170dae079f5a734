//! The desk, its sessions, and what each does.

ghost use Rattle.std.specs.Prelude.{◌≡◌};
ghost use Rattle.board_share.specs.edit_core.Seen.{IsOpening};
ghost use Rattle.board_share.specs.Namings.{IsNamed};

use super::marks::print_marks;
use anyhow::Context;
use board_share::edit_core::Board;
use board_share::paragraph_text::Edit;
use board_share::{Blank, Desk, Eye, Naming};
use edit_session::Session;
use mark_types::Judge;
use mark_types::text_lines::Text;
use std::alloc::{AllocError, Global};
use std::sync::{Arc, Wait};
use std::thread::{Threads, for_each_mut};
use word_verdict::Speller;

/// What the threads write, a word at a time, each into a paragraph of its own.
const TEXTS: [&str; 2] = ["the color is the colour", "the colour is the color"];

/// What the board opens with: a paragraph for each thread, in which nothing stands.
pub(super) const OPENING: &str = "\n\n";

/// Puts words behind each other into the paragraph with an id.
fn write<J: Judge + Drop, D: Naming, W: Wait + Drop, R: Wait>(
    rt: &R,
    alloc: Global,
    session: &mut Session<'_, J, D, Desk<J, D, W>>,
    id: u64,
    text: &str,
) -> Option<()> {
    let mut rev = 0;
    let mut end: u32 = 0;
    for word in text.split_inclusive(' ') {
        let edit = Edit::Replace {
            id,
            rev,
            from: end,
            to: end,
            text: Text::from_str(alloc, word).ok()?,
        };
        rev = session.edit(rt, alloc, edit).ok()?.text;
        end = end.checked_add(u32::try_from(word.len()).ok()?)?;
    }
    Some(())
}

/// What a thread has: its eye, while no session has it.
#[derive(Drop)]
struct WriterSeat<J: Judge + Drop, D: Naming> {
    eyes: Vec<Eye<J, D>>,
    is_done: bool,
}

/// What the thread with a number does: it takes its eye, and writes by a session over it.
fn act<J: Judge + Drop, D: Naming, W: Wait + Drop, R: Wait>(
    rt: &R,
    alloc: Global,
    desk: &Desk<J, D, W>,
    place: usize,
    seat: &mut WriterSeat<J, D>,
) -> Option<()> {
    let mut session = Session::new(desk, seat.eyes.pop()?, 1);
    let id = u64::try_from(place).ok()?;
    write(rt, alloc, &mut session, id, TEXTS.get(place)?)
}

/// A seat for each eye.
fn seats_of<J: Judge + Drop, D: Naming>(
    alloc: Global,
    eyes: Vec<Eye<J, D>>,
) -> Result<Vec<WriterSeat<J, D>>, AllocError> {
    let mut seats = Vec::new(alloc);
    for eye in eyes {
        let mut eyes = Vec::new(alloc);
        eyes.push(eye)?;
        let seat = WriterSeat {
            eyes,
            is_done: false,
        };
        seats.push(seat)?;
    }
    Ok(seats)
}

/// All threads write at once, each through an eye of its own.
fn write_at_once<
    J: Judge + Drop + Send + Sync,
    D: Naming + Send + Sync,
    W: Wait + Drop + Send + Sync,
    R: Threads + Wait + Sync,
>(rt: &R, alloc: Global, desk: &Desk<J, D, W>, seats: &mut [WriterSeat<J, D>]) {
    for_each_mut(
        rt,
        seats,
        2,
        &|place: usize, seat: &mut WriterSeat<J, D>| {
            seat.is_done = act(rt, alloc, desk, place, seat).is_some();
        },
    );
}

/// Whether all threads wrote what they were to write.
fn are_done<J: Judge + Drop, D: Naming>(seats: &[WriterSeat<J, D>]) -> bool {
    seats.iter().all(|seat| seat.is_done)
}

/// All threads write, each from a seat of its own.
fn write_all<
    J: Judge + Drop + Send + Sync,
    D: Naming + Send + Sync,
    W: Wait + Drop + Send + Sync,
    R: Threads + Wait + Sync,
>(rt: &R, alloc: Global, desk: &Desk<J, D, W>, eyes: Vec<Eye<J, D>>) -> anyhow::Result<()> {
    let mut seats = seats_of(alloc, eyes)?;
    write_at_once(rt, alloc, desk, &mut seats);
    if !are_done(&seats) {
        return Err(anyhow::Error::msg("an edit was refused"));
    }
    Ok(())
}

/// Prints the marks of the board that a session sees.
fn print_look<D: Naming, W: Wait + Drop>(
    rt: &impl Print,
    alloc: Global,
    session: &mut Session<'_, Speller, D, Desk<Speller, D, W>>,
) -> anyhow::Result<()> {
    let board = session.look().ok().context("no memory for a look")?;
    print_marks(rt, alloc, &*board)
}

/// Exchanges the dictionary through a session, and prints the marks before and after.
fn print_both<D: Naming, W: Wait + Drop, R: Wait + Print>(
    rt: &R,
    alloc: Global,
    session: &mut Session<'_, Speller, D, Desk<Speller, D, W>>,
    other: &Arc<Speller>,
) -> anyhow::Result<()> {
    print_look(rt, alloc, session)?;
    session
        .reload(rt, alloc, Arc::try_clone(other)?)
        .ok()
        .context("no other dictionary")?;
    print_look(rt, alloc, session)
}

/// Lets all eyes but the last one write, and prints the marks by the last one.
fn write_and_print<
    D: Naming + Send + Sync,
    W: Wait + Drop + Send + Sync,
    R: Threads + Wait + Print + Sync,
>(
    rt: &R,
    alloc: Global,
    desk: &Desk<Speller, D, W>,
    mut eyes: Vec<Eye<Speller, D>>,
    other: &Arc<Speller>,
) -> anyhow::Result<()> {
    let reader = eyes.pop().context("three eyes")?;
    write_all(rt, alloc, desk, eyes)?;
    print_both(rt, alloc, &mut Session::new(desk, reader, 2), other)
}

/// Opens a desk, lets two sessions write, exchanges the dictionary, and prints the marks before and
/// after.
pub(super) fn written<D: Naming + Send + Sync, R: Threads + Wait + Print + Sync>(
    rt: &R,
    alloc: Global,
    opening: Board<Speller>,
    other: &Arc<Speller>,
    blank: Blank<Speller>,
) -> anyhow::Result<()>
    requires opens { IsOpening opening }
    requires named { IsNamed blank opening D.name D.parts D.book D.opening }
    requires parts { blank.parts ≡ 3 }
{
    let (desk, eyes) = Desk::<Speller, D, &R>::start(rt, alloc, opening, 3, blank)
        .ok()
        .context("no memory for a desk")?;
    write_and_print(rt, alloc, &desk, eyes, other)
}
