//! Two threads write a text at once, each with a session of its own over one desk. Then another
//! dictionary comes into force. Before and after it, the marks of the text are printed, with the
//! versions that they are of.

ghost use Rattle.board_share.specs.edit_core.Seen.{IsOpening};

mod marks;
mod writing;

use crate::opening::{opening_of, speller_of};
use board_share::Blank;
use board_share::edit_core::Board;
use outside::RealFiles;
use std::alloc::Global;
use std::marker::Brand;
use std::rt::Files;
use std::sync::{Arc, Wait};
use std::thread::Threads;
use word_verdict::Speller;
use writing::{OPENING, written};

/// How many eyes the desk has: one for each thread that writes, and one for the main thread.
const EYES: u32 = 3;

/// Writes over a desk of its own.
fn written_alone<R: Threads + Wait + Print + Sync>(
    rt: &R,
    alloc: Global,
    opening: Board<Speller>,
    other: &Arc<Speller>,
) -> anyhow::Result<()>
    requires { IsOpening opening }
{
    written::<Brand, _>(rt, alloc, opening, other, Blank::new(EYES))
}

/// Writes by the dictionaries that lie where it runs.
pub(crate) fn show<R: Threads + Wait + Print + Files + Sync>(
    rt: &R,
    alloc: Global,
) -> anyhow::Result<()> {
    let mut files = RealFiles::new(rt);
    let american = speller_of(alloc, &mut files, "american.aff", "american.dic")?;
    let opening = opening_of(alloc, american, OPENING)?;
    let british = speller_of(alloc, &mut files, "british.aff", "british.dic")?;
    written_alone(rt, alloc, opening, &british)
}
