//! Workers over a desk, sessions that edit, and eyes that look, each on a thread of its own.

ghost use Rattle.std.specs.Prelude.{◌<◌, ◌≤◌, IfOk, IfSome};
ghost use Rattle.board_share.specs.edit_core.Seen.{IsOpening};

mod measuring;
mod rates;
mod seats;
mod turns;

use crate::USAGE;
use crate::opening::{opening_of, speller_of};
use anyhow::Context;
use board_share::Blank;
use board_share::edit_core::Board;
use mark_types::Judge;
use measuring::measured;
use outside::RealFiles;
use outside::lists::NoMemory;
use rates::{Rates, print};
use seats::{Run, Work, text_of};
use std::alloc::{AllocError, Global};
use std::marker::Brand;
use std::rt::Files;
use std::sync::Wait;
use std::thread::Threads;
use std::time::Clock;
use word_verdict::Speller;

/// How many eyes a desk has at most.
const MOST_EYES: u32 = 64;

/// The files of the words, and what these ask for.
#[derive(Clone, Copy)]
pub(crate) struct Asked<'a> {
    aff: &'a str,
    dic: &'a str,
    text: &'a str,
    work: Work,
}

/// What is measured without words: first edits and looks, then checks.
pub(crate) const EDITS: Asked<'static> = Asked {
    aff: "small.aff",
    dic: "small.dic",
    text: "small.txt",
    work: Work {
        workers: 0,
        sessions: 2,
        readers: 1,
        seconds: 0,
        events: 100,
    },
};

pub(crate) const CHECKS: Asked<'static> = Asked {
    work: Work {
        workers: 2,
        sessions: 0,
        readers: 0,
        seconds: 0,
        events: 0,
    },
    ..EDITS
};

/// What the words ask for.
fn asked_of<'a>(words: &'a [String]) -> Option<Asked<'a>> {
    let [aff, dic, text, workers, sessions, readers, seconds, events] = words else {
        return None;
    };
    Some(Asked {
        aff: aff.as_str(),
        dic: dic.as_str(),
        text: text.as_str(),
        work: Work {
            workers: workers.parse::<u32>().ok()?,
            sessions: sessions.parse::<u32>().ok()?,
            readers: readers.parse::<u32>().ok()?,
            seconds: seconds.parse::<u64>().ok()?,
            events: events.parse::<u64>().ok()?,
        },
    })
}

/// How many threads are asked for, if a desk has eyes for them.
fn eyes_of(work: Work) -> Option<u32>
    ensures { IfSome result (λ eyes. (0 < eyes) × (eyes ≤ 64)) }
{
    let others = work.sessions.checked_add(work.readers)?;
    let eyes = work.workers.checked_add(others)?;
    (0 < eyes && eyes <= MOST_EYES).then_some(eyes)
}

/// The board that opens with the text, by the dictionary.
fn opened<R: Files>(rt: &R, alloc: Global, asked: Asked<'_>) -> anyhow::Result<Board<Speller>>
    ensures { IfOk result IsOpening }
{
    let mut files = RealFiles::new(rt);
    let judge = speller_of(alloc, &mut files, asked.aff, asked.dic)?;
    let text = text_of(alloc, &mut files, asked.text)?;
    opening_of(alloc, judge, &text)
}

/// Does the work over a desk of its own.
fn measured_alone<J: Judge + Drop + Send + Sync, R: Threads + Wait + Clock + Sync>(
    rt: &R,
    alloc: Global,
    opening: Board<J>,
    work: Work,
    eyes: u32,
) -> Result<Rates, NoMemory>
    requires eyes { (0 < eyes) × (eyes ≤ 64) }
    requires opens { IsOpening opening }
{
    let run = Run::new(work, opening.versions().paragraphs);
    measured::<_, Brand, _>(rt, alloc, opening, &run, eyes, Blank::new(eyes))
}

/// Does the work, and prints how fast it was done.
pub(crate) fn measure<R: Threads + Wait + Clock + Print + Files + Sync>(
    rt: &R,
    alloc: Global,
    asked: Asked<'_>,
) -> anyhow::Result<()> {
    let eyes = eyes_of(asked.work).context("from 1 to 64 threads")?;
    let opening = opened(rt, alloc, asked)?;
    let rates = measured_alone(rt, alloc, opening, asked.work, eyes).map_err(|_| AllocError)?;
    print(rt, asked.work, &rates)?;
    Ok(())
}

/// The same for the work that eight words ask for.
pub(crate) fn measure_by<R: Threads + Wait + Clock + Print + Files + Sync>(
    rt: &R,
    alloc: Global,
    words: &[String],
) -> anyhow::Result<()> {
    measure(rt, alloc, asked_of(words).context(USAGE)?)
}
