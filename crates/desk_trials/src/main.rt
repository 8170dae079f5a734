//! Programs over a desk: an example of two sessions, and what measures a desk and its workers.
//!
//! `desk_trials two-writers` lets two threads write a text at once, by the dictionaries american and
//! british that lie where it runs. `desk_trials AFF DIC TEXT WORKERS SESSIONS READERS SECONDS EVENTS`
//! opens a desk with the lines of a file as paragraphs. So many threads claim, check and finish them
//! until as many checks are finished as there are paragraphs, so many edit meanwhile, and so many look.
//! Each that edits or looks does so at most EVENTS times. All end after so many seconds; 0 is no bound.
//! How often each was done is printed, and how often in a second if there is a bound. Without words
//! each of the two is done over a small text, and what is printed is always the same.
#![tactic(auto)]

mod opening;
mod trial;
mod two_writers;

use std::env;

/// The words that it takes.
const USAGE: &str = "desk_trials two-writers, or desk_trials AFF DIC TEXT WORKERS SESSIONS READERS \
    SECONDS EVENTS";

fn main(rt: HostRuntime) -> anyhow::Result<()> {
    let alloc = rt.alloc();
    let words: Vec<String> = env::args(&rt)?.skip(1).collect(alloc)?;
    match words.as_slice() {
        [] => {
            two_writers::show(&rt, alloc)?;
            trial::measure(&rt, alloc, trial::EDITS)?;
            trial::measure(&rt, alloc, trial::CHECKS)
        }
        [word] if word.as_str() == "two-writers" => two_writers::show(&rt, alloc),
        _ => trial::measure_by(&rt, alloc, &words),
    }
}
