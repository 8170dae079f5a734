//! The text, its dictionary, and what each thread has.

use anyhow::Context;
use board_share::{Eye, Naming};
use mark_types::Judge;
use outside::{Files, load_file};
use std::alloc::Global;
use std::sync::atomic::{AtomicU32, AtomicU64};

/// How many bytes a file with a text has at most.
const MOST_BYTES: u64 = 16_777_216;

/// What is asked for.
#[derive(Clone, Copy)]
pub(crate) struct Work {
    pub(super) workers: u32,
    /// How many sessions edit meanwhile.
    pub(super) sessions: u32,
    /// How many eyes look meanwhile.
    pub(super) readers: u32,
    /// For how long at most, or 0 where only the work ends it.
    pub(super) seconds: u64,
    /// How often each session edits at most, and each reader looks.
    pub(super) events: u64,
}

/// What all threads share beside the desk.
#[derive(Drop)]
pub(super) struct Run {
    pub(super) work: Work,
    /// How many paragraphs the text has, and so how many checks are to be finished.
    pub(super) paragraphs: u64,
    pub(super) finished: AtomicU64,
    /// How many workers have not ended.
    pub(super) working: AtomicU32,
}

impl Run {
    pub(super) fn new(work: Work, paragraphs: u64) -> Run {
        Run {
            work,
            paragraphs,
            finished: AtomicU64::new(0),
            working: AtomicU32::new(work.workers),
        }
    }
}

/// What a thread did.
#[derive(Clone, Copy)]
pub(super) struct Tally {
    pub(super) claimed: u64,
    pub(super) finished: u64,
    /// Checks that were not wanted any more.
    pub(super) dropped: u64,
    pub(super) published: u64,
    pub(super) looked: u64,
    /// In how many nanoseconds it did all, and how many of them it was inside calls that take the
    /// lock.
    pub(super) nanos: u64,
    pub(super) inside: u64,
}

/// What a thread has: its eye, while no worker and no session has it, and what it did.
#[derive(Drop)]
pub(super) struct Seat<J: Judge + Drop, D: Naming> {
    pub(super) eyes: Vec<Eye<J, D>>,
    pub(super) tally: Tally,
    /// How many nanoseconds some of its looks took.
    pub(super) looks: Vec<u64>,
    pub(super) failed: bool,
}

/// The text of a file.
pub(super) fn text_of<F: Files>(
    alloc: Global,
    files: &mut F,
    name: &str,
) -> anyhow::Result<String> {
    let bytes = load_file(alloc, files, name, MOST_BYTES)
        .ok()
        .context("no text")?;
    String::from_utf8(bytes).ok().context("a text in UTF-8")
}
