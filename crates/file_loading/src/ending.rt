//! How a call ends, and the writing of it.

ghost use Rattle.std.specs.Prelude.{◌≡◌, ◌==◌, ◌<◌, ◌≤◌, false};
ghost use Rattle.file_loading.specs.Ends.{IsEndPut, IsPut, ends_without_marks, status_at, tail_of};

use crate::failure::Failure;
use outside::Sink;
use std::alloc::{AllocError, Global};

/// The exit status where the sink failed.
pub const SINK_FAILED: u8 = 6;

/// How a run of the program ended.
#[derive(Drop)]
pub struct Ended<H> {
    /// The exit status.
    pub status: u8,
    /// The history of the desk that the words opened. There is one exactly where they open one and the
    /// status is 0.
    pub closed: Option<H>,
}

/// How a call ends.
#[derive(Clone, Copy, Debug, PartialEq, Eq)]
pub enum End {
    /// All was done, and nothing is marked.
    Quiet,
    /// All was done, and something is marked.
    Marked,
    /// It failed, which its last line tells.
    Failed(Failure),
}

impl End {
    /// The exit status.
    pub fn status(self) -> u8
        ensures { result ≡ status_at self }
    {
        match self {
            End::Quiet => 0,
            End::Marked => 1,
            End::Failed(failure) => failure.status(),
        }
    }
}

/// Writes the last line of a call, if it has one, and gives the exit status; or those of want of
/// memory, if there is none for the line.
pub fn put_end<K: Sink>(alloc: Global, out: &mut K, end: End) -> u8
    ensures puts { IsEndPut end (K.faults out.old < K.faults out.new) (K.written out.old)
        (K.written out.new) result }
    ensures zero { (result == 0) ≡ ends_without_marks end }
    ensures count { K.faults out.old ≤ K.faults out.new }
{
    match end {
        End::Failed(failure) => put_line(alloc, out, failure),
        _ => end.status(),
    }
}

/// Writes the last line of a call that failed.
pub fn put_line<K: Sink>(alloc: Global, out: &mut K, failure: Failure) -> u8
    ensures puts { IsEndPut (End.Failed failure) (K.faults out.old < K.faults out.new)
        (K.written out.old) (K.written out.new) result }
    ensures zero { (result == 0) ≡ false }
    ensures count { K.faults out.old ≤ K.faults out.new }
{
    let mut line = String::new(alloc);
    match failure.push_line(&mut line) {
        Ok(()) => put(out, line.as_bytes(), failure.status()),
        Err(AllocError) => put_wanting(out),
    }
}

/// Writes that memory is wanting, also for a call that could not begin, and gives the exit status.
#[tactic(auto, unfolding(crate::specs::Failures::last_line))]
pub fn put_wanting<K: Sink>(out: &mut K) -> u8
    ensures puts { IsPut (status_at (End.Failed Failure.NoMemory))
        (tail_of (End.Failed Failure.NoMemory)) (K.faults out.old < K.faults out.new)
        (K.written out.old) (K.written out.new) result }
    ensures count { K.faults out.old ≤ K.faults out.new }
{
    put(out, b"memory\n", Failure::NoMemory.status())
}

/// Writes a text, and gives the status or that of a sink that failed.
pub fn put<K: Sink>(out: &mut K, text: &[u8], status: u8) -> u8
    ensures puts { IsPut status text.now (K.faults out.old < K.faults out.new) (K.written out.old)
        (K.written out.new) result }
    ensures count { K.faults out.old ≤ K.faults out.new }
{
    match out.put(text) {
        Ok(()) => status,
        Err(_) => SINK_FAILED,
    }
}
