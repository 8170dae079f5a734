//! A gate that holds all workers until so much is written.

use outside::{Failed, Gate, Sink};
use outside_doubles::MemSink;
use std::sync::atomic::{AtomicU64, Ordering};
use std::thread;

/// How often a worker that is held lets others go first, before it goes on all the same.
const MOST_TURNS: u32 = 100_000_000;

/// Holds each worker until so many bytes are written.
#[derive(Drop)]
pub(super) struct HeldWorkers {
    wanted: u64,
    written: AtomicU64,
}

impl HeldWorkers {
    pub(super) fn until(wanted: u64) -> HeldWorkers {
        HeldWorkers {
            wanted,
            written: AtomicU64::new(0),
        }
    }
}

impl Gate for HeldWorkers {
    fn pass(&self, _worker: u32, _id: u64) {
        for _ in 0..MOST_TURNS {
            if self.written.load(Ordering::SeqCst) >= self.wanted {
                return;
            }
            thread::yield_now();
        }
    }

    fn enter(&self, _session: u32) {}
}

/// A sink that tells a gate how much is written. It tells contracts nothing.
#[derive(Drop)]
pub(super) struct CountedSink<'a> {
    pub(super) sink: MemSink,
    pub(super) held: &'a HeldWorkers,
}

impl Sink for CountedSink<'_> {
    ghost use Rattle.std.specs.Prelude.{None};

    ghost written = { λ _. None };

    ghost faults = { λ counted. ⟦<MemSink as Sink>⟧.faults counted.sink };

    fn put(&mut self, bytes: &[u8]) -> Result<(), Failed> {
        let done = self.sink.put(bytes);
        self.held
            .written
            .store(self.sink.written().len() as u64, Ordering::SeqCst);
        done
    }
}
