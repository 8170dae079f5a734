//! Workers that check at once, beside a console and beside sessions.

use crate::tests::runner::{files_of, words_of};
use command_line::run;
use outside::{Failed, Gate, Source};
use outside_doubles::{MemSink, MemSource, SureSource};
use std::alloc::{AllocError, Global};
use std::process::Abort;
use std::sync::Wait;
use std::sync::atomic::{AtomicBool, AtomicU32, Ordering};
use std::test::Fail;
use std::thread::{self, Threads};

/// How often one that waits lets others go first.
const MOST_TURNS: u32 = 100_000_000;

const EDITED: &str = "\
aff SET UTF-8
dic 1|hello
words edit a.aff a.dic
workers 2";

const ALONE: &str = "\
aff SET UTF-8
dic 1|hello
words edit a.aff a.dic
workers 0";

const LINES: &[u8] = b"ins 1 hello\nins 2 wrold\nsettle\nshow\nquit\n";

/// What these lines are replied to.
const CHECKED: &[u8] = b"ok 1\nok 2\nok 2\ntext 2 dict 0\n2 0 5 wrold\n.\n";

/// How often one lets others go first before which no worker should come.
const FEW_TURNS: u32 = 10_000;

/// How many bytes a read brings: the first two lines, before which nothing is waited for.
const PIECE: usize = 24;

const SCRIPT: &str = "\
aff SET UTF-8
dic 1|hello
file script 1 ins 1 hello|1 ins 2 wrold|2 show
words team a.aff a.dic script
workers 2";

/// Holds the first worker until a second one has come. Session 2 is held until two workers have, and
/// session 1 until session 2 has come, and then for a while in which no worker should come.
#[derive(Drop)]
struct Turnstile {
    workers: AtomicU32,
    has_second: AtomicBool,
    /// Whether one went on though what it waited for had not come.
    is_late: AtomicBool,
    /// Whether a worker came where none should.
    is_early: AtomicBool,
}

impl Turnstile {
    fn new() -> Turnstile {
        Turnstile {
            workers: AtomicU32::new(0),
            has_second: AtomicBool::new(false),
            is_late: AtomicBool::new(false),
            is_early: AtomicBool::new(false),
        }
    }

    /// Waits for two workers.
    fn wait_for_workers(&self) {
        for _ in 0..MOST_TURNS {
            if self.workers.load(Ordering::SeqCst) >= 2 {
                return;
            }
            thread::yield_now();
        }
        self.is_late.store(true, Ordering::SeqCst);
    }

    /// Waits for session 2.
    fn wait_for_second(&self) {
        for _ in 0..MOST_TURNS {
            if self.has_second.load(Ordering::SeqCst) {
                return;
            }
            thread::yield_now();
        }
        self.is_late.store(true, Ordering::SeqCst);
    }

    /// Gives workers the time to come, and notes whether one has.
    fn watch_for_workers(&self) {
        for _ in 0..FEW_TURNS {
            if self.workers.load(Ordering::SeqCst) > 0 {
                self.is_early.store(true, Ordering::SeqCst);
                return;
            }
            thread::yield_now();
        }
    }
}

impl Gate for Turnstile {
    fn pass(&self, _worker: u32, _id: u64) {
        self.workers.fetch_add(1, Ordering::SeqCst);
        self.wait_for_workers();
    }

    fn enter(&self, session: u32) {
        if session == 2 {
            self.has_second.store(true, Ordering::SeqCst);
            self.wait_for_workers();
        } else {
            self.wait_for_second();
            self.watch_for_workers();
        }
    }
}

/// A source of which each read but the first waits for two workers, or for a while in which none
/// should come.
#[derive(Drop)]
struct LateSource<'a> {
    source: MemSource,
    turnstile: &'a Turnstile,
    has_workers: bool,
    has_begun: bool,
}

impl Source for LateSource<'_> {
    ghost left = { λ late. ⟦<MemSource as Source>⟧.left late.source };

    ghost faults = { λ late. ⟦<MemSource as Source>⟧.faults late.source };

    fn read(&mut self, into: &mut [u8]) -> Result<usize, Failed> {
        match (self.has_begun, self.has_workers) {
            (false, _) => self.has_begun = true,
            (true, true) => self.turnstile.wait_for_workers(),
            (true, false) => self.turnstile.watch_for_workers(),
        }
        self.source.read(into)
    }
}

/// What is written of a run beside two workers, each of which holds a paragraph before the next lines
/// are read, or beside none.
fn edited<R: Threads + Wait + Sync>(
    rt: &R,
    alloc: Global,
    has_workers: bool,
    turnstile: &Turnstile,
) -> Result<MemSink, AllocError> {
    let case = if has_workers { EDITED } else { ALONE };
    let words = words_of(alloc, case)?;
    let mut files = files_of(alloc, case)?;
    let mut bytes = Vec::new(alloc);
    bytes.extend_from_slice(LINES)?;
    let mut input = LateSource {
        source: MemSource::new(bytes, PIECE, Vec::new(alloc)),
        turnstile,
        has_workers,
        has_begun: false,
    };
    let mut out = MemSink::new(alloc, Vec::new(alloc), 0);
    run(
        rt, alloc, &words, &mut files, &mut input, &mut out, turnstile,
    );
    Ok(out)
}

/// What is written of two sessions beside two workers.
fn scripted<R: Threads + Wait + Sync>(
    rt: &R,
    alloc: Global,
    turnstile: &Turnstile,
) -> Result<MemSink, AllocError> {
    let words = words_of(alloc, SCRIPT)?;
    let mut files = files_of(alloc, SCRIPT)?;
    let mut input = SureSource::new(Vec::new(alloc));
    let mut out = MemSink::new(alloc, Vec::new(alloc), 0);
    run(
        rt, alloc, &words, &mut files, &mut input, &mut out, turnstile,
    );
    Ok(out)
}

/// Two workers hold a paragraph each while the console waits for its next lines. Workers that did
/// their work one after another would be late.
#[test]
fn workers_check_at_once(rt: HostRuntime) -> Result<(), Fail> {
    let turnstile = Turnstile::new();
    let out = edited(&rt, rt.alloc(), true, &turnstile)?;
    assert!(rt;
        !turnstile.is_late.load(Ordering::SeqCst),
        "no two workers came"
    );
    assert!(rt; out.written() == CHECKED, "it wrote {:?}", out.written());
    Ok(())
}

/// Without workers the console's own `settle` checks all paragraphs, and no worker comes meanwhile.
#[test]
fn no_worker_checks_beside_a_console_alone(rt: HostRuntime) -> Result<(), Fail> {
    let turnstile = Turnstile::new();
    let out = edited(&rt, rt.alloc(), false, &turnstile)?;
    assert!(rt; !turnstile.is_early.load(Ordering::SeqCst), "a worker came");
    assert!(rt; out.written() == CHECKED, "it wrote {:?}", out.written());
    Ok(())
}

/// A session passes the gate by its number before its first line, so that no worker comes while session
/// 1, which inserts the paragraphs, is held there. Workers check beside sessions: session 2 looks once
/// two workers hold these paragraphs.
#[test]
fn workers_check_beside_sessions(rt: HostRuntime) -> Result<(), Fail> {
    let turnstile = Turnstile::new();
    let out = scripted(&rt, rt.alloc(), &turnstile)?;
    assert!(rt;
        !turnstile.is_late.load(Ordering::SeqCst),
        "one has not come"
    );
    assert!(rt;
        !turnstile.is_early.load(Ordering::SeqCst),
        "a worker came before session 1 had begun"
    );
    let wanted = b"session 1\nok 1\nok 2\nsession 2\ntext 2 dict 0\n".as_slice();
    assert!(rt;
        out.written().starts_with(wanted),
        "it wrote {:?}",
        out.written()
    );
    Ok(())
}
