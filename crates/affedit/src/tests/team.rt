//! Sessions that are there at once.

use crate::tests::runner::{files_of, words_of};
use command_line::run;
use outside::Gate;
use outside_doubles::{MemSink, SureSource};
use std::alloc::{AllocError, Global};
use std::process::Abort;
use std::sync::Wait;
use std::sync::atomic::{AtomicBool, AtomicU32, Ordering};
use std::test::Fail;
use std::thread::{self, Threads};

/// How often a session that waits for another one lets others go first.
const MOST_TURNS: u32 = 100_000_000;

const GIVEN: &str = "\
aff SET UTF-8|TRY esianrtolc|REP 2|REP f ph|REP ph f|PFX A Y 1|PFX A 0 re .|SFX B Y 2|SFX B 0 ed [^y]|SFX B y ied y
dic 3|hello|try/B|work/AB
file script 1 ins 1 hello|2 ins 1 wrold
words team a.aff a.dic script";

/// Holds each session until another one has come.
#[derive(Drop)]
struct Meeting {
    entered: AtomicU32,
    has_met: AtomicBool,
}

impl Gate for Meeting {
    fn pass(&self, _worker: u32, _id: u64) {}

    fn enter(&self, _session: u32) {
        self.entered.fetch_add(1, Ordering::SeqCst);
        for _ in 0..MOST_TURNS {
            if self.entered.load(Ordering::SeqCst) >= 2 {
                self.has_met.store(true, Ordering::SeqCst);
                return;
            }
            thread::yield_now();
        }
    }
}

/// Two sessions insert a paragraph each: one is told the first version of the text, and the other the
/// second. The first waits for the other before its first line, which sessions that ran one after
/// another could not outlast.
fn assert_met<R: Threads + Wait + Sync + Abort>(
    rt: &R,
    alloc: Global,
    given: &str,
) -> Result<(), AllocError> {
    let words = words_of(alloc, given)?;
    let mut files = files_of(alloc, given)?;
    let mut out = MemSink::new(alloc, Vec::new(alloc), 0);
    let gate = Meeting {
        entered: AtomicU32::new(0),
        has_met: AtomicBool::new(false),
    };
    let mut input = SureSource::new(Vec::new(alloc));
    let ended = run(rt, alloc, &words, &mut files, &mut input, &mut out, &gate);
    assert_eq!(rt; ended.status, 0);
    assert!(rt; gate.has_met.load(Ordering::SeqCst), "no two sessions met");
    let first = b"session 1\nok 1\nsession 2\nok 2\ntotal text 2 dict 0\n".as_slice();
    let second = b"session 1\nok 2\nsession 2\nok 1\ntotal text 2 dict 0\n".as_slice();
    let written = out.written();
    assert!(rt;
        written == first || written == second,
        "it wrote {written:?}"
    );
    Ok(())
}

/// Sessions meet, without workers and beside some.
#[test]
fn sessions_meet(rt: HostRuntime) -> Result<(), Fail> {
    let alloc = rt.alloc();
    assert_met(&rt, alloc, GIVEN)?;
    let given = format!(in alloc; "{GIVEN}\nworkers 4")?;
    assert_met(&rt, alloc, &given)?;
    Ok(())
}
