//! A run in which an allocation fails.

use crate::tests::runner::{files_of, words_of};
use command_line::run;
use outside::{Failed, FreeGate, Sink};
use outside_doubles::{MemFiles, SureSource};
use std::alloc::{AllocError, Global};
use std::process::Abort;
use std::sync::Wait;
use std::thread::Threads;

const GIVEN: &str =
    "aff SET UTF-8|# words|WORDCHARS 0123456789|\ndic 2|hello|2nd|\ntext hello 2nd wrld";

const GIVEN_TO_WORKERS: &str =
    "aff SET UTF-8|# words|WORDCHARS 0123456789|\ndic 2|hello|2nd|\ntext hello 2nd wrld\nworkers 4";

/// A sink that needs no memory, and remembers only whether what was put is one of two texts. It
/// tells contracts nothing.
#[derive(Drop)]
struct Witness {
    puts: u64,
    was_output: bool,
    was_memory: bool,
}

impl Sink for Witness {
    ghost use Rattle.std.specs.Prelude.{None};

    ghost written = { λ _. None };

    ghost faults = { λ _. 0 };

    fn put(&mut self, bytes: &[u8]) -> Result<(), Failed> {
        self.puts = self.puts.saturating_add(1);
        self.was_output = bytes == b"1 10 14 wrld\n1 of 3\n".as_slice();
        self.was_memory = bytes == b"memory\n".as_slice();
        Ok(())
    }
}

/// What a run needs before it begins.
#[derive(Drop)]
struct Ready {
    words: Vec<String>,
    files: MemFiles,
}

fn make_ready(alloc: Global, given: &str) -> Result<Ready, AllocError> {
    let words = words_of(alloc, given)?;
    let files = files_of(alloc, given)?;
    Ok(Ready { words, files })
}

/// With an allocation that fails, as the kit can arrange for a run of the tests, the run says that
/// memory is wanting or prints all that is due. Where the objects of the test itself find no memory
/// there is no run.
fn assert_told<R: Threads + Wait + Sync + Abort>(rt: &R, alloc: Global, given: &str) {
    let Ok(mut ready) = make_ready(alloc, given) else {
        return;
    };
    let mut input = SureSource::new(Vec::new(alloc));
    let mut out = Witness {
        puts: 0,
        was_output: false,
        was_memory: false,
    };
    let ended = run(
        rt,
        alloc,
        ready.words.as_slice(),
        &mut ready.files,
        &mut input,
        &mut out,
        &FreeGate,
    );
    assert_eq!(rt; out.puts, 1);
    match ended.status {
        1 => assert!(rt; out.was_output),
        7 => assert!(rt; out.was_memory),
        status => assert!(rt; false, "status {status}"),
    }
}

#[test]
fn says_that_memory_is_wanting(rt: HostRuntime) {
    assert_told(&rt, rt.alloc(), GIVEN);
}

#[test]
fn says_that_a_worker_wants_memory(rt: HostRuntime) {
    assert_told(&rt, rt.alloc(), GIVEN_TO_WORKERS);
}
