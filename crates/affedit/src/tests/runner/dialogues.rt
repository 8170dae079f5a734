//! Dialogues, in each way that their input may come, and by each number of workers.

use super::given::{has_input, last, numbers, parted, seen_of};
use super::{WORKERS, assert_ended, wanted_of};
use std::alloc::{AllocError, Global};
use std::process::Abort;
use std::sync::Wait;
use std::thread::Threads;

/// How many bytes the input of a dialogue has at most that is run again by each number of workers.
const MOST_SHARED: usize = 65_536;

/// Runs the program over an input in pieces of each length, and by each number of workers.
pub(super) fn assert_dialogues<R: Threads + Wait + Sync + Abort>(
    rt: &R,
    alloc: Global,
    given: &str,
    line: &str,
    input: &[u8],
) -> Result<(), AllocError> {
    for piece in [1, 7, usize::MAX] {
        assert_dialogue(rt, alloc, given, line, input, piece)?;
    }
    if is_edit(given) && last(given, "puts").is_none() && input.len() <= MOST_SHARED {
        assert_beside_workers(rt, alloc, given, line, input)?;
    }
    Ok(())
}

/// Runs the program by each number of workers, which are held until all is written, and then free.
fn assert_beside_workers<R: Threads + Wait + Sync + Abort>(
    rt: &R,
    alloc: Global,
    given: &str,
    line: &str,
    input: &[u8],
) -> Result<(), AllocError> {
    for workers in WORKERS {
        let held = format!(in alloc; "{given}\nworkers {workers}\nheld")?;
        assert_ended(rt, alloc, &held, line, input, usize::MAX)?;
        if !has_stop(given) {
            let free = format!(in alloc; "{given}\nworkers {workers}")?;
            assert_free(rt, alloc, &free, line, input)?;
        }
    }
    Ok(())
}

/// Whether the words of a block are those of `edit`.
fn is_edit(given: &str) -> bool {
    match last(given, "words") {
        Some(words) => words.starts_with("edit "),
        None => has_input(given),
    }
}

/// Whether a paragraph is stopped or asked for. What is replied depends on whether it is checked.
fn has_stop(given: &str) -> bool {
    given.split('\n').any(|line| line.starts_with("> stop ") || line.starts_with("> ask "))
}

/// Runs the program over an input, and over what is left without its last line feed.
pub(super) fn assert_dialogue<R: Threads + Wait + Sync + Abort>(
    rt: &R,
    alloc: Global,
    given: &str,
    line: &str,
    input: &[u8],
    piece: usize,
) -> Result<(), AllocError> {
    let cut = input.strip_suffix(b"\n").unwrap_or(input);
    assert_ended(rt, alloc, given, line, input, piece)?;
    assert_ended(rt, alloc, given, line, cut, piece)
}

/// Runs the program beside workers that nobody holds: where it is wanted that a paragraph is not
/// checked, its marks may stand.
fn assert_free<R: Threads + Wait + Sync + Abort>(
    rt: &R,
    alloc: Global,
    given: &str,
    line: &str,
    input: &[u8],
) -> Result<(), AllocError> {
    let (status, lines) = parted(line);
    let wanted = wanted_of(alloc, given, lines)?;
    let seen = seen_of(rt, alloc, given, input, usize::MAX)?;
    let written = seen.written();
    assert!(rt;
        is_shown(&wanted, written),
        "{given}\n{line}\nbut it wrote {written:?}"
    );
    assert!(rt;
        status.parse::<u8>().ok() == Some(seen.status),
        "{given}\n{line}"
    );
    Ok(())
}

/// Whether these lines are written, but for marks that may stand where a paragraph is wanted that is
/// not checked.
fn is_shown(wanted: &[u8], written: &[u8]) -> bool {
    let mut rest = written;
    for line in wanted.split_inclusive(|byte| *byte == b'\n') {
        if let Some(behind) = rest.strip_prefix(line) {
            rest = behind;
        } else if let Some(place) = line.strip_suffix(b"?\n") {
            rest = behind_marks(rest, place);
        } else {
            return false;
        }
    }
    rest.is_empty()
}

/// What stands behind the marks of a paragraph, which begin with its place.
fn behind_marks<'a>(written: &'a [u8], place: &[u8]) -> &'a [u8] {
    let mut rest = written;
    for line in written.split_inclusive(|byte| *byte == b'\n') {
        if !line.starts_with(place) {
            break;
        }
        rest = rest.strip_prefix(line).unwrap_or(rest);
    }
    rest
}

/// The history of a desk is told exactly where the words open one and the status is 0, with the edits
/// and loads that a line says.
pub(super) fn assert_closed<R: Abort>(
    rt: &R,
    alloc: Global,
    given: &str,
    status: u8,
    closed: Option<(u64, u64)>,
) -> Result<(), AllocError> {
    let opens = match last(given, "words") {
        Some(words) => words.starts_with("edit ") || words.starts_with("team "),
        None => has_input(given),
    };
    assert!(rt;
        closed.is_some() == (opens && status == 0),
        "{given}\nstatus {status}"
    );
    let wanted = numbers(alloc, given, "closed")?;
    if let [edits, loads] = wanted.as_slice() {
        assert!(rt;
            closed == Some((*edits, *loads)),
            "{given}\nbut its history has {closed:?}"
        );
    }
    Ok(())
}
