//! The runner of rows: text that says what a run of the program meets, and how it ends.
//!
//! Rows are blocks of lines, with blank lines between them. A line begins with its name and a
//! space. A line that runs the program takes all that the block says above it; of two lines with
//! one name the later one counts.
//!
//! | line | what it says |
//! |---|---|
//! | `# ..` | a remark |
//! | `aff ..`, `dic ..`, `text ..` | the bytes of the files `a.aff`, `a.dic` and `text` |
//! | `file NAME ..` | the bytes of a file with that name |
//! | `words ..` | the words of the command line |
//! | `workers 4` | so many workers, behind the files of the words |
//! | `held` | each worker is held until all lines with `<` are written |
//! | `closed 3 1` | the history that is told has so many edits and loads |
//! | `> ..` | a line of the input |
//! | `< ..` | a line that is written |
//! | `STATUS ..` | runs the program: a status, and what is written behind the lines with `<` |
//! | `fault PRINTED: ..` | runs `check` with that file in place of its own: the status is 3, and PRINTED is written, as `aff 2 Twice` |
//! | `loads 1 3` | the loads that fail, counted from 1 |
//! | `reads 1 3` | the reads of the input that fail |
//! | `puts 1 7` | the put that fails, and how many bytes it takes |
//! | `piece 5` | how many bytes a read brings |
//!
//! Without `words` a block with an input runs `edit a.aff a.dic`, and has the files of `FOLDER`
//! beside its own. A block without an input runs `check a.aff a.dic text`, where a file that the
//! block does not name is empty. With `words` a file that is not named is missing. Such a check, and
//! `team a.aff a.dic script`, is run again by each number of workers of `WORKERS`, and ends in the
//! same way.
//!
//! A dialogue that is to end with the status 0, and with nothing behind its last reply, needs no
//! line that runs it. Each run with an input is tried in pieces of one byte, of seven, and in one,
//! unless `piece` says how long they are, and without its last line feed as well. A dialogue whose
//! puts do not fail is run again by each number of workers: first they are held until all is written,
//! and then they are free, so that marks may stand where it is wanted that a paragraph is not checked.
//!
//! Of a file bars part the lines: the last one has an end where a bar stands behind it. `3*LINE` is
//! a line three times. `@9 TEXT@` is a text nine times, and `@xc0af@` are the bytes of these
//! digits. The same stands behind a status, where the last line has an end, unless a line `puts` is
//! there; behind `> ` and `< ` bars and stars are themselves.
//!
//! Nothing is passed over in silence: a line with no such name fails, and so does one that no run
//! takes in.

mod dialogues;
mod files;
mod given;
mod held;

use dialogues::{assert_closed, assert_dialogue, assert_dialogues};
use files::push_file;
pub(crate) use given::{files_of, input_of, seen_of, words_of};
use given::{has_input, last, parted, push_lines};
use std::alloc::{AllocError, Global};
use std::process::Abort;
use std::sync::Wait;
use std::thread::Threads;

/// The names of lines that say what a run meets, and what it is to write.
const NAMES: &str = "aff dic text file words workers closed > < loads reads puts piece";

/// The numbers of workers by which each check is run again.
const WORKERS: [u32; 4] = [0, 1, 4, 16];

/// What was done with a line of a block.
#[derive(Clone, Copy)]
enum Taken {
    /// It says nothing.
    Nothing,
    /// A run has to take it in.
    Waits,
    /// It ran the program.
    Ran,
}

/// Runs all rows, of which there is one at least.
pub(crate) fn run_rows<R: Threads + Wait + Sync + Abort>(
    rt: &R,
    alloc: Global,
    rows: &str,
) -> Result<(), AllocError> {
    let mut runs = 0usize;
    for block in rows.split("\n\n") {
        runs = runs.saturating_add(run_block(rt, alloc, block)?);
    }
    assert!(rt; runs > 0, "no row runs: {rows}");
    Ok(())
}

/// Runs a block, and counts its runs. Each of its lines is taken in by one of them.
fn run_block<R: Threads + Wait + Sync + Abort>(
    rt: &R,
    alloc: Global,
    block: &str,
) -> Result<usize, AllocError> {
    let mut runs = 0usize;
    let mut end = 0usize;
    let mut waits = false;
    for line in block.split('\n') {
        let given = block.get(..end).unwrap_or("");
        match take_line(rt, alloc, given, line)? {
            Taken::Nothing => {},
            Taken::Waits => waits = true,
            Taken::Ran => {
                waits = false;
                runs = runs.saturating_add(1);
            },
        }
        end = end.saturating_add(line.len()).saturating_add(1);
    }
    if waits {
        assert!(rt;
            has_input(block),
            "no run takes in the last lines of\n{block}"
        );
        run_line(rt, alloc, block, "0")?;
        runs = runs.saturating_add(1);
    }
    Ok(runs)
}

/// Takes a line of a block in, above which the given lines stand.
fn take_line<R: Threads + Wait + Sync + Abort>(
    rt: &R,
    alloc: Global,
    given: &str,
    line: &str,
) -> Result<Taken, AllocError> {
    let (name, rest) = parted(line);
    if name.is_empty() || name == "#" {
        return Ok(Taken::Nothing);
    }
    if NAMES.split(' ').any(|other| other == name) {
        return Ok(Taken::Waits);
    }
    if name == "fault" {
        run_fault(rt, alloc, given, rest)?;
    } else {
        run_line(rt, alloc, given, line)?;
    }
    Ok(Taken::Ran)
}

/// Runs `check` with a file that is refused, in place of the one that the given lines name.
fn run_fault<R: Threads + Wait + Sync + Abort>(
    rt: &R,
    alloc: Global,
    given: &str,
    fault: &str,
) -> Result<(), AllocError> {
    let (printed, file) = fault.split_once(':').unwrap_or((fault, ""));
    let (name, _) = parted(printed);
    let given = format!(in alloc; "{given}\n{name}{file}")?;
    let ending = format!(in alloc; "3 {printed}")?;
    run_line(rt, alloc, &given, &ending)
}

/// Runs the program over what the given lines say, in each way that its input may come, as a line
/// with a status says.
fn run_line<R: Threads + Wait + Sync + Abort>(
    rt: &R,
    alloc: Global,
    given: &str,
    line: &str,
) -> Result<(), AllocError> {
    if !has_input(given) {
        return assert_checked(rt, alloc, given, line);
    }
    let input = input_of(alloc, given)?;
    match last(given, "piece").unwrap_or("").parse::<usize>() {
        Ok(piece) => assert_dialogue(rt, alloc, given, line, &input, piece),
        Err(_) => assert_dialogues(rt, alloc, given, line, &input),
    }
}

/// Whether a run without an input can have workers, and the given lines do not say how many: a check of
/// the usual files, or sessions at once.
fn takes_workers(given: &str) -> bool {
    match last(given, "words") {
        Some("team a.aff a.dic script") => last(given, "workers").is_none(),
        Some(_) => false,
        None => true,
    }
}

/// Runs the program without an input, and where it can have workers by each number of them too.
fn assert_checked<R: Threads + Wait + Sync + Abort>(
    rt: &R,
    alloc: Global,
    given: &str,
    line: &str,
) -> Result<(), AllocError> {
    assert_ended(rt, alloc, given, line, &[], 1)?;
    if !takes_workers(given) {
        return Ok(());
    }
    for workers in WORKERS {
        let shared = format!(in alloc; "{given}\nworkers {workers}")?;
        assert_ended(rt, alloc, &shared, line, &[], 1)?;
    }
    Ok(())
}

/// Runs the program, which ends as a line says.
fn assert_ended<R: Threads + Wait + Sync + Abort>(
    rt: &R,
    alloc: Global,
    given: &str,
    line: &str,
    input: &[u8],
    piece: usize,
) -> Result<(), AllocError> {
    let (status, lines) = parted(line);
    let Ok(status) = status.parse::<u8>() else {
        assert!(rt; false, "no such line in a block: {line}");
        return Ok(());
    };
    let wanted = wanted_of(alloc, given, lines)?;
    let seen = seen_of(rt, alloc, given, input, piece)?;
    let written = seen.written();
    assert!(rt;
        written == wanted.as_slice(),
        "{given}\n{line}\nbut it wrote {written:?}"
    );
    assert_eq!(rt; seen.status, status, "{given}\n{line}");
    assert_closed(rt, alloc, given, status, seen.closed)
}

/// All that is to be written: the replies that the given lines say, and the lines behind them.
fn wanted_of(alloc: Global, given: &str, lines: &str) -> Result<Vec<u8>, AllocError> {
    let mut wanted = Vec::new(alloc);
    push_lines(given, "<", &mut wanted)?;
    push_file(lines, &mut wanted)?;
    if !lines.is_empty() && last(given, "puts").is_none() {
        wanted.push(b'\n')?;
    }
    Ok(wanted)
}
