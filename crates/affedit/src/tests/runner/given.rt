//! What a run meets: words, files, an input and a sink in memory, as the lines of a block say.

use super::files::{push_file, push_line};
use super::held::{CountedSink, HeldWorkers};
use command_line::run;
use outside_doubles::{MemFiles, MemSink, MemSource};
use std::alloc::{AllocError, Global};
use std::sync::Wait;
use std::thread::Threads;

/// The files of each run with an input.
const FOLDER: &str = "\
file a.aff SET UTF-8|TRY esianrtolc|REP 2|REP f ph|REP ph f|PFX A Y 1|PFX A 0 re .|SFX B Y 2|SFX B 0 ed [^y]|SFX B y ied y
file a.dic 3|hello|try/B|work/AB
file b.aff SET UTF-8
file b.dic 1|wrold
file c.aff SET ISO8859-1
file c.dic hello
file signs.aff WORDCHARS -.
file signs.dic 2|é-é|naïve";

/// What a run over objects in memory ended with.
#[derive(Drop)]
pub(crate) struct Seen {
    pub(crate) status: u8,
    /// How many edits and loads the history has that is told, if one is.
    pub(crate) closed: Option<(u64, u64)>,
    sink: MemSink,
}

impl Seen {
    pub(crate) fn written(&self) -> &[u8] {
        self.sink.written()
    }
}

/// The name of a line, and what stands behind it.
pub(super) fn parted(line: &str) -> (&str, &str) {
    line.split_once(' ').unwrap_or((line, ""))
}

/// What stands behind the name of the last line that has it.
pub(super) fn last<'a>(given: &'a str, name: &str) -> Option<&'a str> {
    for line in given.rsplit('\n') {
        let (first, rest) = parted(line);
        if first == name {
            return Some(rest);
        }
    }
    None
}

pub(super) fn has_input(given: &str) -> bool {
    last(given, ">").is_some()
}

/// Adds all lines with a name, each with an end.
pub(super) fn push_lines(given: &str, name: &str, bytes: &mut Vec<u8>) -> Result<(), AllocError> {
    for line in given.split('\n') {
        let (first, rest) = parted(line);
        if first == name {
            push_line(rest, bytes)?;
            bytes.push(b'\n')?;
        }
    }
    Ok(())
}

/// The input that the given lines say.
pub(crate) fn input_of(alloc: Global, given: &str) -> Result<Vec<u8>, AllocError> {
    let mut input = Vec::new(alloc);
    push_lines(given, ">", &mut input)?;
    Ok(input)
}

/// The numbers of the last line with a name.
pub(super) fn numbers(alloc: Global, given: &str, name: &str) -> Result<Vec<u64>, AllocError> {
    let mut numbers = Vec::new(alloc);
    for word in last(given, name).unwrap_or("").split(' ') {
        if let Ok(number) = word.parse::<u64>() {
            numbers.push(number)?;
        }
    }
    Ok(numbers)
}

pub(crate) fn words_of(alloc: Global, given: &str) -> Result<Vec<String>, AllocError> {
    let usual = if has_input(given) {
        "edit a.aff a.dic"
    } else {
        "check a.aff a.dic text"
    };
    let line = last(given, "words").unwrap_or(usual);
    let mut words = Vec::new(alloc);
    if let Some(workers) = last(given, "workers") {
        let (files, options) = line.split_once(" --own ").unwrap_or((line, ""));
        push_words(alloc, files, &mut words)?;
        words.push(String::from_str(alloc, "--workers")?)?;
        push_words(alloc, workers, &mut words)?;
        if !options.is_empty() {
            words.push(String::from_str(alloc, "--own")?)?;
        }
        push_words(alloc, options, &mut words)?;
    } else {
        push_words(alloc, line, &mut words)?;
    }
    Ok(words)
}

/// Adds the words of a line, with a space between each two.
fn push_words(alloc: Global, line: &str, words: &mut Vec<String>) -> Result<(), AllocError> {
    if !line.is_empty() {
        for word in line.split(' ') {
            words.push(String::from_str(alloc, word)?)?;
        }
    }
    Ok(())
}

/// The name and the lines of a file, where a line says them.
fn file_in(line: &str) -> Option<(&str, &str)> {
    let (name, rest) = parted(line);
    match name {
        "aff" => Some(("a.aff", rest)),
        "dic" => Some(("a.dic", rest)),
        "text" => Some(("text", rest)),
        "file" => Some(parted(rest)),
        _ => None,
    }
}

fn file_of(alloc: Global, name: &str, lines: &str) -> Result<(String, Vec<u8>), AllocError> {
    let name = String::from_str(alloc, name)?;
    let mut file = Vec::new(alloc);
    push_file(lines, &mut file)?;
    Ok((name, file))
}

/// Adds the files that lines say, the last one first: of two with one name that one counts.
fn push_files(
    alloc: Global,
    given: &str,
    folder: &mut Vec<(String, Vec<u8>)>,
) -> Result<(), AllocError> {
    for line in given.rsplit('\n') {
        if let Some((name, lines)) = file_in(line) {
            folder.push(file_of(alloc, name, lines)?)?;
        }
    }
    Ok(())
}

/// The files that are there beside those that the given lines say.
fn others(given: &str) -> &'static str {
    if has_input(given) {
        FOLDER
    } else if last(given, "words").is_some() {
        ""
    } else {
        "aff\ndic\ntext"
    }
}

pub(crate) fn files_of(alloc: Global, given: &str) -> Result<MemFiles, AllocError> {
    let mut folder = Vec::new(alloc);
    push_files(alloc, given, &mut folder)?;
    push_files(alloc, others(given), &mut folder)?;
    let loads = numbers(alloc, given, "loads")?;
    Ok(MemFiles::new(folder, loads))
}

fn source_of(
    alloc: Global,
    given: &str,
    input: &[u8],
    piece: usize,
) -> Result<MemSource, AllocError> {
    let reads = numbers(alloc, given, "reads")?;
    let bytes = Vec::from_slice(alloc, input)?;
    Ok(MemSource::new(bytes, piece.max(1), reads))
}

fn sink_of(alloc: Global, given: &str) -> Result<MemSink, AllocError> {
    let (put, taken) = parted(last(given, "puts").unwrap_or(""));
    let mut puts = Vec::new(alloc);
    if let Ok(put) = put.parse::<u64>() {
        puts.push(put)?;
    }
    Ok(MemSink::new(alloc, puts, taken.parse().unwrap_or(0)))
}

/// The gate of a run: where the given lines say so, it holds all workers until all lines with `<` are
/// written.
fn held_by(alloc: Global, given: &str) -> Result<HeldWorkers, AllocError> {
    let mut replies = Vec::new(alloc);
    if last(given, "held").is_some() {
        push_lines(given, "<", &mut replies)?;
    }
    Ok(HeldWorkers::until(replies.len() as u64))
}

/// Runs the program over what the given lines say, with an input in pieces of so many bytes.
pub(crate) fn seen_of<R: Threads + Wait + Sync>(
    rt: &R,
    alloc: Global,
    given: &str,
    input: &[u8],
    piece: usize,
) -> Result<Seen, AllocError> {
    let words = words_of(alloc, given)?;
    let mut files = files_of(alloc, given)?;
    let mut source = source_of(alloc, given, input, piece)?;
    let held = held_by(alloc, given)?;
    let mut out = CountedSink {
        sink: sink_of(alloc, given)?,
        held: &held,
    };
    let ended = run(rt, alloc, &words, &mut files, &mut source, &mut out, &held);
    let CountedSink { sink, .. } = out;
    Ok(Seen {
        status: ended.status,
        closed: match ended.closed {
            Some(closed) => Some((closed.edits(), closed.loads())),
            None => None,
        },
        sink,
    })
}
