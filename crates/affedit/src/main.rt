//! Affedit checks the spelling of a text by a Hunspell dictionary, and prints where its words are
//! unknown.
#![tactic(auto)]

#[cfg(test)]
mod tests;

use command_line::{put_wanting, run};
use outside::{FreeGate, RealFiles, StdSink, StdSource};
use std::env::{self, Env};
use std::io::{self, ErrorKind};
use std::process::ExitCode;

/// The arguments without the program's name; none where one of them is not UTF-8, so that they are
/// of no form.
fn words_of<R: Env + AllocGlobal>(rt: &R) -> io::Result<Vec<String>> {
    match arguments(rt) {
        Err(error) if !is_wanting(&error) => Ok(Vec::new(rt.alloc())),
        words => words,
    }
}

fn arguments<R: Env + AllocGlobal>(rt: &R) -> io::Result<Vec<String>> {
    let words: Vec<String> = env::args(rt)?.skip(1).collect(rt.alloc())?;
    Ok(words)
}

/// Whether memory is wanting.
fn is_wanting(error: &io::Error) -> bool {
    matches!(error.kind(), ErrorKind::OutOfMemory)
}

fn main(rt: HostRuntime) -> ExitCode {
    let alloc = rt.alloc();
    let mut out = StdSink::new(&rt);
    let status = match words_of(&rt) {
        Ok(words) => {
            let mut files = RealFiles::new(&rt);
            let mut input = StdSource::new(&rt);
            run(
                &rt, alloc, &words, &mut files, &mut input, &mut out, &FreeGate,
            )
            .status
        }
        Err(_) => put_wanting(&mut out),
    };
    ExitCode::from(status)
}
