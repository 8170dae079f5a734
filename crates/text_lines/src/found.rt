//! What was found of the lines of a file.

use lists::{Copied, Items, NoMemory};
use std::alloc::Global;

/// A line by its places in the bytes of its file: its text stands from `from` up to `to`.
#[derive(Clone, Copy, Debug, PartialEq, Eq)]
pub struct Line {
    /// The line's number. The first line has 1.
    pub number: u64,
    /// Where the line's text begins.
    pub from: usize,
    /// Where the line's text ends: before its line feed, and before a carriage return there.
    pub to: usize,
}

/// The lines of a file from a place on.
#[derive(Clone, Copy, Debug, PartialEq, Eq)]
pub struct Ahead {
    /// The number of the first of them.
    pub number: u64,
    /// Where it begins.
    pub place: usize,
}

impl Copied for Line {
    fn copy(&self, _alloc: Global) -> Result<Line, NoMemory> {
        Ok(*self)
    }
}

/// The lines of a file up to the first that is not UTF-8.
#[derive(Debug, Drop)]
pub struct Lines {
    /// The lines before the first that is not UTF-8, or all lines.
    pub good: Items<Line>,
    /// The number of the first line that is not UTF-8.
    pub bad: Option<u64>,
}
