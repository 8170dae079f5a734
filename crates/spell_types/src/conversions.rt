//! What a dictionary converts in its input, and what it takes for misspelled.
use crate::{Anchored, Chars};
use lists::{Copied, NoMemory};
use std::alloc::Global;

/// A row of the table that converts input: each `from` is written `to`, as the option ICONV of
/// hunspell(5) has it.
#[derive(Debug, Drop)]
pub struct Conversion {
    pub from: Chars,
    pub to: Chars,
}

/// A common misspelling, `from`, of `to`: a row of the option REP of hunspell(5).
#[derive(Debug, Drop)]
pub struct Rep {
    pub from: Anchored,
    pub to: Chars,
}

impl Copied for Conversion {
    fn copy(&self, alloc: Global) -> Result<Conversion, NoMemory> {
        Ok(Conversion {
            from: self.from.copy(alloc)?,
            to: self.to.copy(alloc)?,
        })
    }
}

impl Copied for Rep {
    fn copy(&self, alloc: Global) -> Result<Rep, NoMemory> {
        Ok(Rep {
            from: self.from.copy(alloc)?,
            to: self.to.copy(alloc)?,
        })
    }
}
