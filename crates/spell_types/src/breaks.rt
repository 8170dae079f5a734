//! Where a word may be broken.
use crate::Chars;
use lists::{Copied, NoMemory};
use std::alloc::Global;

/// A text that is looked for in a word: at its front, at its end, or anywhere. This is how the
/// option BREAK of hunspell(5) writes `^text`, `text$` and `text`.
#[derive(Debug, Drop)]
pub struct Anchored {
    pub text: Chars,
    pub front: bool,
    pub back: bool,
}

impl Copied for Anchored {
    fn copy(&self, alloc: Global) -> Result<Anchored, NoMemory> {
        Ok(Anchored {
            text: self.text.copy(alloc)?,
            front: self.front,
            back: self.back,
        })
    }
}
