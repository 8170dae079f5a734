//! A judge that is shared, as one to be asked.

ghost use Rattle.std.specs.Prelude.{◌≡◌};
ghost use Rattle.std.specs.Arc.{arc_value};

use mark_types::lists::NoMemory;
use mark_types::{Asker, Judge};
use std::alloc::Global;
use std::marker::Model;
use std::sync::Arc;

/// Asks a shared judge, and remembers nothing. Contracts see it as the judge.
#[derive(Drop)]
pub struct Plain<J> {
    judge: Arc<J>,
}

impl<J> Model for Plain<J> {
    ghost Value = { J };

    ghost view = { λ inside. arc_value inside.judge };
}

impl<J> Plain<J> {
    /// Asks this judge.
    pub fn new(judge: Arc<J>) -> Plain<J>
        ensures { result ≡ arc_value judge }
    {
        Plain { judge }
    }
}

impl<J: Judge> Asker for Plain<J> {
    ghost lexicon = { λ judge. J.lexicon judge };

    fn verdict(&mut self, alloc: Global, written: &[char]) -> Result<bool, NoMemory> {
        self.judge.verdict(alloc, written)
    }

    fn wordchars(&self) -> &[char] {
        self.judge.wordchars()
    }
}
