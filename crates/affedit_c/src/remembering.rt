//! A dictionary that is asked, beside the last words that it was asked for.

ghost use Rattle.std.specs.Prelude.{◌≡◌, IfOk};
ghost use Rattle.std.specs.Arc.{arc_value};

use mark_types::lists::NoMemory;
use mark_types::{Asker, Judge};
use std::alloc::Global;
use std::marker::Model;
use std::sync::Arc;
use verdict_cache::Cached;
use word_verdict::Speller;

/// How many verdicts are remembered.
const VERDICTS: usize = 4_096;

/// How many characters a word has at most whose verdict is remembered: what is remembered takes no
/// more memory, however long the words are.
const LONGEST: usize = 64;

/// Asks a dictionary, and remembers its last verdicts. Contracts see it as the dictionary.
#[derive(Drop)]
pub struct Remembering {
    speller: Arc<Speller>,
    cached: Cached<Speller>,
}

impl Model for Remembering {
    ghost use Rattle.std.specs.Prelude.{◌≡◌};
    ghost use Rattle.std.specs.Arc.{arc_value};
    ghost use Rattle.mark_types.specs.spell_types.declared.Lexicon.{Lexicon};

    ghost Value = { Lexicon };

    ghost view = { λ inside. arc_value inside.speller };

    ghost invariant = { λ inside. inside.cached ≡ arc_value inside.speller };
}

impl Remembering {
    /// Asks this dictionary.
    pub fn new(alloc: Global, speller: Arc<Speller>) -> Result<Remembering, NoMemory>
        ensures { IfOk result (λ made. made ≡ arc_value speller) }
    {
        let cached = Cached::new(alloc, Arc::try_clone(&speller)?, VERDICTS)?;
        Ok(Remembering { speller, cached })
    }

    /// Asks the same dictionary, and remembers no verdict yet.
    pub fn share(&self, alloc: Global) -> Result<Remembering, NoMemory>
        ensures { IfOk result (λ made. made ≡ self.now) }
    {
        Remembering::new(alloc, Arc::try_clone(&self.speller)?)
    }
}

impl Asker for Remembering {
    ghost lexicon = { λ asked. asked };

    fn verdict(&mut self, alloc: Global, written: &[char]) -> Result<bool, NoMemory> {
        if written.len() > LONGEST {
            return self.speller.verdict(alloc, written);
        }
        self.cached.verdict(alloc, written)
    }

    fn wordchars(&self) -> &[char] {
        self.speller.wordchars()
    }
}
