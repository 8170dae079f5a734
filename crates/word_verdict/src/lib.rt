//! Whether a dictionary generates a written word.
#![tactic(auto)]

ghost use Rattle.std.specs.Prelude.{◌≡◌, IfOk};
ghost use Rattle.spell_types.specs.Sanity.{IsSane};
ghost use Rattle.conversions.specs.Patterns.{or_word};
ghost use Rattle.word_verdict.specs.Preparing.{ArePrepared};

mod crossing;
mod numbers;
mod pieces;
mod words;

use affix_strip::Stems;
use break_points::Breaks;
use compound_words::Compounds;
use conversions::{Conversions, Ignored};
use mark_types::Judge;
use mark_types::lists::NoMemory;
use pieces::Prepared;
use spell_types::{Affixes, Chars, Entries, Lexicon};
use std::alloc::Global;
use std::marker::Model;
use words::accepts;

/// A dictionary, ready to be asked which words it generates. Contracts see it as the dictionary.
#[derive(Drop)]
pub struct Speller {
    stems: Stems,
    compounds: Compounds,
    conversions: Conversions,
    ignored: Ignored,
    breaks: Breaks,
}

impl Model for Speller {
    ghost use Rattle.spell_types.specs.declared.Lexicon.{Lexicon};
    ghost use Rattle.word_verdict.specs.Preparing.{ArePrepared};

    ghost Value = { Lexicon };

    ghost view = { λ inside. inside.stems };

    ghost invariant = { λ inside. ArePrepared inside.stems inside.compounds inside.conversions
        inside.ignored inside.breaks };
}

impl Speller {
    /// Takes what the two files of a dictionary say, as the readers give it.
    pub fn build(alloc: Global, affixes: Affixes, entries: Entries) -> Result<Speller, NoMemory>
        requires { IsSane (record { affixes = affixes; entries = entries }) }
        ensures { IfOk result (λ made. made ≡ record { affixes = affixes; entries = entries }) }
    {
        let stems = Stems::new(alloc, Lexicon { affixes, entries })?;
        Speller::of_stems(alloc, stems)
    }

    /// Takes the stems of a dictionary, which may have been made in several threads.
    pub fn of_stems(alloc: Global, stems: Stems) -> Result<Speller, NoMemory>
        ensures { IfOk result (λ made. made ≡ stems) }
    {
        let beside = Beside::prepare(alloc, stems.lexicon())?;
        Ok(beside.with_stems(stems))
    }

    /// The dictionary with its stems. It takes no memory.
    pub fn stems(&self) -> &Stems
        ensures { result.now ≡ self.now }
    {
        &self.stems
    }
}

/// What is prepared of a dictionary beside its stems. It is made in a function that only borrows
/// the dictionary: one that owns it over many `?` takes minutes to prove.
#[derive(Drop)]
struct Beside {
    compounds: Compounds,
    conversions: Conversions,
    ignored: Ignored,
    breaks: Breaks,
}

impl Beside {
    /// What is prepared of this dictionary.
    fn prepare(alloc: Global, lexicon: &Lexicon) -> Result<Beside, NoMemory>
        requires { IsSane lexicon.now }
        ensures { IfOk result
            (λ made. ArePrepared lexicon.now made.compounds made.conversions made.ignored
            made.breaks) }
    {
        Ok(Beside {
            compounds: Compounds::new(alloc, lexicon)?,
            conversions: Conversions::new(alloc, &lexicon.affixes.iconv)?,
            ignored: Ignored::new(alloc, &lexicon.affixes.ignore)?,
            breaks: Breaks::new(alloc, &lexicon.affixes.breaks)?,
        })
    }

    /// The dictionary with the stems that it was prepared for.
    fn with_stems(self, stems: Stems) -> Speller
        requires { ArePrepared stems self.compounds self.conversions self.ignored self.breaks }
        ensures { result ≡ stems }
    {
        Speller {
            stems,
            compounds: self.compounds,
            conversions: self.conversions,
            ignored: self.ignored,
            breaks: self.breaks,
        }
    }
}

impl Judge for Speller {
    ghost lexicon = { λ speller. speller };

    #[tactic(auto, unfolding(spell_types::specs::Yields::looked_up, spell_types::specs::Yields::yields))]
    fn verdict(&self, alloc: Global, written: &[char]) -> Result<bool, NoMemory> {
        let made = self.conversions.convert(alloc, written)?;
        let converted = made_or(&made, written);
        let left = self.ignored.drop_from(alloc, converted)?;
        let dictionary = Prepared {
            stems: &self.stems,
            compounds: &self.compounds,
        };
        accepts(alloc, &dictionary, &self.breaks, made_or(&left, converted))
    }

    fn wordchars(&self) -> &[char] {
        &self.stems.lexicon().affixes.wordchars
    }
}

/// What was made of a word, or the word itself where nothing was.
fn made_or<'a>(made: &'a Option<Chars>, word: &'a [char]) -> &'a [char]
    ensures { result.now ≡ or_word made.now word.now }
{
    match made {
        Some(made) => made.as_slice(),
        None => word,
    }
}
