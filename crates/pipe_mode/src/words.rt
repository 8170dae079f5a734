//! The answer to a word.

ghost use Rattle.std.specs.Prelude.{◌≡◌, ◌++◌, encode_utf8_all, IfOk, OnOk};
ghost use Rattle.std.specs.String.{string_bytes};
ghost use Rattle.conversions.specs.Patterns.{or_word};
ghost use Rattle.spell_types.specs.Yields.{looked_up};
ghost use Rattle.pipe_mode.specs.Answers.{answer_at, has_some_affix, known_line, stem_text_of};
ghost use Rattle.pipe_mode.specs.Answers.{unknown_line};
ghost use Rattle.pipe_mode.specs.Stems.{told_derivation};

use crate::stems::told_derivation;
use conversions::{Conversions, Ignored};
use mark_types::Judge;
use mark_types::lists::NoMemory;
use spell_types::{Chars, Derivation, Lexicon};
use std::alloc::{AllocError, Global};
use std::marker::Model;
use word_verdict::Speller;

/// A dictionary that answers lines, and what is prepared of it to convert their words. Contracts see
/// it as the dictionary.
#[derive(Drop)]
pub struct PipeSpeller<'a> {
    speller: &'a Speller,
    conversions: Conversions,
    ignored: Ignored,
}

impl<'a> Model for PipeSpeller<'a> {
    ghost use Rattle.spell_types.specs.declared.Lexicon.{Lexicon};
    ghost use Rattle.pipe_mode.specs.Prepared.{ArePipeTablesPrepared};

    ghost Value = { Lexicon };

    ghost view = { λ inside. inside.speller.now };

    ghost invariant = { λ inside.
        ArePipeTablesPrepared inside.speller.now inside.conversions inside.ignored };
}

impl<'a> PipeSpeller<'a> {
    /// Prepares a dictionary, once for all lines.
    pub fn new(alloc: Global, speller: &'a Speller) -> Result<PipeSpeller<'a>, NoMemory>
        ensures { IfOk result (λ made. made ≡ speller.now) }
    {
        let affixes = &speller.stems().lexicon().affixes;
        Ok(PipeSpeller {
            speller,
            conversions: Conversions::new(alloc, &affixes.iconv)?,
            ignored: Ignored::new(alloc, &affixes.ignore)?,
        })
    }

    /// The characters that are word characters beside letters and marks.
    pub(crate) fn wordchars(&self) -> &[char]
        ensures { result.now ≡ self.now.affixes.wordchars }
    {
        self.speller.wordchars()
    }

    /// Adds the answer to a word, if it has one. The word begins at a byte of its line.
    pub(crate) fn push_answer(
        &self,
        alloc: Global,
        terse: bool,
        at: u64,
        word: &[char],
        answer: &mut String,
    ) -> Result<(), NoMemory>
        ensures { OnOk result (string_bytes answer.new
            ≡ string_bytes answer.old ++ answer_at self.now terse at word.now) }
    {
        if !self.speller.verdict(alloc, word)? {
            push_unknown(answer, word, at)?;
        } else if !terse {
            let told = self.told(alloc, word)?;
            push_known(answer, self.speller.stems().lexicon(), told)?;
        }
        Ok(())
    }

    /// The derivation that a word is answered by.
    #[tactic(auto, unfolding(spell_types::specs::Yields::looked_up))]
    fn told(&self, alloc: Global, word: &[char]) -> Result<Option<Derivation>, NoMemory>
        ensures { IfOk result (λ told. told
            ≡ told_derivation self.now (looked_up self.now word.now)) }
    {
        let made = self.conversions.convert(alloc, word)?;
        let converted = made_or(&made, word);
        let left = self.ignored.drop_from(alloc, converted)?;
        told_derivation(alloc, self.speller.stems(), made_or(&left, converted))
    }
}

/// What was made of a word, or the word itself where nothing was.
fn made_or<'a>(made: &'a Option<Chars>, word: &'a [char]) -> &'a [char]
    ensures { result.now ≡ or_word made.now word.now }
{
    match made {
        Some(made) => made.as_slice(),
        None => word,
    }
}

/// Adds the answer to a word that the dictionary does not generate.
fn push_unknown(answer: &mut String, word: &[char], at: u64) -> Result<(), AllocError>
    ensures { OnOk result
        (string_bytes answer.new ≡ string_bytes answer.old ++ unknown_line word.now at) }
{
    answer.push_str("# ")?;
    push_characters(answer, word)?;
    write!(answer, " {at}\n")
}

fn push_characters(text: &mut String, characters: &[char]) -> Result<(), AllocError>
    ensures { OnOk result
        (string_bytes text.new ≡ string_bytes text.old ++ encode_utf8_all characters.now) }
{
    for c in characters {
        text.push(*c)?;
    }
    Ok(())
}

/// Adds the answer to a word that the dictionary generates, by its derivation.
fn push_known(
    answer: &mut String,
    lexicon: &Lexicon,
    told: Option<Derivation>,
) -> Result<(), AllocError>
    ensures { OnOk result
        (string_bytes answer.new ≡ string_bytes answer.old ++ known_line lexicon.now told) }
{
    match told {
        None => answer.push_str("-\n"),
        Some(d) if has_affix(&d) => {
            let stem = stem_of(lexicon, &d);
            write!(answer, "+ {stem}\n")
        }
        Some(_) => answer.push_str("*\n"),
    }
}

fn has_affix(d: &Derivation) -> bool
    ensures { result ≡ has_some_affix d.now }
{
    d.prefix.is_some() || d.first.is_some() || d.second.is_some()
}

/// The word of a derivation's entry; the empty word where it names none.
fn stem_of<'a>(lexicon: &'a Lexicon, d: &Derivation) -> &'a str
    ensures { result.now ≡ stem_text_of lexicon.now d.now }
{
    match lexicon.entries.get(d.entry as usize) {
        Some(entry) => entry.word(),
        None => "",
    }
}
