//! Words that a common misspelling may stand for.

ghost use Rattle.std.specs.Prelude.{◌≡◌, ◌+◌, ◌==◌, ◌++◌, length, take, drop, IfOk, OnOk};
ghost use Rattle.spell_types.specs.Replacements.{stands_anchored, replaced_at, variants_by};
ghost use Rattle.spell_types.specs.Replacements.{rep_variants};

use spell_types::lists::{Items, NoMemory};
use spell_types::{Anchored, Chars, Rep};
use std::alloc::Global;

/// The words that a word becomes by one pair of the option REP of hunspell(5), applied at one
/// place: by pair, then by rising place. Pairs that make the same word give it again. Where a pair
/// does not stand no memory is taken.
#[tactic(auto, unfolding(spell_types::specs::Replacements::rep_variants))]
pub fn rep_variants(alloc: Global, reps: &[Rep], word: &[char]) -> Result<Vec<Chars>, NoMemory>
    ensures { IfOk result (λ found. found.items ≡ rep_variants reps.now word.now) }
{
    let mut found = Vec::new(alloc);
    for rep in reps {
        add_variants(alloc, rep, word, &mut found)?;
    }
    Ok(found)
}

/// Adds the words that a pair makes of a word, by place.
fn add_variants(
    alloc: Global,
    rep: &Rep,
    word: &[char],
    found: &mut Vec<Chars>,
) -> Result<(), NoMemory>
    ensures { OnOk result (found.new.items ≡ found.old.items ++ variants_by word.now rep.now) }
{
    for place in 0..word.len() {
        if stands_anchored(&rep.from, word, place) {
            found.push(variant_at(alloc, rep, word, place)?)?;
        }
    }
    Ok(())
}

/// The word with the replacement of a pair of REP for as many characters as the pair's text has,
/// from a place on, whichever they are. The place is counted in characters from 0; behind the
/// word's end the replacement is added to the word.
pub fn variant_at(alloc: Global, rep: &Rep, word: &[char], place: usize) -> Result<Chars, NoMemory>
    ensures { IfOk result (λ made. made ≡ replaced_at rep.now word.now place) }
{
    let mut made = before(word, place).to_vec(alloc)?;
    made.extend_from_slice(&rep.to)?;
    made.extend_from_slice(behind(word, place.saturating_add(rep.from.text.len())))?;
    Ok(Items::from_vec(made))
}

/// Whether a text stands at a place of a word, counted in characters from 0, and its front or its
/// end is there, where the text is anchored so: how the option REP of hunspell(5) reads `^text` and
/// `text$`.
pub fn stands_anchored(from: &Anchored, word: &[char], place: usize) -> bool
    ensures { result ≡ stands_anchored from.now word.now place }
{
    behind(word, place).starts_with(&from.text)
        && (!from.front || place == 0)
        && (!from.back || ends_at(word, place, from.text.len()))
}

/// Whether so many characters from a place on end a word.
fn ends_at(word: &[char], place: usize, len: usize) -> bool
    ensures { result ≡ (place + len == length word.now) }
{
    place <= word.len() && word.len() - place == len
}

/// The characters of a word before a place.
fn before(word: &[char], place: usize) -> &[char]
    ensures { result.now ≡ take place word.now }
{
    &word[..place.min(word.len())]
}

/// The characters of a word from a place on.
fn behind(word: &[char], place: usize) -> &[char]
    ensures { result.now ≡ drop place word.now }
{
    &word[place.min(word.len())..]
}
