//! Words that are looked up: converted already, and without the characters to ignore.

ghost use Rattle.std.specs.Prelude.{◌≡◌, false, IfOk};
ghost use Rattle.spell_types.specs.Conditions.{is_one_of};
ghost use Rattle.spell_types.specs.Numbers.{is_number};
ghost use Rattle.spell_types.specs.Yields.{is_broken_by, accepts};
ghost use Rattle.break_points.specs.Patterns.{BreakAlike};
ghost use Rattle.compound_words.specs.Prepared.{AreCompoundsOf};
ghost use Rattle.word_verdict.specs.Accepting.{is_accepted_short, is_accepted_before_dots};

use crate::numbers::{is_number, undotted};
use crate::pieces::{Prepared, judge_piece};
use break_points::Breaks;
use mark_types::lists::NoMemory;
use spell_types::Lexicon;
use std::alloc::Global;

/// How many characters a word may have that is no number. This is this project's own rule.
const MOST_CHARACTERS: usize = 100;

/// Whether a dictionary accepts a word that is looked up.
pub(crate) fn accepts(
    alloc: Global,
    dictionary: &Prepared,
    breaks: &Breaks,
    word: &[char],
) -> Result<bool, NoMemory>
    requires breaks { BreakAlike breaks.now dictionary.now.stems.now.affixes.breaks }
    requires compounds { AreCompoundsOf dictionary.now.stems.now dictionary.now.compounds.now }
    ensures { IfOk result (λ answer. answer ≡ accepts dictionary.now.stems.now word.now) }
{
    if word.is_empty() || is_number(word) {
        return Ok(true);
    }
    if word.len() > MOST_CHARACTERS {
        return Ok(false);
    }
    accepts_short(alloc, dictionary, breaks, word)
}

/// Whether a word that is no number and not too long is accepted, as it is or without the dots at
/// its end. Where there are no dots it is looked at once.
#[tactic(auto, using(crate::proofs::AcceptLemmas::refuses_undotted, crate::proofs::AcceptLemmas::accepts_undotted))]
fn accepts_short(
    alloc: Global,
    dictionary: &Prepared,
    breaks: &Breaks,
    word: &[char],
) -> Result<bool, NoMemory>
    requires breaks { BreakAlike breaks.now dictionary.now.stems.now.affixes.breaks }
    requires compounds { AreCompoundsOf dictionary.now.stems.now dictionary.now.compounds.now }
    requires number { is_number word.now ≡ false }
    ensures { IfOk result (λ answer. answer ≡ is_accepted_short dictionary.now.stems.now word.now) }
{
    if is_broken(alloc, dictionary, breaks, word)? {
        return Ok(true);
    }
    let rest = undotted(word);
    if rest.len() == word.len() {
        return Ok(false);
    }
    accepts_before_dots(alloc, dictionary, breaks, rest)
}

/// Whether what stands before the dots at the end of a word is accepted, where dots are word
/// characters.
fn accepts_before_dots(
    alloc: Global,
    dictionary: &Prepared,
    breaks: &Breaks,
    rest: &[char],
) -> Result<bool, NoMemory>
    requires breaks { BreakAlike breaks.now dictionary.now.stems.now.affixes.breaks }
    requires compounds { AreCompoundsOf dictionary.now.stems.now dictionary.now.compounds.now }
    ensures { IfOk result
        (λ answer. answer ≡ is_accepted_before_dots dictionary.now.stems.now rest.now) }
{
    if rest.is_empty() || !are_dots_inside(dictionary.stems.lexicon()) {
        return Ok(false);
    }
    if is_number(rest) {
        return Ok(true);
    }
    is_broken(alloc, dictionary, breaks, rest)
}

/// Whether a word is accepted, perhaps in pieces.
fn is_broken(
    alloc: Global,
    dictionary: &Prepared,
    breaks: &Breaks,
    word: &[char],
) -> Result<bool, NoMemory>
    requires breaks { BreakAlike breaks.now dictionary.now.stems.now.affixes.breaks }
    requires compounds { AreCompoundsOf dictionary.now.stems.now dictionary.now.compounds.now }
    ensures { IfOk result (λ answer. answer ≡ is_broken_by dictionary.now.stems.now word.now) }
{
    let judge = |piece: &[char]| judge_piece(alloc, dictionary, piece);
    breaks.broken(alloc, word, &judge)
}

/// Whether dots are word characters.
fn are_dots_inside(lexicon: &Lexicon) -> bool
    ensures { result ≡ is_one_of lexicon.now.affixes.wordchars 46 }
{
    lexicon.affixes.wordchars.iter().any(|c| *c == '.')
}
