//! How long the forms of a dictionary are at most.

ghost use Rattle.std.specs.Prelude.{◌≡◌, ◌+◌, ◌*◌, IfSome};
ghost use Rattle.affix_strip.specs.Lengths.{AreAddedWithin, AreWordsWithin, IsLongest};

use spell_types::{Entries, Lexicon, Rule};

/// How long a form is at most: as many characters as the longest word has bytes, and what three
/// rules add. None if that number does not fit.
pub(crate) fn longest_of(lexicon: &Lexicon) -> Option<usize>
    ensures { IsLongest lexicon.now result }
{
    let word = longest_word(&lexicon.entries);
    let added = longest_added(&lexicon.affixes.rules);
    sum_of(word, added)
}

/// A number and three times another, if the sum fits.
fn sum_of(word: usize, added: usize) -> Option<usize>
    ensures { IfSome result (λ most. most ≡ word + 3 * added) }
{
    word.checked_add(added.checked_mul(3)?)
}

/// How many characters a word has at most: as many as the longest has bytes.
#[tactic(auto, using(crate::proofs::LengthLemmas::few_chars))]
fn longest_word(entries: &Entries) -> usize
    ensures { AreWordsWithin entries.now result }
{
    let mut found = 0;
    for place in 0..entries.len() {
        found = found.max(entries.at(place).word().len());
    }
    found
}

fn longest_added(rules: &[Rule]) -> usize
    ensures { AreAddedWithin rules.now result }
{
    let mut found = 0;
    for rule in rules {
        found = found.max(rule.add.len());
    }
    found
}
