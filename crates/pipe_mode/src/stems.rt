//! The derivation that a word is answered by, which tells its stem.

ghost use Rattle.std.specs.Prelude.{◌≡◌, ◌++◌, ℕ, List, Some, None, IfOk, OnOk};
ghost use Rattle.spell_types.specs.declared.Lexicon.{Lexicon};
ghost use Rattle.spell_types.specs.declared.derivations.Derivation.{Derivation};
ghost use Rattle.affix_strip.specs.Found.{derivation_cmp};
ghost use Rattle.pipe_mode.specs.Stems.{derivations_as, least, lesser, told_derivation};
ghost use Rattle.pipe_mode.specs.Stems.{word_derivations, IsAnsweredByStem, MayHaveStem, StandsFor};

use crate::cases::case_of;
use affix_strip::{Stems, derivations_are};
use letter_case::{covered, covered_words_are};
use mark_types::lists::NoMemory;
use spell_types::{Derivation, alone_in_case};
use std::alloc::Global;
use std::cmp::Ordering;

/// How many characters a word may have that has a stem: as many as one may have that is no number.
const MOST_CHARACTERS: usize = 100;

/// The derivation that a word is answered by, where it is looked up as it stands here.
#[tactic(auto, unfolding(crate::specs::Stems::told_derivation))]
pub(crate) fn told_derivation(
    alloc: Global,
    stems: &Stems,
    word: &[char],
) -> Result<Option<Derivation>, NoMemory>
    ensures { IfOk result (λ told. told ≡ told_derivation stems.now word.now) }
{
    if word.len() > MOST_CHARACTERS || stems.is_barred(alloc, word)? {
        return Ok(None);
    }
    let found = word_derivations(alloc, stems, word)?;
    Ok(least(&found))
}

/// The derivation that a word is answered by stands for it, and none that does is less. A word has
/// none where none stands for it, and where it is too long or forbidden.
pub fn told_derivations_are_least()
    ensures told { (lexicon : Lexicon) (word : List ℕ) (d : Derivation)
        → told_derivation lexicon word ≡ Some d → IsAnsweredByStem lexicon word d }
    ensures none { (lexicon : Lexicon) (word : List ℕ) (d : Derivation)
        → told_derivation lexicon word ≡ None → MayHaveStem lexicon word
        → ¬ (StandsFor lexicon word d) }
{
    derivations_are();
    covered_words_are();
}

/// The derivations of all spellings that a word covers, as far as they stand for it.
#[tactic(auto, unfolding(crate::specs::Stems::word_derivations))]
fn word_derivations(
    alloc: Global,
    stems: &Stems,
    word: &[char],
) -> Result<Vec<Derivation>, NoMemory>
    ensures { IfOk result (λ found. found.items ≡ word_derivations stems.now word.now) }
{
    let spellings = covered(alloc, word, stems.lexicon().affixes.options.sharps)?;
    let mut found = Vec::new(alloc);
    for spelling in spellings.as_slice() {
        add_derivations(alloc, stems, word, spelling, &mut found)?;
    }
    Ok(found)
}

/// Adds the derivations of a spelling that stand for a word that is written so.
fn add_derivations(
    alloc: Global,
    stems: &Stems,
    word: &[char],
    spelling: &[char],
    found: &mut Vec<Derivation>,
) -> Result<(), NoMemory>
    ensures { OnOk result
        (found.new.items ≡ found.old.items ++ derivations_as stems.now word.now spelling.now) }
{
    if stems.is_barred(alloc, spelling)? {
        return Ok(());
    }
    let lexicon = stems.lexicon();
    let case = case_of(lexicon.affixes.options.sharps, word, spelling);
    let mut standing = stems.derivations(alloc, spelling)?;
    standing.retain(|d| alone_in_case(case, lexicon, d));
    found.extend_from_slice(&standing)?;
    Ok(())
}

/// The least derivation, if there is one.
fn least(found: &[Derivation]) -> Option<Derivation>
    ensures { result ≡ least found.now }
{
    let [first, more @ ..] = found else {
        return None;
    };
    let mut least = *first;
    for d in more {
        least = lesser(least, *d);
    }
    Some(least)
}

/// The lesser of two derivations.
fn lesser(d: Derivation, e: Derivation) -> Derivation
    ensures { result ≡ lesser d e }
{
    match compare(&d, &e) {
        Ordering::Greater => e,
        _ => d,
    }
}

/// The order by entry, then by prefix, then by first, then by second suffix, none before any.
fn compare(d: &Derivation, other: &Derivation) -> Ordering
    ensures { result ≡ derivation_cmp d.now other.now }
{
    d.entry
        .cmp(&other.entry)
        .then(d.prefix.cmp(&other.prefix))
        .then(d.first.cmp(&other.first))
        .then(d.second.cmp(&other.second))
}
