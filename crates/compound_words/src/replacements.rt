//! Words that are common misspellings of others.

ghost use Rattle.std.specs.Prelude.{◌≡◌, ◌&&◌, IfOk};
ghost use Rattle.std.specs.List.{flat_map, list_any};
ghost use Rattle.spell_types.specs.Licences.{is_alone, is_derived};
ghost use Rattle.spell_types.specs.Replacements.{stands_anchored, replaced_at, variants_by};
ghost use Rattle.spell_types.specs.Replacements.{has_rep_fault};

use affix_strip::Stems;
use conversions::{stands_anchored, variant_at};
use spell_types::lists::NoMemory;
use spell_types::{Case, Rep};
use std::alloc::Global;

/// Whether a word is a common misspelling of one that stands alone: the option CHECKCOMPOUNDREP of
/// hunspell(5). No pair of REP is looked at behind the first that makes such a word.
#[tactic(auto, unfolding(spell_types::specs::Replacements::has_rep_fault, spell_types::specs::Replacements::rep_variants))]
pub(crate) fn has_rep_fault(alloc: Global, stems: &Stems, word: &[char]) -> Result<bool, NoMemory>
    ensures { IfOk result (λ answer. answer ≡ has_rep_fault stems.now word.now) }
{
    has_fault_by_one(alloc, stems, &stems.lexicon().affixes.reps, word)
}

/// Whether one of these pairs makes a word that stands alone.
fn has_fault_by_one(
    alloc: Global,
    stems: &Stems,
    reps: &[Rep],
    word: &[char],
) -> Result<bool, NoMemory>
    ensures { IfOk result (λ answer. answer
        ≡ list_any (is_derived is_alone stems.now) (flat_map (variants_by word.now) reps.now)) }
{
    for rep in reps {
        if has_fault_by(alloc, stems, rep, word)? {
            return Ok(true);
        }
    }
    Ok(false)
}

/// Whether a pair makes a word that stands alone, at one of the places where it stands.
fn has_fault_by(alloc: Global, stems: &Stems, rep: &Rep, word: &[char]) -> Result<bool, NoMemory>
    ensures { IfOk result (λ answer. answer
        ≡ list_any (is_derived is_alone stems.now) (variants_by word.now rep.now)) }
{
    for place in 0..word.len() {
        if has_fault_at(alloc, stems, rep, word, place)? {
            return Ok(true);
        }
    }
    Ok(false)
}

/// Whether a pair stands at a place and makes a word there that stands alone.
fn has_fault_at(
    alloc: Global,
    stems: &Stems,
    rep: &Rep,
    word: &[char],
    place: usize,
) -> Result<bool, NoMemory>
    ensures { IfOk result (λ answer. answer
        ≡ (stands_anchored rep.now.from word.now place
        && is_derived is_alone stems.now (replaced_at rep.now word.now place))) }
{
    if !stands_anchored(&rep.from, word, place) {
        return Ok(false);
    }
    let variant = variant_at(alloc, rep, word, place)?;
    is_alone(alloc, stems, &variant)
}

/// Whether a word stands alone.
#[tactic(auto, using(crate::proofs::ReplacementLemmas::alone_as_spelled))]
fn is_alone(alloc: Global, stems: &Stems, word: &[char]) -> Result<bool, NoMemory>
    ensures { IfOk result (λ answer. answer ≡ is_derived is_alone stems.now word.now) }
{
    stems.is_alone(alloc, Case::Same, word)
}
