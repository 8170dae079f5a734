//! How a written word is converted before it is looked up, and what a common misspelling may stand
//! for.
#![tactic(auto)]

ghost use Rattle.std.specs.Prelude.{◌≡◌, ℕ, List, [], ◌∷◌, ◌++◌, length, drop, Some, None, IfOk};
ghost use Rattle.std.specs.Prelude.{true};
ghost use Rattle.std.specs.List.{list_all};
ghost use Rattle.std.specs.Str.{chars};
ghost use Rattle.spell_types.specs.Conversions.{best_fit, converted, is_kept, without_ignored};
ghost use Rattle.spell_types.specs.Conversions.{IsBestFit, NoneFits};
ghost use Rattle.spell_types.specs.declared.conversions.Conversion.{Conversion};

mod ignored;
mod replacements;
mod table;

pub use ignored::Ignored;
pub use replacements::{rep_variants, stands_anchored, variant_at};
use spell_types::lists::{Items, NoMemory};
use spell_types::{Chars, Conversion};
use std::alloc::Global;
pub use table::Conversions;

/// The word converted: from left to right the longest pattern that stands at a place is replaced,
/// the first of equally long ones, and what was written for it is not read again.
pub fn convert(alloc: Global, table: &[Conversion], word: &[char]) -> Result<Chars, NoMemory>
    ensures { IfOk result (λ made. made ≡ converted table.now word.now) }
{
    let table = Conversions::new(alloc, table)?;
    match table.convert(alloc, word)? {
        Some(made) => Ok(made),
        None => Ok(Items::from_vec(word.to_vec(alloc)?)),
    }
}

/// The word without the characters to ignore.
pub fn drop_ignored(alloc: Global, ignore: &[char], word: &[char]) -> Result<Chars, NoMemory>
    ensures { IfOk result (λ made. made ≡ without_ignored ignore.now word.now) }
{
    let kept = word
        .iter()
        .copied()
        .filter(|c| is_kept(ignore, *c))
        .collect(alloc)?;
    Ok(Items::from_vec(kept))
}

/// Whether a text has none of the characters to ignore, so that all of it is left.
pub fn has_no_ignored(ignore: &[char], text: &str) -> bool
    ensures told { result ≡ list_all (is_kept ignore.now) (chars text.now) }
    ensures kept { result ≡ true
        → chars text.now ≡ without_ignored ignore.now (chars text.now) }
{
    ignore.is_empty() || each_is_kept(ignore, text)
}

/// Whether each character of a text differs from those to ignore.
fn each_is_kept(ignore: &[char], text: &str) -> bool
    ensures { result ≡ list_all (is_kept ignore.now) (chars text.now) }
{
    text.chars().all(|c| is_kept(ignore, c))
}

/// Whether a character differs from each of those to ignore.
fn is_kept(ignore: &[char], c: char) -> bool
    ensures { result ≡ is_kept ignore.now c }
{
    ignore.iter().all(|other| *other != c)
}

/// A word is converted from its front to its end. A best fitting row has the longest pattern that
/// fits, and is the first of those whose patterns are equally long.
pub fn conversion_goes_from_the_front()
    ensures end { (table : List Conversion) → converted table [] ≡ [] }
    ensures kept { (table : List Conversion) (c : ℕ) (text : List ℕ) →
        best_fit table (c ∷ text) ≡ None → converted table (c ∷ text) ≡ c ∷ converted table text }
    ensures replaced { (table : List Conversion) (text : List ℕ) (row : Conversion) →
        best_fit table text ≡ Some row
        → converted table text ≡ row.to ++ converted table (drop (length row.from) text) }
    ensures best { (table : List Conversion) (text : List ℕ) (row : Conversion) →
        best_fit table text ≡ Some row → IsBestFit table text row }
    ensures none { (table : List Conversion) (text : List ℕ) →
        best_fit table text ≡ None → NoneFits table text }
{}
