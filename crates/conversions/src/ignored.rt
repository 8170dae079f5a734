//! Characters to ignore that are prepared once for all words.
#![tactic(auto)]

ghost use Rattle.std.specs.Prelude.{◌≡◌, ℕ, IfOk};
ghost use Rattle.std.specs.List.{list_all};
ghost use Rattle.std.specs.List.Sorted.{IsNonDecreasing};
ghost use Rattle.spell_types.specs.Conversions.{is_kept, without_ignored};
ghost use Rattle.conversions.specs.Patterns.{or_word};

use spell_types::Chars;
use spell_types::lists::{Items, NoMemory};
use std::alloc::Global;
use std::marker::Model;

/// Characters to ignore, ready to be dropped from words. Contracts see them as a list, which holds
/// the same characters as that which they were made of. A character is found by halves among them.
#[derive(Drop)]
pub struct Ignored {
    /// In the order of their codes.
    characters: Vec<char>,
}

impl Model for Ignored {
    ghost use Rattle.std.specs.Prelude.{ℕ, List};
    ghost use Rattle.std.specs.List.Sorted.{IsNonDecreasing};

    ghost Value = { List ℕ };

    ghost view = { λ inside. inside.characters.items };

    ghost invariant = { λ inside. IsNonDecreasing inside.characters.items };
}

impl Ignored {
    /// The characters to ignore.
    pub fn new(alloc: Global, ignore: &[char]) -> Result<Ignored, NoMemory>
        ensures { IfOk result (λ made. (c : ℕ) → is_kept made c ≡ is_kept ignore.now c) }
    {
        let mut characters = ignore.to_vec(alloc)?;
        characters.sort_unstable();
        Ok(Ignored { characters })
    }

    /// The word without the characters to ignore; none where it has none of them, and then stays as
    /// it is.
    pub fn drop_from(&self, alloc: Global, word: &[char]) -> Result<Option<Chars>, NoMemory>
        ensures { IfOk result (λ made. or_word made word.now ≡ without_ignored self.now word.now) }
    {
        dropped(alloc, self.characters.as_slice(), word)
    }
}

/// The word without these characters, if it has one of them.
fn dropped(alloc: Global, ignore: &[char], word: &[char]) -> Result<Option<Chars>, NoMemory>
    requires { IsNonDecreasing ignore.now }
    ensures { IfOk result (λ made. or_word made word.now ≡ without_ignored ignore.now word.now) }
{
    if has_none(ignore, word) {
        return Ok(None);
    }
    let kept = word
        .iter()
        .copied()
        .filter(|c| is_other(ignore, *c))
        .collect(alloc)?;
    Ok(Some(Items::from_vec(kept)))
}

/// Whether the word has none of these characters.
fn has_none(ignore: &[char], word: &[char]) -> bool
    requires { IsNonDecreasing ignore.now }
    ensures { result ≡ list_all (is_kept ignore.now) word.now }
{
    word.iter().all(|c| is_other(ignore, *c))
}

/// Whether a character differs from each of these.
fn is_other(ignore: &[char], c: char) -> bool
    requires { IsNonDecreasing ignore.now }
    ensures { result ≡ is_kept ignore.now c }
{
    ignore.binary_search(&c).is_err()
}
