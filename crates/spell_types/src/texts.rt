//! Texts by their characters.

ghost use Rattle.std.specs.Prelude.{◌≡◌, IfOk};
ghost use Rattle.std.specs.Str.{chars};
ghost use Rattle.std.specs.String.{string_bytes};
ghost use Rattle.spell_types.specs.Cases.{is_same_word};

use crate::Chars;
use lists::{Items, NoMemory};
use std::alloc::Global;

/// The characters of a text.
pub fn chars_of(alloc: Global, text: &str) -> Result<Chars, NoMemory>
    ensures { IfOk result (λ made. made ≡ chars text.now) }
{
    let characters: Vec<char> = text.chars().collect(alloc)?;
    Ok(Items::from_vec(characters))
}

/// The text of characters.
pub fn text_of(alloc: Global, characters: &[char]) -> Result<String, NoMemory>
    ensures { IfOk result (λ made. chars (string_bytes made) ≡ characters.now) }
{
    let mut text = String::new(alloc);
    for c in characters {
        text.push(*c)?;
    }
    Ok(text)
}

/// Whether a text has these characters.
pub fn is_spelled(text: &str, characters: &[char]) -> bool
    ensures { result ≡ is_same_word (chars text.now) characters.now }
{
    let mut left = characters;
    for c in text.chars() {
        let Some((first, later)) = left.split_first() else {
            return false;
        };
        if c != *first {
            return false;
        }
        left = later;
    }
    left.is_empty()
}
