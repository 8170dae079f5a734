//! Dictionaries of the texts of their files, and texts of what is found by them.

use aff_reader::read_aff;
use dic_reader::read_dic;
use mark_types::spell_types::{Affixes, Chars, Lexicon};
use outside::lists::NoMemory;
use std::alloc::{AllocError, Global};
use std::test::Fail;

/// What the text of an .aff file says.
pub(super) fn affixes_of(alloc: Global, aff: &str) -> Result<Affixes, Fail> {
    Ok(read_aff(alloc, aff.as_bytes())?)
}

/// The dictionary of the texts of its two files.
pub(super) fn lexicon_of(alloc: Global, aff: &str, dic: &str) -> Result<Lexicon, Fail> {
    with_entries(alloc, affixes_of(alloc, aff)?, dic)
}

/// The dictionary of an .aff file that is read, and of the text of its .dic file.
fn with_entries(alloc: Global, affixes: Affixes, dic: &str) -> Result<Lexicon, Fail> {
    let entries = read_dic(alloc, &affixes, dic.as_bytes())?;
    Ok(Lexicon { affixes, entries })
}

/// The text of these characters.
pub(super) fn text_of(alloc: Global, characters: &[char]) -> Result<String, AllocError> {
    let mut text = String::new(alloc);
    for c in characters {
        text.push(*c)?;
    }
    Ok(text)
}

/// Words, each with a comma behind it.
pub(super) fn words_told(alloc: Global, words: &[Chars]) -> Result<String, NoMemory> {
    let mut text = String::new(alloc);
    for word in words {
        text.push_str(text_of(alloc, word)?.as_str())?;
        text.push(',')?;
    }
    Ok(text)
}
