//! The word and the flags of an entry.

ghost use Rattle.std.specs.Prelude.{◌≡◌, ◌++◌, ◌<◌, List, length, Ok, OnOk, IfOk, IfErr, IfSome};
ghost use Rattle.std.specs.Str.{chars};
ghost use Rattle.spell_types.specs.declared.Entry.{Entry};
ghost use Rattle.spell_types.specs.Conversions.{without_ignored};
ghost use Rattle.dic_reader.specs.Entries.{entry_at, flag_text_of_entry, whole_word};
ghost use Rattle.dic_reader.specs.Faults.{entry_read, told_at, IsTold};
ghost use Rattle.dic_reader.specs.KnownSets.{AreKnown, AreFlagsOf, entry_of_found, bytes_of};

use crate::faults::{DicFault, DicWhy};
use crate::known_sets::{FoundEntry, KnownSets, flags_of};
use conversions::{drop_ignored, has_no_ignored};
use flag_sets::{FlagFault, push_before_slash, split_plain};
use spell_types::{Affixes, Chars, text_of};
use std::alloc::Global;
use text_lines::lists::{Items, NoMemory};

/// The word of an entry.
#[derive(Drop)]
pub(crate) enum Word<'a> {
    /// It stands in its line as it is, as nearly all do.
    Written(&'a str),
    /// It is the line's with escaped slashes, or without the characters to ignore.
    Made(String),
}

impl<'a> Word<'a> {
    pub(crate) fn as_str(&self) -> &str
        ensures { result.now ≡ bytes_of self.now }
    {
        match self {
            Word::Written(word) => word,
            Word::Made(word) => word.as_str(),
        }
    }
}

/// The entry with this text, of the line with this number. Its word is without the characters to
/// ignore, and its flags are those of an entry before it where that has the same flag text.
pub(crate) fn read_entry<'a>(
    alloc: Global,
    affixes: &Affixes,
    known: &KnownSets<'a>,
    number: u64,
    text: &'a str,
) -> Result<FoundEntry<'a>, DicFault>
    ensures read { (entries : List Entry) → AreKnown affixes.now entries known.now
        → IfOk result (λ found. entry_read affixes.now (entry_at number text.now)
        ≡ Ok (entry_of_found entries found)) }
    ensures fault { IfErr result (IsTold (entry_read affixes.now (entry_at number text.now))) }
    ensures word { IfOk result (λ found. 0 < length (chars (bytes_of found.word))) }
    ensures flags { (entries : List Entry) → AreKnown affixes.now entries known.now
        → IfOk result (λ found. AreFlagsOf affixes.now entries (flag_text_of_entry text.now) found.flags) }
{
    let (word, flag_text) = read_word(alloc, &affixes.ignore, text)?;
    if word.as_str().is_empty() {
        return Err(DicFault::At {
            line: number,
            why: DicWhy::EmptyWord,
        });
    }
    match flags_of(alloc, affixes, known, flag_text) {
        Ok(flags) => Ok(FoundEntry { word, flags }),
        Err(fault) => Err(told_at(number, fault)),
    }
}

/// What is told of a fault of flags in the line with this number.
fn told_at(number: u64, fault: FlagFault) -> DicFault
    ensures { result ≡ told_at number fault }
{
    let why = match fault {
        FlagFault::BadFlag => DicWhy::BadFlag,
        FlagFault::BadAlias => DicWhy::BadAlias,
        FlagFault::NoMemory => return DicFault::NoMemory,
    };
    DicFault::At { line: number, why }
}

/// The word of an entry, without the characters to ignore, and the text of its flags. A word that
/// stands in the entry as it is, is not copied.
fn read_word<'a>(
    alloc: Global,
    ignore: &[char],
    entry: &'a str,
) -> Result<(Word<'a>, &'a str), NoMemory>
    ensures word { IfOk result (λ parts.
        chars (bytes_of parts.0) ≡ without_ignored ignore.now (whole_word entry.now)) }
    ensures flags { IfOk result (λ parts. parts.1.now ≡ flag_text_of_entry entry.now) }
{
    if let Some((word, flags)) = written_word(entry) {
        if has_no_ignored(ignore, word) {
            return Ok((Word::Written(word), flags));
        }
    }
    let mut whole = Items::new(alloc);
    let flags = push_word(alloc, &mut whole, entry)?;
    let word = drop_ignored(alloc, ignore, &whole)?;
    Ok((Word::Made(text_of(alloc, &word)?), flags))
}

/// The word of an entry and the text of its flags, where both stand in it as they are. There is no
/// answer where the entry begins with a slash or a backslash stands before its first one.
fn written_word(entry: &str) -> Option<(&str, &str)>
    ensures word { IfSome result (λ parts. chars parts.0.now ≡ whole_word entry.now) }
    ensures flags { IfSome result (λ parts. parts.1.now ≡ flag_text_of_entry entry.now) }
{
    if entry.starts_with('/') {
        return None;
    }
    let (word, flags) = split_plain(entry)?;
    Some((word, flags.unwrap_or("")))
}

/// Adds the characters of an entry's word, and gives the text of its flags. A slash at the front of
/// the entry is one of its word.
fn push_word<'a>(alloc: Global, word: &mut Chars, entry: &'a str) -> Result<&'a str, NoMemory>
    ensures word { OnOk result (word.new ≡ word.old ++ whole_word entry.now) }
    ensures flags { IfOk result (λ flags. flags.now ≡ flag_text_of_entry entry.now) }
{
    let mut rest = entry;
    if let Some(more) = entry.strip_prefix('/') {
        word.push('/')?;
        rest = more;
    }
    Ok(push_before_slash(alloc, word, rest)?.unwrap_or(""))
}
