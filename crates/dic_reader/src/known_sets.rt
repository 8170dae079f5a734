//! The flag texts of the entries that were read before.

ghost use Rattle.std.specs.Prelude.{◌≡◌, ◌≢◌, ◌++◌, ◌∷◌, [], ℕ, List, OnOk, IfOk, IfErr, Err};
ghost use Rattle.spell_types.specs.declared.Affixes.{Affixes};
ghost use Rattle.spell_types.specs.declared.Entry.{Entry};
ghost use Rattle.flag_sets.specs.FlagTexts.{flag_field};
ghost use Rattle.dic_reader.specs.KnownSets.{AreKnown, AreFlagsOf, IsLikePlaced, entry_of_found};

use crate::words::Word;
use flag_sets::{FlagFault, read_flags};
use indexmap::IndexMap;
use spell_types::{Affixes, Entries, FlagSet, alias_sets};
use std::alloc::Global;
use text_lines::lists::NoMemory;

/// At each flag text that was read, the place of an entry that has its flags.
pub(crate) type KnownSets<'a> = IndexMap<&'a str, usize>;

/// The flags of an entry.
#[derive(Drop)]
pub(crate) enum Flags<'a> {
    /// Those of the entry with this place.
    Like(usize),
    /// The set of this text, which no entry before has.
    New(&'a str, FlagSet),
}

/// An entry that was read.
#[derive(Drop)]
pub(crate) struct FoundEntry<'a> {
    pub(crate) word: Word<'a>,
    pub(crate) flags: Flags<'a>,
}

/// The flags that a text lists or names. A text that an entry before has is not read once more.
pub(crate) fn flags_of<'a>(
    alloc: Global,
    affixes: &Affixes,
    known: &KnownSets<'a>,
    text: &'a str,
) -> Result<Flags<'a>, FlagFault>
    ensures set { (entries : List Entry) → AreKnown affixes.now entries known.now
        → IfOk result (AreFlagsOf affixes.now entries text.now) }
    ensures fault { IfErr result
        (λ fault. fault ≢ FlagFault.NoMemory
        → flag_field affixes.now.kind affixes.now.aliases text.now ≡ Err fault) }
{
    if let Some(place) = known.get(text) {
        return Ok(Flags::Like(*place));
    }
    let set = read_flags(alloc, affixes.kind, alias_sets(&affixes.aliases), text)?;
    Ok(Flags::New(text, set))
}

/// Adds an entry behind those that were read.
pub(crate) fn add<'a>(
    entries: &mut Entries,
    known: &mut KnownSets<'a>,
    found: FoundEntry<'a>,
) -> Result<(), NoMemory>
    requires { IsLikePlaced entries.old found.flags }
    ensures added { OnOk result
        (entries.new ≡ entries.old ++ entry_of_found entries.old found.entry ∷ []) }
    ensures known { (affixes : Affixes) (text : List ℕ) → AreKnown affixes entries.old known.old
        → AreFlagsOf affixes entries.old text found.entry.flags
        → OnOk result (AreKnown affixes entries.new known.new) }
{
    let FoundEntry { word, flags } = found;
    match flags {
        Flags::Like(place) => entries.push_like(word.as_str(), place),
        Flags::New(text, set) => {
            known.insert(text, entries.len())?;
            entries.push(word.as_str(), set)
        }
    }
}
