//! How it is found out whether a word is barred.

ghost use Rattle.std.specs.Prelude.{◌≡◌, IfOk};
ghost use Rattle.std.specs.List.{list_any};
ghost use Rattle.affix_strip.specs.Tables.{IsBarring, is_forbidden_entry, takes_affixes};

use crate::rule_flags::flags_of_classes;
use spell_types::lists::NoMemory;
use spell_types::{FlagSet, Lexicon, has, sets_have_their_flags};
use std::alloc::Global;

/// Where the derivations of forbidden words are found.
#[derive(Clone, Copy)]
pub(crate) enum Barring {
    /// No entry is forbidden.
    Nowhere,
    /// No forbidden entry has the flag of an affix class, so that it allows no affix.
    AtEntries,
    /// Affixes may be attached to a forbidden entry.
    AtForms,
}

/// Where the derivations of forbidden words are found in a dictionary.
pub(crate) fn barring_of(alloc: Global, lexicon: &Lexicon) -> Result<Barring, NoMemory>
    ensures { IfOk result (IsBarring lexicon.now) }
{
    if !one_is_forbidden(lexicon) {
        return Ok(Barring::Nowhere);
    }
    let classes = flags_of_classes(alloc, &lexicon.affixes.rules)?;
    if one_takes_affixes(alloc, lexicon, &classes)? {
        return Ok(Barring::AtForms);
    }
    sets_have_their_flags();
    Ok(Barring::AtEntries)
}

/// Whether an entry is forbidden. Without a flag for them none is.
fn one_is_forbidden(lexicon: &Lexicon) -> bool
    ensures { result ≡ list_any (is_forbidden_entry lexicon.now) lexicon.now.entries }
{
    let forbidden = lexicon.affixes.signs.forbidden;
    if forbidden.is_none() {
        return false;
    }
    let entries = &lexicon.entries;
    for place in 0..entries.len() {
        if has(entries.at(place).flags(), forbidden) {
            return true;
        }
    }
    false
}

/// Whether a forbidden entry has one of these flags.
fn one_takes_affixes(alloc: Global, lexicon: &Lexicon, classes: &FlagSet) -> Result<bool, NoMemory>
    ensures { IfOk result (λ told.
        told ≡ list_any (takes_affixes lexicon.now classes.now) lexicon.now.entries) }
{
    let forbidden = lexicon.affixes.signs.forbidden;
    let entries = &lexicon.entries;
    let having = entries.having(alloc, classes)?;
    for place in 0..entries.len() {
        if has(entries.at(place).flags(), forbidden) && having[place] {
            return Ok(true);
        }
    }
    Ok(false)
}
