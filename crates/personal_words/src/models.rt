//! The flags of the words that items name as their models.

ghost use Rattle.std.specs.Prelude.{◌≡◌, [], All, OnOk, IfOk};
ghost use Rattle.personal_words.specs.declared.items.OwnItem.{OwnItem};
ghost use Rattle.personal_words.specs.Models.{HasModel, AreLike, Puts};

use crate::items::OwnItem;
use indexmap::IndexMap;
use mark_types::lists::{Copied, NoMemory};
use mark_types::spell_types::{Chars, Entries, FlagSet, chars_of};
use std::alloc::Global;

/// The flags of models.
pub(crate) type Models = IndexMap<Chars, FlagSet>;

/// The flags of each model of these items: those of the first entry whose word it is. The entries
/// are gone through once.
pub(crate) fn models_of(
    alloc: Global,
    entries: &Entries,
    items: &[OwnItem],
) -> Result<Models, NoMemory>
    ensures each { IfOk result (λ models. All (HasModel models) items.now) }
    ensures like { IfOk result (AreLike entries.now) }
{
    let mut models = named_models(alloc, items)?;
    fill(alloc, &mut models, entries)?;
    Ok(models)
}

/// The models of these items, without flags.
fn named_models(alloc: Global, items: &[OwnItem]) -> Result<Models, NoMemory>
    ensures each { IfOk result (λ models. All (HasModel models) items.now) }
    ensures like { IfOk result (AreLike []) }
{
    let mut models = IndexMap::new(alloc);
    for item in items {
        if let Some(model) = &item.model {
            put(&mut models, model.copy(alloc)?, FlagSet::new(alloc))?;
        }
    }
    Ok(models)
}

/// Gives models the flags of their first entries. The entries are gone through from the last to the
/// first, so that the first is the one that stays.
fn fill(alloc: Global, models: &mut Models, entries: &Entries) -> Result<(), NoMemory>
    requires { AreLike [] models.old }
    ensures each { OnOk result
        ((item : OwnItem) → HasModel models.old item → HasModel models.new item) }
    ensures like { OnOk result (AreLike entries.now models.new) }
{
    if models.is_empty() {
        return Ok(());
    }
    let mut place = entries.len();
    while place > 0 {
        place -= 1;
        let entry = entries.at(place);
        let word = chars_of(alloc, entry.word())?;
        if models.contains_key(&word) {
            put(models, word, entry.flags().copy(alloc)?)?;
        }
    }
    Ok(())
}

/// Puts the flags of a model in place of those that it had.
fn put(models: &mut Models, model: Chars, flags: FlagSet) -> Result<(), NoMemory>
    ensures { OnOk result (Puts models.old model flags models.new) }
{
    models.insert(model, flags)?;
    Ok(())
}
