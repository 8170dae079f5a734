//! A dictionary with the words of a personal list.

ghost use Rattle.std.specs.Prelude.{◌≡◌, ◌≤◌, ◌++◌, ◌∷◌, [], length, map, OnOk, IfOk, IfSome, All};
ghost use Rattle.std.specs.Option.{option_map_or};
ghost use Rattle.mark_types.specs.spell_types.declared.Lexicon.{Lexicon};
ghost use Rattle.std.specs.Prelude.{List, Contains, None, true, false};
ghost use Rattle.mark_types.specs.spell_types.Flags.{has};
ghost use Rattle.mark_types.specs.spell_types.Licences.{is_barred};
ghost use Rattle.personal_words.specs.declared.items.OwnItem.{OwnItem};
ghost use Rattle.mark_types.specs.spell_types.Sanity.{IsSane, HasOrdinaryFlags, HaveOrdinaryFlags};
ghost use Rattle.personal_words.specs.Extended.{extended, entry_of_item, forbidding};
ghost use Rattle.personal_words.specs.Extended.{with_forbidden};
ghost use Rattle.personal_words.specs.Models.{HasModel, AreLike, flags_kept};

use crate::copies::copied_affixes;
use crate::items::OwnItem;
use crate::list::OwnList;
use crate::models::{Models, models_of};
use mark_types::lists::{Copied, Items, NoMemory};
use mark_types::spell_types::{Affixes, Chars, Entries, Entry, Flag, FlagSet, Lexicon, text_of};
use std::alloc::Global;

/// A flag that no file can give.
const LEFT_OVER: Flag = Flag(u64::MAX);

/// The dictionary with one entry more for each item of a personal list, behind its own and in their
/// order. A prohibited word has the flag of forbidden words alone. A word with a model has the
/// flags of the dictionary's first entry with the word of the model. Every other word has none.
/// Where the dictionary has no flag of forbidden words, it gets one that no file can give.
pub fn extend(alloc: Global, lexicon: &Lexicon, own: &OwnList) -> Result<Lexicon, NoMemory>
    requires sane { IsSane lexicon.now }
    requires few { length lexicon.now.entries ≤ 1000000 }
    requires ordinary_affixes { HasOrdinaryFlags lexicon.now.affixes }
    requires ordinary_entries { HaveOrdinaryFlags lexicon.now.entries }
    ensures made { IfOk result (λ made. made ≡ extended lexicon.now own.now) }
    ensures sane { IfOk result IsSane }
{
    let copied = copied(alloc, lexicon, own.len())?;
    extend_with(alloc, copied, own)
}

/// A copy of a dictionary, with room for so many entries more.
fn copied(alloc: Global, lexicon: &Lexicon, more: usize) -> Result<Lexicon, NoMemory>
    ensures { IfOk result (λ made. made ≡ lexicon.now) }
{
    let affixes = copied_affixes(alloc, &lexicon.affixes, lexicon.affixes.signs.forbidden)?;
    let count = lexicon.entries.len();
    let entries = lexicon.entries.copy_front(alloc, count, more)?;
    Ok(Lexicon { affixes, entries })
}

/// The same of a dictionary that is given away, without a copy of it.
pub fn extend_with(alloc: Global, lexicon: Lexicon, own: &OwnList) -> Result<Lexicon, NoMemory>
    requires sane { IsSane lexicon }
    requires few { length lexicon.entries ≤ 1000000 }
    requires ordinary_affixes { HasOrdinaryFlags lexicon.affixes }
    requires ordinary_entries { HaveOrdinaryFlags lexicon.entries }
    ensures made { IfOk result (λ made. made ≡ extended lexicon own.now) }
    ensures sane { IfOk result IsSane }
{
    let flag = lexicon.affixes.signs.forbidden.unwrap_or(LEFT_OVER);
    let more = own_entries(alloc, &lexicon.entries, flag, own.as_slice())?;
    let Lexicon { affixes, entries } = lexicon;
    Ok(Lexicon {
        affixes: with_forbidden(affixes, flag),
        entries: joined(alloc, entries, more)?,
    })
}

/// The affixes with this flag as that of forbidden words.
fn with_forbidden(affixes: Affixes, flag: Flag) -> Affixes
    ensures { result ≡ with_forbidden affixes flag }
{
    let mut affixes = affixes;
    affixes.signs.forbidden = Some(flag);
    affixes
}

/// Entries, and these behind them.
fn joined(alloc: Global, entries: Entries, more: Vec<Entry>) -> Result<Entries, NoMemory>
    ensures { IfOk result (λ made. made ≡ entries ++ more.items) }
{
    let mut joined = entries;
    for entry in more {
        let Entry { word, flags } = entry;
        joined.push(text_of(alloc, &word)?.as_str(), flags)?;
    }
    Ok(joined)
}

/// A word that a list prohibits is barred in the dictionary with that list's words, whatever other
/// entries have the word. NEEDAFFIX may not be the flag of forbidden words too, for then no such
/// entry stands without an affix. A flag that no file gives is never that of NEEDAFFIX.
pub fn prohibited_words_are_barred()
    ensures barred { (lexicon : Lexicon) (own : List OwnItem) (item : OwnItem)
        → Contains own item → item.prohibits ≡ true
        → has (forbidding lexicon ∷ []) lexicon.affixes.signs.need_affix ≡ false
        → is_barred (extended lexicon own) item.word ≡ true }
    ensures other { (lexicon : Lexicon) → HasOrdinaryFlags lexicon.affixes
        → lexicon.affixes.signs.forbidden ≡ None
        → has (forbidding lexicon ∷ []) lexicon.affixes.signs.need_affix ≡ false }
{}

/// One entry for each item, where these are the entries of the dictionary.
fn own_entries(
    alloc: Global,
    entries: &Entries,
    flag: Flag,
    items: &[OwnItem],
) -> Result<Vec<Entry>, NoMemory>
    ensures { (lexicon : Lexicon) → entries.now ≡ lexicon.entries → flag ≡ forbidding lexicon
        → IfOk result (λ made. made.items ≡ map (entry_of_item lexicon) items.now) }
{
    let models = models_of(alloc, entries, items)?;
    let mut barred = FlagSet::new(alloc);
    barred.insert(flag)?;
    let mut made = Vec::with_capacity(alloc, items.len())?;
    for item in items {
        made.push(entry_of_item(alloc, &models, &barred, item)?)?;
    }
    Ok(made)
}

/// The entry of an item. `barred` has the flag of forbidden words alone.
fn entry_of_item(
    alloc: Global,
    models: &Models,
    barred: &FlagSet,
    item: &OwnItem,
) -> Result<Entry, NoMemory>
    requires { HasModel models.now item.now }
    ensures { IfOk result (λ made. (lexicon : Lexicon) → AreLike lexicon.entries models.now
        → barred.now ≡ forbidding lexicon ∷ [] → made ≡ entry_of_item lexicon item.now) }
{
    let word = item.word.copy(alloc)?;
    if item.prohibits {
        let flags = barred.copy(alloc)?;
        return Ok(Entry { word, flags });
    }
    let flags = flags_of(alloc, models, &item.model)?;
    Ok(Entry { word, flags })
}

/// The flags of a model, and none where none is named.
fn flags_of(alloc: Global, models: &Models, model: &Option<Chars>) -> Result<FlagSet, NoMemory>
    ensures { IfOk result (λ made. made ≡ option_map_or (flags_kept models.now) model.now []) }
{
    match model {
        None => Ok(FlagSet::new(alloc)),
        Some(text) => flags_kept(alloc, models, text),
    }
}

/// The flags that are kept at a text, and none where there are none.
fn flags_kept(alloc: Global, models: &Models, text: &Chars) -> Result<FlagSet, NoMemory>
    ensures { IfOk result (λ made. made ≡ flags_kept models.now text.now) }
{
    match models.get(text) {
        None => Ok(FlagSet::new(alloc)),
        Some(flags) => flags.copy(alloc),
    }
}
