//! What a line of a personal list says.

ghost use Rattle.std.specs.Prelude.{◌≡◌, ◌++◌, ◌<◌, length, true, false, None, Some, IfSome, OnOk};
ghost use Rattle.std.specs.Prelude.{IfOk, if◌then◌else◌};
ghost use Rattle.std.specs.Option.{option_copied, option_map, option_map_or};
ghost use Rattle.std.specs.Str.{chars};
ghost use Rattle.personal_words.specs.Items.{word_text, model_text, kept_characters, prohibiting};
ghost use Rattle.personal_words.specs.Items.{adding};
ghost use Rattle.personal_words.specs.Items.{item_said, item_of, lacks_text, is_nothing};

use crate::cutting::trimmed;
use conversions::drop_ignored;
use flag_sets::push_before_slash;
use mark_types::lists::{Copied, Items, NoMemory};
use mark_types::spell_types::{Affixes, Chars, chars_of};
use std::alloc::Global;

/// One word of a personal list.
#[derive(Debug, Drop, PartialEq, Eq)]
pub struct OwnItem {
    /// The word by its characters.
    pub word: Chars,
    /// The word whose flags the word takes too, if one is named.
    pub model: Option<Chars>,
    /// Whether the word is prohibited, and not added.
    pub prohibits: bool,
}

impl Copied for OwnItem {
    fn copy(&self, alloc: Global) -> Result<OwnItem, NoMemory> {
        Ok(OwnItem {
            word: self.word.copy(alloc)?,
            model: copied_model(alloc, &self.model)?,
            prohibits: self.prohibits,
        })
    }
}

fn copied_model(alloc: Global, model: &Option<Chars>) -> Result<Option<Chars>, NoMemory>
    ensures { IfOk result (λ made. made ≡ model.now) }
{
    match model {
        None => Ok(None),
        Some(text) => Ok(Some(text.copy(alloc)?)),
    }
}

/// The item of a line that is not blank. It is none where the word, or the model behind a slash,
/// has no character.
pub(crate) fn read_item(
    alloc: Global,
    affixes: &Affixes,
    line: &str,
) -> Result<Option<OwnItem>, NoMemory>
    ensures item { IfOk result (λ made. made
        ≡ (if lacks_text (item_of affixes.now line.now) then None
        else Some (item_of affixes.now line.now))) }
    ensures word { IfOk result (λ made. IfSome made (λ item. 0 < length item.word)) }
{
    let item = item_said(alloc, &affixes.ignore, trimmed(line))?;
    if lacks_text(&item) {
        return Ok(None);
    }
    Ok(Some(item))
}

fn lacks_text(item: &OwnItem) -> bool
    ensures { result ≡ lacks_text item.now }
{
    item.word.is_empty() || is_empty_model(&item.model)
}

/// Whether there is a model, and it has no character.
fn is_empty_model(model: &Option<Chars>) -> bool
    ensures { result ≡ option_map_or is_nothing model.now false }
{
    match model {
        None => false,
        Some(text) => text.is_empty(),
    }
}

/// What an item without spaces at its ends says.
#[tactic(auto, unfolding(crate::specs::Items::item_said))]
fn item_said(alloc: Global, ignore: &[char], text: &str) -> Result<OwnItem, NoMemory>
    ensures { IfOk result (λ made. made ≡ item_said ignore.now text.now) }
{
    match text.strip_prefix('*') {
        Some(said) => prohibiting(alloc, ignore, said),
        None => adding(alloc, ignore, text),
    }
}

/// The item that prohibits its word. What stands behind a slash is passed over.
fn prohibiting(alloc: Global, ignore: &[char], said: &str) -> Result<OwnItem, NoMemory>
    ensures { IfOk result (λ made. made ≡ prohibiting ignore.now said.now) }
{
    let mut whole = Items::new(alloc);
    push_word(alloc, &mut whole, said)?;
    Ok(OwnItem {
        word: drop_ignored(alloc, ignore, &whole)?,
        model: None,
        prohibits: true,
    })
}

/// The item that adds its word.
fn adding(alloc: Global, ignore: &[char], said: &str) -> Result<OwnItem, NoMemory>
    ensures { IfOk result (λ made. made ≡ adding ignore.now said.now) }
{
    let mut whole = Items::new(alloc);
    let model = push_word(alloc, &mut whole, said)?;
    Ok(OwnItem {
        word: drop_ignored(alloc, ignore, &whole)?,
        model: model_of(alloc, ignore, model)?,
        prohibits: false,
    })
}

/// The characters of a model, without those to ignore.
fn model_of(alloc: Global, ignore: &[char], text: Option<&str>) -> Result<Option<Chars>, NoMemory>
    ensures { IfOk result (λ made. made
        ≡ option_map (kept_characters ignore.now) (option_copied text.entry)) }
{
    match text {
        None => Ok(None),
        Some(text) => {
            let whole = chars_of(alloc, text)?;
            Ok(Some(drop_ignored(alloc, ignore, &whole)?))
        }
    }
}

/// Adds the characters of an item's word, and gives the text behind its slash. A slash at the front
/// of the item is one of its word.
fn push_word<'a>(
    alloc: Global,
    word: &mut Chars,
    said: &'a str,
) -> Result<Option<&'a str>, NoMemory>
    ensures word { OnOk result (word.new ≡ word.old ++ chars (word_text said.now)) }
    ensures model { IfOk result (λ model. option_copied model ≡ model_text said.now) }
{
    let mut rest = said;
    if let Some(more) = said.strip_prefix('/') {
        word.push('/')?;
        rest = more;
    }
    push_before_slash(alloc, word, rest)
}
