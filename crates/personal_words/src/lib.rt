//! Personal words: a list that adds words to a dictionary and prohibits words.
//!
//! Each line has one item, except lines that are blank; spaces at its ends are dropped. A star at
//! its front prohibits the word. The word ends before its first slash that is not its first
//! character and that no backslash precedes; `\/` is a slash of the word. Behind that slash stands
//! the model, a word whose flags the word takes too. The characters to ignore are left out of
//! both.
#![tactic(auto)]

ghost use Rattle.std.specs.Prelude.{◌≡◌, ◌<◌, ◌≤◌, ◌^◌, List, ℕ, [], length, map, All, Some, None};
ghost use Rattle.std.specs.Prelude.{IfOk, IfErr};
ghost use Rattle.std.specs.List.{AllPairs};
ghost use Rattle.mark_types.specs.text_lines.Lines.{IsInside};
ghost use Rattle.mark_types.specs.spell_types.declared.Affixes.{Affixes};
ghost use Rattle.personal_words.specs.Lists.{AreOwn};
ghost use Rattle.personal_words.specs.Faults.{OwnFaultAtLine, own_passes, first_own_fault};
ghost use Rattle.personal_words.specs.Faults.{IsLeastOwnFault, OwnBad};
ghost use Rattle.personal_words.specs.Faults.{listed_items, listed_at, item_read, items_read};
ghost use Rattle.personal_words.specs.Faults.{own_read};
ghost use Rattle.personal_words.specs.Faults.{IsOwnListRead, OwnReads, OwnRefuses};

use crate::cutting::is_blank;
use crate::items::read_item;
use crate::list::ITEM_LIMIT;
use mark_types::lists::{Items, NoMemory};
use mark_types::spell_types::Affixes;
use mark_types::text_lines::found::Line;
use mark_types::text_lines::{line_text, lines};
use std::alloc::Global;

mod copies;
mod crossing;
mod cutting;
mod dictionary;
mod extending;
mod faults;
mod items;
mod list;
mod models;

pub use copies::copied_affixes;
pub use dictionary::Dictionary;
pub use extending::{extend, extend_with, prohibited_words_are_barred};
pub use faults::{OwnFault, OwnLineFault, OwnLineWhy, OwnWhy};
pub use items::OwnItem;
pub use list::OwnList;

/// The items of a personal list in their order, or its first fault. `affixes` has the characters to
/// ignore. A line that is not UTF-8 is told before all other faults; of those the one at the lowest
/// line is told, and at one line the one whose cause stands first in `OwnWhy`.
pub fn read_own(alloc: Global, affixes: &Affixes, bytes: &[u8]) -> Result<OwnList, OwnFault>
    ensures read { IfOk result (OwnReads affixes.now bytes.now) }
    ensures refused { IfErr result (OwnRefuses affixes.now bytes.now) }

    // The same as one value, so that a caller can go on with it.
    ensures value { IsOwnListRead (own_read affixes.now bytes.now) result }
{
    read_file(alloc, affixes, bytes)
}

/// The fault that is told of a list is the least of those that the first pass with a fault has, and
/// a list of which none is told has none.
pub fn first_fault_is_least()
    ensures none { (affixes : Affixes) (bytes : List ℕ) → first_own_fault (own_passes affixes bytes)
        ≡ None
        → (pass : ℕ) (fault : OwnFaultAtLine) → ¬ OwnBad affixes bytes pass fault }
    ensures least { (affixes : Affixes) (bytes : List ℕ) (fault : OwnFaultAtLine)
        → first_own_fault (own_passes affixes bytes) ≡ Some fault
        → (pass : ℕ) × IsLeastOwnFault (OwnBad affixes bytes pass) fault }
{}

/// The items of a file, or its first fault.
fn read_file(alloc: Global, affixes: &Affixes, bytes: &[u8]) -> Result<OwnList, OwnFault>
    ensures { IsOwnListRead (own_read affixes.now bytes.now) result }
{
    let found = lines(alloc, bytes)?;
    if let Some(line) = found.bad {
        return Err(OwnFault::At {
            line,
            why: OwnWhy::NotUtf8,
        });
    }
    let items = read_items(alloc, affixes, bytes, &found.good, ITEM_LIMIT)?;
    Ok(OwnList::from_items(items))
}

/// The items of these lines, of which there may be so many.
fn read_items(
    alloc: Global,
    affixes: &Affixes,
    bytes: &[u8],
    lines: &[Line],
    limit: usize,
) -> Result<Items<OwnItem>, OwnFault>
    requires inside { All (IsInside bytes.now) lines.now }
    requires rising { AllPairs (λ line later. line.number < later.number) lines.now }
    ensures read { IsOwnListRead (items_read affixes.now limit (listed_items bytes.now lines.now)) result }
    ensures few { IfOk result (λ items. length items ≤ limit) }
    ensures words { IfOk result (All (λ item. 0 < length item.word)) }
{
    let mut items = Items::new(alloc);
    for line in lines {
        let text = line_text(bytes, line);
        if is_blank(text) {
            continue;
        }
        let item = read_at(alloc, affixes, line.number, text)?;
        if items.len() == limit {
            return Err(OwnFault::At {
                line: line.number,
                why: OwnWhy::TooMany,
            });
        }
        items.push(item)?;
    }
    Ok(items)
}

/// The item of the line with this number, which is not blank.
fn read_at(alloc: Global, affixes: &Affixes, number: u64, text: &str) -> Result<OwnItem, OwnFault>
    ensures read { IsOwnListRead (item_read affixes.now (listed_at number text.now)) result }
    ensures word { IfOk result (λ item. 0 < length item.word) }
{
    match read_item(alloc, affixes, text)? {
        Some(item) => Ok(item),
        None => Err(OwnFault::At {
            line: number,
            why: OwnWhy::EmptyWord,
        }),
    }
}
