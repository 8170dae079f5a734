//! A personal list, and what one line adds to it.

ghost use Rattle.std.specs.Prelude.{◌≡◌, ◌==◌, [], length, OnErr, IfOk, IfErr};
ghost use Rattle.personal_words.specs.Lists.{AreOwn, added, IsAdded, IsOwnLineRefused};

use crate::cutting::is_blank;
use crate::faults::{OwnLineFault, OwnLineWhy};
use crate::items::{OwnItem, read_item};
use mark_types::lists::{Copied, Items, NoMemory};
use mark_types::spell_types::Affixes;
use std::alloc::Global;
use std::marker::Model;

/// How many items a list may have.
pub(crate) const ITEM_LIMIT: usize = 10_000;

/// The words that a person adds and prohibits. Contracts see the list as its items: 10,000 at most,
/// each with a word.
#[derive(Debug, Drop)]
pub struct OwnList {
    items: Items<OwnItem>,
}

impl Model for OwnList {
    ghost use Rattle.std.specs.Prelude.{List};
    ghost use Rattle.personal_words.specs.declared.items.OwnItem.{OwnItem};
    ghost use Rattle.personal_words.specs.Lists.{AreOwn};

    ghost Value = { List OwnItem };

    ghost view = { λ inside. inside.items };

    ghost invariant = { λ inside. AreOwn inside.items };
}

impl OwnList {
    /// The list without an item. It takes no memory before the first `add`.
    pub fn new(alloc: Global) -> OwnList
        ensures { result ≡ [] }
    {
        OwnList {
            items: Items::new(alloc),
        }
    }

    /// The list of these items.
    pub(crate) fn from_items(items: Items<OwnItem>) -> OwnList
        requires { AreOwn items }
        ensures { result ≡ items }
    {
        OwnList { items }
    }

    /// The items, from the first that was added on.
    pub fn as_slice(&self) -> &[OwnItem]
        ensures items { result.now ≡ self.now }
        ensures own { AreOwn self.now }
    {
        self.items.as_slice()
    }

    /// How many items there are.
    pub fn len(&self) -> usize
        ensures { result ≡ length self.now }
    {
        self.items.len()
    }

    /// Whether there is no item.
    pub fn is_empty(&self) -> bool
        ensures { result ≡ (length self.now == 0) }
    {
        self.items.is_empty()
    }

    /// Adds the item of a line, and tells whether it has one: a blank line has none. The characters
    /// to ignore are those of `affixes`. Where the line is refused or memory is wanting, the list
    /// stays.
    #[tactic(auto, unfolding(crate::specs::Lists::added))]
    pub fn add(
        &mut self,
        alloc: Global,
        affixes: &Affixes,
        line: &str,
    ) -> Result<bool, OwnLineFault>
        ensures added { IfOk result
            (λ has. IsAdded (added affixes.now self.old line.now) self.old has self.new) }
        ensures refused { IfErr result (IsOwnLineRefused (added affixes.now self.old line.now)) }
        ensures err { OnErr result (self.new ≡ self.old) }
    {
        if is_blank(line) {
            return Ok(false);
        }
        let Some(item) = read_item(alloc, affixes, line)? else {
            return Err(OwnLineFault::Why(OwnLineWhy::EmptyWord));
        };
        if self.items.len() == ITEM_LIMIT {
            return Err(OwnLineFault::Why(OwnLineWhy::TooMany));
        }
        self.items.push(item)?;
        Ok(true)
    }
}

impl Copied for OwnList {
    fn copy(&self, alloc: Global) -> Result<OwnList, NoMemory> {
        Ok(OwnList {
            items: self.items.copy(alloc)?,
        })
    }
}
