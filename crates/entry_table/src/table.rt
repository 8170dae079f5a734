//! Entries by a hash of their words, in two halves, which two threads may make.

ghost use Rattle.std.specs.Prelude.{◌≡◌, ◌++◌, [], ◌∷◌, ◌^◌, ◌<◌, ◌%◌, ℕ, List, false, length};
ghost use Rattle.std.specs.Prelude.{IfOk, OnOk};
ghost use Rattle.spell_types.specs.declared.Entry.{Entry};
ghost use Rattle.entry_table.specs.Hashes.{IsHashed, hash_of};
ghost use Rattle.entry_table.specs.EntryTable.{HasEntries, HasHalf, AreEntriesOf};

use crate::half::{Half, Places};
use crate::hashed::{Hashed, fold, hash_of};
use spell_types::Entries;
use spell_types::lists::NoMemory;
use std::alloc::Global;

/// The entries of a dictionary by a hash of their words. They are not kept: each call is given
/// those that the table was made of.
#[derive(Drop)]
pub struct EntryTable {
    even: Half,
    odd: Half,
}

impl EntryTable {
    /// The table of these entries. It fails only where memory is wanting.
    pub fn new(alloc: Global, entries: &Entries) -> Result<EntryTable, NoMemory>
        requires { length entries.now < 2 ^ 32 }
        ensures { IfOk result (HasEntries entries.now) }
    {
        let even = Half::empty(alloc, entries.len(), 0)?;
        let odd = Half::empty(alloc, entries.len(), 1)?;
        let mut table = EntryTable::of(even, odd);
        for place in 0..entries.len() {
            table.add(hash_of(entries.at(place).word()), place as u32)?;
        }
        Ok(table)
    }

    /// Adds the entry with a place, which is the one behind the entries so far, by the hash of its
    /// word.
    fn add(&mut self, hash: u64, place: u32) -> Result<(), NoMemory>
        ensures { OnOk result
            ((entries : List Entry) (entry : Entry) → length entries ≡ place
            → hash ≡ hash_of entry.word → HasEntries entries self.old
            → HasEntries (entries ++ entry ∷ []) self.new) }
    {
        self.even.add(hash, place)?;
        self.odd.add(hash, place)?;
        Ok(())
    }

    /// The table of two halves: of the entries whose words have even hashes, and of those whose
    /// words have odd ones.
    pub fn of(even: Half, odd: Half) -> EntryTable
        ensures { (entries : List Entry) → HasHalf 0 entries even → HasHalf 1 entries odd
            → HasEntries entries result }
    {
        EntryTable { even, odd }
    }

    /// Whether `front` and `back` joined may be an entry's word. Where the answer is no, they are
    /// none.
    pub fn may_have(&self, front: Hashed<'_>, back: &[char]) -> bool
        requires { IsHashed front }
        ensures { (entries : List Entry) → HasEntries entries self.now → result ≡ false
            → AreEntriesOf entries (front.entry.text.now ++ back.now) [] }
    {
        let hash = fold(front.hash, back);
        self.half_of(hash).may_have(hash)
    }

    /// The places of the entries whose word is `front` and `back` joined, from the last one on.
    pub fn places_of(
        &self,
        alloc: Global,
        entries: &Entries,
        front: Hashed<'_>,
        back: &[char],
    ) -> Result<Places, NoMemory>
        requires entries { HasEntries entries.now self.now }
        requires front { IsHashed front }
        ensures { IfOk result
            (λ places. AreEntriesOf entries.now (front.entry.text.now ++ back.now) places.items) }
    {
        let hash = fold(front.hash, back);
        self.half_of(hash)
            .places_of(alloc, entries, hash, front.text, back)
    }

    /// The half for a hash.
    fn half_of(&self, hash: u64) -> &Half
        ensures { (entries : List Entry) → HasEntries entries self.now
            → HasHalf (hash % 2) entries result.now }
    {
        if hash % 2 == 0 { &self.even } else { &self.odd }
    }
}
