//! One half of the table of entries: those whose words' hashes leave one remainder when they are
//! divided by two. A word is compared only with those of its hash, so no words are kept beside the
//! entries, and most that are no entry's word are known by a filter of the hashes.

ghost use Rattle.std.specs.Prelude.{◌≡◌, ◌++◌, [], ◌∷◌, ◌^◌, ◌<◌, ◌%◌, ℕ, List, true, false};
ghost use Rattle.std.specs.Prelude.{length};
ghost use Rattle.std.specs.Prelude.{nat_eq, slice_get, OnOk, IfOk};
ghost use Rattle.std.specs.Option.{option_flatten, option_map_or};
ghost use Rattle.std.specs.Str.{chars};
ghost use Rattle.indexmap.specs.IndexMap.{get};
ghost use Rattle.spell_types.specs.declared.Entry.{Entry};
ghost use Rattle.spell_types.specs.Cases.{is_same_word};
ghost use Rattle.entry_table.specs.Hashes.{hash_of};
ghost use Rattle.entry_table.specs.EntryTable.{has_hash, has_word, passes_at, last_where};
ghost use Rattle.entry_table.specs.EntryTable.{HasHalf, AreEntriesOf, Notes};

use crate::hashed::hash_of;
use indexmap::IndexMap;
use key_filter::KeyFilter;
use smallvec::SmallVec;
use spell_types::lists::NoMemory;
use spell_types::{Entries, is_spelled};
use std::alloc::Global;

/// Places of entries. Most words have one or two.
pub type Places = SmallVec<u32, 4>;

/// The entries of a dictionary by a hash of their words, as far as it leaves one remainder. They are
/// not kept: each call is given those that the half was made of. An entry is named by its place among
/// all of them, from 0.
#[derive(Drop)]
pub struct Half {
    /// What the hashes leave that are divided by two.
    remainder: u64,
    /// At each such hash the last place of an entry whose word has it.
    last: IndexMap<u64, u32>,
    /// At each place of an entry whose word has such a hash, the last one below it of an entry whose
    /// word has the same. None at other places.
    earlier: Vec<Option<u32>>,
    /// Such hashes: one that is not among them is not looked up.
    hashes: KeyFilter,
}

impl Half {
    /// The half of no entries for hashes that leave this remainder, with room for the half of so many.
    pub fn empty(alloc: Global, count: usize, remainder: u64) -> Result<Half, NoMemory>
        ensures { IfOk result (HasHalf remainder []) }
    {
        let room = room_of(count);
        let last = IndexMap::with_capacity(alloc, room)?;
        let earlier = Vec::with_capacity(alloc, count)?;
        let hashes = KeyFilter::new(alloc, room)?;
        Ok(Half {
            remainder,
            last,
            earlier,
            hashes,
        })
    }

    /// The half of these entries for hashes that leave this remainder. It fails only where memory is
    /// wanting.
    pub fn new(alloc: Global, entries: &Entries, remainder: u64) -> Result<Half, NoMemory>
        requires { length entries.now < 2 ^ 32 }
        ensures { IfOk result (HasHalf remainder entries.now) }
    {
        let mut half = Half::empty(alloc, entries.len(), remainder)?;
        for place in 0..entries.len() {
            half.add(hash_of(entries.at(place).word()), place as u32)?;
        }
        Ok(half)
    }

    /// Adds the entry with a place, which is the one behind the entries so far, by the hash of its
    /// word.
    pub fn add(&mut self, hash: u64, place: u32) -> Result<(), NoMemory>
        ensures { OnOk result
            ((remainder : ℕ) (entries : List Entry) (entry : Entry) → length entries ≡ place
            → hash ≡ hash_of entry.word → HasHalf remainder entries self.old
            → HasHalf remainder (entries ++ entry ∷ []) self.new) }
    {
        let earlier = self.note(hash, place)?;
        self.earlier.push(earlier)?;
        Ok(())
    }

    /// Notes the place of an entry whose word has a hash, if the half is for that. Gives the place
    /// that was the last one of the hash.
    fn note(&mut self, hash: u64, place: u32) -> Result<Option<u32>, NoMemory>
        ensures { IfOk result (Notes self.old self.new hash place) }
    {
        if hash % 2 != self.remainder {
            return Ok(None);
        }
        self.hashes.insert(hash);
        Ok(self.last.insert(hash, place)?)
    }

    /// Whether an entry's word may have a hash that the half is for. Where the answer is no, none
    /// has it.
    pub fn may_have(&self, hash: u64) -> bool
        ensures { (entries : List Entry) (word : List ℕ) → HasHalf (hash % 2) entries self.now
            → hash ≡ hash_of word → result ≡ false → AreEntriesOf entries word [] }
    {
        self.hashes.may_have(hash)
    }

    /// The places of the entries whose word is `front` and `back` joined, from the last one on. The
    /// hash is that of the word.
    pub fn places_of(
        &self,
        alloc: Global,
        entries: &Entries,
        hash: u64,
        front: &[char],
        back: &[char],
    ) -> Result<Places, NoMemory>
        requires entries { HasHalf (hash_of (front.now ++ back.now) % 2) entries.now self.now }
        requires hash { hash ≡ hash_of (front.now ++ back.now) }
        ensures { IfOk result
            (λ places. AreEntriesOf entries.now (front.now ++ back.now) places.items) }
    {
        let mut places = SmallVec::new(alloc);
        let mut next = self.last_of(entries, hash, front, back);
        while let Some(place) = next {
            places.push(place)?;
            next = self.before(entries, place, front, back);
        }
        Ok(places)
    }

    /// The last place of an entry whose word is `front` and `back` joined. The hash is that of the
    /// word.
    fn last_of(&self, entries: &Entries, hash: u64, front: &[char], back: &[char]) -> Option<u32>
        requires entries { HasHalf (hash_of (front.now ++ back.now) % 2) entries.now self.now }
        requires hash { hash ≡ hash_of (front.now ++ back.now) }
        ensures { result ≡ last_where (has_word (front.now ++ back.now)) entries.now
            (length entries.now) }
    {
        self.down_from(entries, self.last_with(hash), front, back)
    }

    /// The last place of an entry whose word has a hash that the half is for.
    fn last_with(&self, hash: u64) -> Option<u32>
        ensures { (entries : List Entry) → HasHalf (hash % 2) entries self.now
            → result ≡ get nat_eq self.now.last hash }
    {
        if !self.hashes.may_have(hash) {
            return None;
        }
        self.last.get(&hash).copied()
    }

    /// The last place of such an entry below a place where one stands.
    fn before(&self, entries: &Entries, place: u32, front: &[char], back: &[char]) -> Option<u32>
        requires entries { HasHalf (hash_of (front.now ++ back.now) % 2) entries.now self.now }
        requires place { passes_at (has_word (front.now ++ back.now)) entries.now place ≡ true }
        ensures { result ≡ last_where (has_word (front.now ++ back.now)) entries.now place }
    {
        self.down_from(entries, self.earlier_of(place), front, back)
    }

    /// The first place whose entry's word is `front` and `back` joined, from a place on down those
    /// of its hash.
    fn down_from(
        &self,
        entries: &Entries,
        start: Option<u32>,
        front: &[char],
        back: &[char],
    ) -> Option<u32>
        requires { HasHalf (hash_of (front.now ++ back.now) % 2) entries.now self.now }
        ensures { (bound : ℕ) → start ≡ last_where (has_hash (hash_of (front.now ++ back.now)))
            entries.now bound
            → result ≡ last_where (has_word (front.now ++ back.now)) entries.now bound }
    {
        let mut next = start;
        while let Some(place) = next {
            if is_word_at(entries, place, front, back) {
                return next;
            }
            next = self.earlier_of(place);
        }
        None
    }

    /// The last place below a place of an entry whose word has the same hash.
    fn earlier_of(&self, place: u32) -> Option<u32>
        ensures { result ≡ option_flatten (slice_get self.now.earlier.items place) }
    {
        self.earlier.get(place as usize).copied().flatten()
    }
}

/// Room for half of so many hashes, and for some more, since the halves differ.
fn room_of(entries: usize) -> usize {
    entries / 2 + entries / 16
}

/// Whether there is an entry at a place, and its word is `front` and `back` joined.
fn is_word_at(entries: &Entries, place: u32, front: &[char], back: &[char]) -> bool
    ensures { result ≡ passes_at (has_word (front.now ++ back.now)) entries.now place }
{
    match entries.get(place as usize) {
        None => false,
        Some(entry) => is_joined(entry.word(), front, back),
    }
}

/// Whether a word is `front` and `back` joined.
fn is_joined(word: &str, front: &[char], back: &[char]) -> bool
    ensures { result ≡ is_same_word (chars word.now) (front.now ++ back.now) }
{
    match rest_behind(word, front) {
        None => false,
        Some(rest) => is_spelled(rest, back),
    }
}

/// What stands in a text behind these characters, if it begins with them.
fn rest_behind<'a>(text: &'a str, front: &[char]) -> Option<&'a str>
    ensures { (back : List ℕ) → is_same_word (chars text.now) (front.now ++ back)
        ≡ option_map_or (λ rest. is_same_word (chars rest.now) back) result false }
{
    let mut left = text.chars();
    for c in front {
        match left.next() {
            None => return None,
            Some(first) => {
                if first != *c {
                    return None;
                }
            }
        }
    }
    Some(left.as_str())
}
