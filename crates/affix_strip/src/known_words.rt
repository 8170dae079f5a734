//! Some words by their hashes. Most texts begin with none of them, which their first characters tell.

ghost use Rattle.std.specs.Prelude.{◌≡◌, ◌+◌, ◌<◌, ◌≤◌, min, true, length, IfOk};
ghost use Rattle.std.specs.Str.{chars};
ghost use Rattle.key_filter.specs.Filter.{may_have};
ghost use Rattle.entry_table.specs.Hashes.{hash_of};
ghost use Rattle.affix_strip.specs.Inside.{AreWordsKnown, IsKnown, KeepsKnown, ReachesWords, ReachesWordsIf};

use crate::edges::Edge;
use entry_table::{START, fold};
use key_filter::KeyFilter;
use spell_types::lists::NoMemory;
use spell_types::{Entries, FlagSet};
use std::alloc::Global;

/// How long the fronts are that are kept of each word, at most.
const MOST_OF_HEAD: usize = 5;

/// How many times as many keys each filter has room for as there are words.
const ROOM: usize = 2;

/// The hashes of some words.
#[derive(Drop)]
pub(crate) struct KnownWords {
    words: KeyFilter,
    /// The hashes of their fronts of one character and more.
    heads: KeyFilter,
}

impl KnownWords {
    /// The words of the entries that have one of these flags.
    pub(crate) fn new(
        alloc: Global,
        entries: &Entries,
        flags: &FlagSet,
    ) -> Result<KnownWords, NoMemory>
        ensures { IfOk result (AreWordsKnown entries.now flags.now) }
    {
        let having = entries.having(alloc, flags)?;
        let room = count_of(having.as_slice()).saturating_mul(ROOM);
        let mut known = KnownWords {
            words: KeyFilter::new(alloc, room)?,
            heads: KeyFilter::new(alloc, room)?,
        };
        for place in 0..entries.len() {
            if having[place] {
                known.add(entries.at(place).word());
            }
        }
        Ok(known)
    }

    /// Adds a word.
    fn add(&mut self, word: &str)
        ensures there { IsKnown self.new (chars word.now) }
        ensures kept { KeepsKnown self.old self.new }
    {
        let mut key = START;
        let mut count = 0;
        for c in word.chars() {
            key = fold(key, &[c]);
            count = self.add_head(key, count);
        }
        self.words.insert(key);
    }

    /// Adds the hash of a word's front, if it is short enough. Given is how long the one before was,
    /// or how long fronts are at most.
    fn add_head(&mut self, key: u64, count: usize) -> usize
        requires { count ≤ MOST_OF_HEAD }
        ensures count { result ≡ min (count + 1) MOST_OF_HEAD }
        ensures there { count < MOST_OF_HEAD → may_have self.new.heads key ≡ true }
        ensures kept { KeepsKnown self.old self.new }
    {
        if count < MOST_OF_HEAD {
            self.heads.insert(key);
            return count + 1;
        }
        count
    }

    /// Tells of the places before the end of a text to which one of the words may lead that begins
    /// the text, with what a suffix changes at its end or without. The text is the rest of a word
    /// from the place `at` on.
    pub(crate) fn reach_words(&self, ends: &Edge, text: &[char], at: usize, reached: &mut [bool])
        requires { at + length text.now ≡ length reached.old }
        ensures { ReachesWords self.now ends.now text.now at reached.old reached.new }
    {
        let mut key = START;
        for count in 0..text.len() {
            ends.reach_endings(
                &text[count..],
                at + count,
                self.words.may_have(key),
                reached,
            );
            key = fold(key, &text[count..count + 1]);
            if count < MOST_OF_HEAD && !self.heads.may_have(key) {
                return;
            }
        }
    }

    /// The same, if `may` says so.
    pub(crate) fn reach_words_if(
        &self,
        may: bool,
        ends: &Edge,
        text: &[char],
        at: usize,
        reached: &mut [bool],
    )
        requires { at + length text.now ≡ length reached.old }
        ensures { ReachesWordsIf may self.now ends.now text.now at reached.old reached.new }
    {
        if may {
            self.reach_words(ends, text, at, reached);
        }
    }
}

/// How many of the entries are told.
fn count_of(told: &[bool]) -> usize {
    let mut count = 0usize;
    for is_told in told {
        count = count.saturating_add(*is_told as usize);
    }
    count
}
