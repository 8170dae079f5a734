//! A filter of keys: it tells most keys that were never put in from those that may have been, in
//! one look at memory.
#![tactic(auto)]

ghost use Rattle.std.specs.Prelude.{◌≡◌, ◌<◌, ◌^◌, ◌||◌, ℕ, true, false, IfOk};
ghost use Rattle.key_filter.specs.Filter.{may_have, word_place_of, share_a_bit};

use lists::NoMemory;
use std::alloc::Global;

/// How many keys there are for each word, where as many are put in as were told: eight bits for a
/// key.
const KEYS_A_WORD: u64 = 8;

/// No filter has more words than two to this power.
const MOST_BITS: u32 = 32;

/// A set of keys that has one bit for each, which many keys share: what Bloom described, with one
/// hash, which the key itself is. Keys whose upper and whose lowest six bits are the same share a
/// bit, so that they have to be hashes of something.
#[derive(Debug, Drop)]
pub struct KeyFilter {
    /// The bits, 64 in each word. There are a power of two of words.
    words: Vec<u64>,
    /// How far a key is shifted to the right to get the place of its word.
    shift: u32,
}

impl KeyFilter {
    /// A filter without keys, with room for so many: with more of them it lets through more that
    /// are not there.
    #[tactic(auto, unfolding(crate::specs::Filter::may_have))]
    pub fn new(alloc: Global, keys: usize) -> Result<KeyFilter, NoMemory>
        ensures { IfOk result (λ made. (key : ℕ) → key < 2 ^ 64 → may_have made key ≡ false) }
    {
        let bits = ((keys as u64 / KEYS_A_WORD).max(1).ilog2() + 1).min(MOST_BITS);
        let words = vec![in alloc; 0; 1 << bits]?;
        Ok(KeyFilter {
            words,
            shift: 64 - bits,
        })
    }

    /// Puts a key in, and with it all that share its bit.
    #[tactic(auto, unfolding(crate::specs::Filter::may_have))]
    pub fn insert(&mut self, key: u64)
        ensures there { may_have self.new key ≡ true }
        ensures kept { (other : ℕ) → may_have self.old other ≡ true
            → may_have self.new other ≡ true }
        ensures others { (other : ℕ)
            → may_have self.new other
            ≡ (share_a_bit self.old key other || may_have self.old other) }
    {
        let place = self.place_of(key);
        if place < self.words.len() {
            self.words[place] |= 1 << (key % 64);
        }
    }

    /// Whether a key may have been put in. A key that was put in may be there always, and most
    /// others are not.
    #[tactic(auto, unfolding(crate::specs::Filter::may_have))]
    pub fn may_have(&self, key: u64) -> bool
        ensures { result ≡ may_have self.now key }
    {
        let place = self.place_of(key);
        place >= self.words.len() || (self.words[place] >> (key % 64)) & 1 == 1
    }

    /// The place of a key's word.
    fn place_of(&self, key: u64) -> usize
        ensures { result ≡ word_place_of self.now key }
    {
        key.wrapping_shr(self.shift) as usize
    }
}
