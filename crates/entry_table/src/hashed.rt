//! Texts with their hashes.

ghost use Rattle.std.specs.Prelude.{◌≡◌};
ghost use Rattle.std.specs.Str.{chars};
ghost use Rattle.entry_table.specs.Hashes.{folded, hash_of, IsHashed};

/// The hash of a text without characters.
pub const START: u64 = 1;

/// What a hash is multiplied with before a character is added. It is odd, so that no bit of what
/// stands before is lost.
const FACTOR: u64 = 0x9E37_79B9_7F4A_7C15;

/// A text with its hash, which is computed once.
#[derive(Clone, Copy)]
pub struct Hashed<'a> {
    pub text: &'a [char],
    pub hash: u64,
}

impl<'a> Hashed<'a> {
    pub fn new(text: &'a [char]) -> Hashed<'a>
        ensures text { result.text.now ≡ text.now }
        ensures hash { IsHashed result }
    {
        Hashed {
            text,
            hash: fold(START, text),
        }
    }
}

/// The hash of a text, taken on from the hash of what stands before it.
pub fn fold(hash: u64, characters: &[char]) -> u64
    ensures { result ≡ folded hash characters.now }
{
    let mut folded = hash;
    for c in characters {
        folded = folded.wrapping_mul(FACTOR).wrapping_add(*c as u64);
    }
    folded
}

/// The hash of a text that is kept as UTF-8.
pub fn hash_of(text: &str) -> u64
    ensures { result ≡ hash_of (chars text.now) }
{
    let mut folded = START;
    for c in text.chars() {
        folded = fold(folded, &[c]);
    }
    folded
}
