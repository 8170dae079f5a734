//! Stems, entries and words.

ghost use Rattle.std.specs.Prelude.{◌≡◌, ◌≤◌, ◌<◌, ◌+◌, ◌++◌, length, OnOk};
ghost use Rattle.work_maker.specs.Made.{made_entry};
ghost use Rattle.work_maker.specs.Words.{syllable, made_stem, kind_with_number, made_flags};
ghost use Rattle.work_maker.specs.Words.{suffixed, made_word};

use std::alloc::AllocError;

const CONSONANTS: [u8; 10] = *b"bdfgklmnrt";

const VOWELS: [u8; 5] = *b"aeiou";

const SYLLABLES: u32 = 50;

const PREFIX: &[u8; 2] = b"re";

/// The affixes that a word has, or that an entry may take.
#[derive(Clone, Copy, Debug, PartialEq, Eq)]
pub enum Kind {
    Bare,
    Prefixed,
    Suffixed,
    Both,
}

impl Kind {
    ghost use Rattle.work_maker.specs.Words.{kind_with_number, made_flags};

    /// The kind with this number.
    pub fn of(number: u32) -> Kind
        requires { number < 4 }
        ensures { result ≡ kind_with_number number }
    {
        match number {
            0 => Kind::Bare,
            1 => Kind::Prefixed,
            2 => Kind::Suffixed,
            _ => Kind::Both,
        }
    }

    /// The flags behind an entry that may take these affixes.
    fn flags(self) -> &'static [u8]
        ensures { result.now ≡ made_flags self }
    {
        match self {
            Kind::Bare => b"",
            Kind::Prefixed => b"/A",
            Kind::Suffixed => b"/B",
            Kind::Both => b"/AB",
        }
    }
}

/// Adds the entry with this number to a dictionary.
pub fn push_entry(made: &mut Vec<u8>, number: u32) -> Result<(), AllocError>
    ensures bytes { OnOk result (made.new.items ≡ made.old.items ++ made_entry number) }
    ensures small { OnOk result (length made.new.items ≤ length made.old.items + 9) }
{
    made.extend_from_slice(&stem(number))?;
    made.extend_from_slice(Kind::of(number % 4).flags())
}

/// Adds the word of this kind from the stem with this number to a text.
pub fn push_word(made: &mut Vec<u8>, kind: Kind, number: u32) -> Result<(), AllocError>
    ensures bytes { OnOk result (made.new.items ≡ made.old.items ++ made_word kind (made_stem number)) }
    ensures small { OnOk result (length made.new.items ≤ length made.old.items + 9) }
{
    let stem = stem(number);
    match kind {
        Kind::Bare => made.extend_from_slice(&stem),
        Kind::Prefixed => {
            made.extend_from_slice(PREFIX)?;
            made.extend_from_slice(&stem)
        }
        Kind::Suffixed => push_suffixed(made, &stem),
        Kind::Both => {
            made.extend_from_slice(PREFIX)?;
            push_suffixed(made, &stem)
        }
    }
}

/// Adds a stem with the suffix, which takes the place of an `a` at its end.
fn push_suffixed(made: &mut Vec<u8>, stem: &[u8]) -> Result<(), AllocError>
    ensures bytes { OnOk result (made.new.items ≡ made.old.items ++ suffixed stem.now) }
    ensures small { OnOk result
        (length made.new.items ≤ length made.old.items + length stem.now + 1) }
{
    match stem.strip_suffix(b"a") {
        Some(front) => {
            made.extend_from_slice(front)?;
            made.extend_from_slice(b"en")
        }
        None => {
            made.extend_from_slice(stem)?;
            made.extend_from_slice(b"n")
        }
    }
}

/// The letters of the stem with this number, which is read as three digits.
fn stem(number: u32) -> [u8; 6]
    ensures { result ≡ made_stem number }
{
    let [first, second] = syllable(number % SYLLABLES);
    let [third, fourth] = syllable(number / SYLLABLES % SYLLABLES);
    let [fifth, sixth] = syllable(number / (SYLLABLES * SYLLABLES) % SYLLABLES);
    [first, second, third, fourth, fifth, sixth]
}

/// The two letters of the syllable with this number.
fn syllable(number: u32) -> [u8; 2]
    requires { number < 50 }
    ensures { result ≡ syllable number }
{
    let place = number as usize;
    [
        CONSONANTS[place / VOWELS.len()],
        VOWELS[place % VOWELS.len()],
    ]
}
