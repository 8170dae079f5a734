//! The characters that words are made of.

ghost use Rattle.std.specs.Prelude.{◌≡◌, ◌||◌, ◌==◌, not};
ghost use Rattle.std.specs.Char.{is_ascii_alphabetic};
ghost use Rattle.unicode.specs.Binary.{is_alphabetic};
ghost use Rattle.mark_types.specs.Characters.{is_word_character, is_apostrophe, is_combining_mark};
ghost use Rattle.mark_types.specs.Characters.{is_letter_or_digit};

use unicode::properties::{GeneralCategory, GeneralCategoryGroup, is_alphabetic};

/// The class of an ASCII letter.
const LETTER: u8 = 1;

/// The class of ASCII letters and of the apostrophe, which are never separators.
const JOINING: u8 = 2;

/// The classes of each byte, as the low bits of a digit. One look into this table, in place of two
/// comparisons, saves a twelfth of the time of cutting.
static CLASSES: [u8; 256] = *b"\
    00000000000000000000000000000000\
    00000002000000000000000000000000\
    03333333333333333333333333300000\
    03333333333333333333333333300000\
    00000000000000000000000000000000\
    00000000000000000000000000000000\
    00000000000000000000000000000000\
    00000000000000000000000000000000";

/// Whether the byte is an ASCII letter.
pub fn is_letter_byte(byte: u8) -> bool
    ensures { result ≡ is_ascii_alphabetic byte }
{
    CLASSES[byte as usize] & LETTER != 0
}

/// Whether the byte is an ASCII letter or the apostrophe.
fn is_joining_byte(byte: u8) -> bool
    ensures { result ≡ (is_ascii_alphabetic byte || byte == 0x27) }
{
    CLASSES[byte as usize] & JOINING != 0
}

pub fn is_apostrophe(c: char) -> bool
    ensures { result ≡ is_apostrophe c }
{
    c == '\'' || c == '\u{2019}'
}

/// Whether the character is a letter. No table is asked for an ASCII character.
pub fn is_letter(c: char) -> bool
    ensures { result ≡ is_alphabetic c }
{
    if c.is_ascii() {
        c.is_ascii_alphabetic()
    } else {
        is_alphabetic(c)
    }
}

/// Whether the character is a letter or an ASCII digit.
pub fn is_letter_or_digit(c: char) -> bool
    ensures { result ≡ is_letter_or_digit c }
{
    is_letter(c) || c.is_ascii_digit()
}

/// Whether the character belongs to no word, whatever stands beside it. No table of Unicode's is
/// asked for an ASCII character, and WORDCHARS is not looked through for a letter.
pub fn is_separator(wordchars: &[char], c: char) -> bool
    ensures { result ≡ not (is_word_character wordchars.now c || is_apostrophe c) }
{
    if !c.is_ascii() {
        return !(is_word_character(wordchars, c) || is_apostrophe(c));
    }
    if is_joining_byte(c as u8) {
        return false;
    }
    c == '\n' || !wordchars.contains(&c)
}

#[tactic(auto, unfolding(mark_types::specs::Characters::is_word_character))]
pub fn is_word_character(wordchars: &[char], c: char) -> bool
    ensures { result ≡ is_word_character wordchars.now c }
{
    !(is_apostrophe(c) || c == '\n') && (is_letter_or_mark(c) || wordchars.contains(&c))
}

/// Whether the character is a letter or a combining mark. No table is asked for an ASCII character.
fn is_letter_or_mark(c: char) -> bool
    ensures { result ≡ (is_alphabetic c || is_combining_mark c) }
{
    if c.is_ascii() {
        c.is_ascii_alphabetic()
    } else {
        is_alphabetic(c) || is_combining_mark(c)
    }
}

#[tactic(auto, unfolding(mark_types::specs::Characters::is_combining_mark))]
fn is_combining_mark(c: char) -> bool
    ensures { result ≡ is_combining_mark c }
{
    GeneralCategoryGroup::Mark.contains(GeneralCategory::for_char(c))
}
