//! Cuts a paragraph into words.
//!
//! Letters, combining marks and the characters of WORDCHARS, an option of hunspell(5), make words;
//! apostrophes join, and a word holds a letter or an ASCII digit: this is the project's own rule.
#![tactic(auto)]

ghost use Rattle.std.specs.Prelude.{◌≡◌, ℕ, ◌+◌, ◌<◌, ◌≤◌, ◌^◌, ◌&&◌, List, [], ◌∷◌, ◌++◌, IfOk};
ghost use Rattle.std.specs.Prelude.{IfNone, IfSome, OnOk, Some, true, encode_utf8, map, length};
ghost use Rattle.std.specs.Char.{is_ascii_alphabetic};
ghost use Rattle.std.specs.List.{AllByRecursion};
ghost use Rattle.std.specs.Str.{chars};
ghost use Rattle.mark_types.specs.Characters.{is_letter_or_digit};
ghost use Rattle.mark_types.specs.Words.{belongs, first_of, words_of};
ghost use Rattle.mark_types.specs.Handed.{span_of};
ghost use Rattle.word_cutter.specs.Runs.{IsBehind, LeavesLess, has_some};
ghost use Rattle.word_cutter.specs.Runs.{words_after, words_from_found};

mod characters;

use characters::{
    is_apostrophe, is_letter, is_letter_byte, is_letter_or_digit, is_separator, is_word_character,
};
use mark_types::Span;
use mark_types::lists::NoMemory;
use std::alloc::Global;

/// What is left of a paragraph.
#[derive(Clone, Copy)]
pub struct Rest<'a> {
    pub text: &'a str,
    /// The byte that it begins at in the paragraph, from 0.
    pub at: u32,
    /// The character before it.
    pub before: char,
}

/// Where a word of a paragraph stands.
#[derive(Clone, Copy)]
pub struct FoundWord<'a> {
    /// Its first byte in the paragraph, from 0, and the byte past its end.
    pub from: u32,
    pub to: u32,
    /// What is left of the paragraph behind it.
    pub rest: Rest<'a>,
}

/// The words of a paragraph, in order, by their bytes from 0.
pub fn cut(alloc: Global, text: &str, wordchars: &[char]) -> Result<Vec<Span>, NoMemory>
    requires { length text.now < 2 ^ 32 }
    ensures words { IfOk result
        (λ spans. spans.items ≡ map span_of (words_of wordchars.now (chars text.now))) }
    ensures few { IfOk result (λ spans. length spans.items ≤ length text.now) }
{
    let mut word = Vec::new(alloc);
    let mut spans = Vec::new(alloc);
    let mut rest = Rest::of(text);
    while let Some(found) = next_word(wordchars, rest, &mut word)? {
        rest = found.rest;
        spans.push(Span {
            from: found.from,
            to: found.to,
        })?;
    }
    Ok(spans)
}

impl<'a> Rest<'a> {
    /// All of a paragraph.
    pub fn of(text: &'a str) -> Rest<'a>
        ensures words { (wordchars : List ℕ)
            → words_after wordchars result ≡ words_of wordchars (chars text.now) }
        ensures text { result.text.now ≡ text.now }
        ensures at { result.at ≡ 0 }
    {
        Rest {
            text,
            at: 0,
            before: '\n',
        }
    }
}

/// The first word of what is left of a paragraph. Its characters are put where those of another
/// word stood: no more are held than stand in one run of characters of words.
///
/// Most words are ASCII letters between two separators, so such a word is looked for first: its
/// letters are taken byte by byte, and of WORDCHARS only the characters around it are asked.
pub fn next_word<'a>(
    wordchars: &[char],
    rest: Rest<'a>,
    word: &mut Vec<char>,
) -> Result<Option<FoundWord<'a>>, NoMemory>
    requires { rest.at + length rest.text.now < 2 ^ 32 }
    ensures words { IfOk result
        (λ found. words_from_found wordchars.now word.new.items found ≡ words_after wordchars.now
        rest.entry) }
    ensures less { IfOk result (λ found. IfSome found (LeavesLess rest.entry)) }
{
    let rest = skip_separators(wordchars, rest);
    match word_of_letters(wordchars, rest, word)? {
        Some(found) => Ok(Some(found)),
        None => find_word(wordchars, rest, word),
    }
}

/// What is left behind the separators that it begins with.
fn skip_separators<'a>(wordchars: &[char], rest: Rest<'a>) -> Rest<'a>
    requires { rest.at + length rest.text.now < 2 ^ 32 }
    ensures words { words_after wordchars.now result ≡ words_after wordchars.now rest.entry }
    ensures behind { IsBehind rest.entry result }
{
    let mut text = rest.text;
    let mut before = rest.before;
    while let Some((c, behind)) = first_character(text) {
        if !is_separator(wordchars, c) {
            break;
        }
        text = behind;
        before = c;
    }
    Rest {
        text,
        at: rest.at + (rest.text.len() - text.len()) as u32,
        before,
    }
}

/// The word that the ASCII letters at the beginning are, if a separator stands behind them.
fn word_of_letters<'a>(
    wordchars: &[char],
    rest: Rest<'a>,
    word: &mut Vec<char>,
) -> Result<Option<FoundWord<'a>>, NoMemory>
    requires { rest.at + length rest.text.now < 2 ^ 32 }
    ensures words { IfOk result (λ found. IfSome found
        (λ one. words_from_found wordchars.now word.new.items (Some one)
        ≡ words_after wordchars.now rest.entry)) }
    ensures less { IfOk result (λ found. IfSome found (LeavesLess rest.entry)) }
{
    let left = take_letters(word, rest.text)?;
    if word.is_empty() {
        return Ok(None);
    }
    match first_character(left) {
        Some((c, behind)) if is_separator(wordchars, c) => {
            let to = rest.at + word.len() as u32;
            let at = to + c.len_utf8() as u32;
            Ok(Some(FoundWord {
                from: rest.at,
                to,
                rest: Rest {
                    text: behind,
                    at,
                    before: c,
                },
            }))
        }
        _ => Ok(None),
    }
}

/// Puts the ASCII letters that a text begins with where the characters of another word stood, and
/// gives what is left behind them.
fn take_letters<'a>(word: &mut Vec<char>, text: &'a str) -> Result<&'a str, NoMemory>
    ensures letters { OnOk result
        (AllByRecursion (λ c. is_ascii_alphabetic c ≡ true) word.new.items) }
    ensures left { IfOk result (λ left. text.now ≡ word.new.items ++ left.now) }
{
    word.clear();
    for byte in text.as_bytes() {
        if !is_letter_byte(*byte) {
            break;
        }
        word.push(*byte as char)?;
    }
    Ok(&text[word.len()..])
}

/// The first word, looked for character by character.
fn find_word<'a>(
    wordchars: &[char],
    rest: Rest<'a>,
    word: &mut Vec<char>,
) -> Result<Option<FoundWord<'a>>, NoMemory>
    requires { rest.at + length rest.text.now < 2 ^ 32 }
    ensures words { IfOk result
        (λ found. words_from_found wordchars.now word.new.items found ≡ words_after wordchars.now
        rest.entry) }
    ensures less { IfOk result (λ found. IfSome found (LeavesLess rest.entry)) }
{
    word.clear();
    let Rest {
        mut text,
        mut at,
        mut before,
    } = rest;
    let mut from = at;
    let mut is_word = false;
    while let Some((c, behind)) = first_character(text) {
        let inside = belongs(wordchars, before, c, behind);
        let to = at;
        text = behind;
        at += c.len_utf8() as u32;
        before = c;
        if inside {
            word.push(c)?;
            is_word = is_word || is_letter_or_digit(c);
        } else if is_word {
            return Ok(Some(FoundWord {
                from,
                to,
                rest: Rest { text, at, before },
            }));
        } else {
            word.clear();
            from = at;
        }
    }
    if !is_word {
        return Ok(None);
    }
    Ok(Some(FoundWord {
        from,
        to: at,
        rest: Rest { text, at, before },
    }))
}

/// Whether a word is left of a paragraph. It is looked for up to its first letter or digit, which
/// takes no memory.
pub fn has_word(wordchars: &[char], rest: Rest<'_>) -> bool
    ensures { result ≡ has_some (words_after wordchars.now rest.entry) }
{
    let Rest {
        mut text,
        mut before,
        ..
    } = rest;
    while let Some((c, behind)) = first_character(text) {
        if shows_word(wordchars, before, c, behind) {
            return true;
        }
        text = behind;
        before = c;
    }
    false
}

/// Whether the character is a letter or a digit of a word, where it stands between these two.
fn shows_word(wordchars: &[char], before: char, c: char, behind: &str) -> bool
    ensures { result
        ≡ (is_letter_or_digit c && belongs wordchars.now before c (first_of (chars behind.now))) }
{
    is_letter_or_digit(c) && belongs(wordchars, before, c, behind)
}

/// The first character of a text, and what stands behind it.
fn first_character(text: &str) -> Option<(char, &str)>
    ensures none { IfNone result ((chars text.now ≡ []) × (length text.now ≡ 0)) }
    ensures some { IfSome result
        (λ (c, behind). (chars text.now ≡ c ∷ chars behind.now)
        × (text.now ≡ encode_utf8 c ++ behind.now)) }
{
    let mut left = text.chars();
    match left.next() {
        Some(c) => Some((c, left.as_str())),
        None => None,
    }
}

/// The character that a text begins with. Behind a paragraph stands a line feed.
fn first_of(text: &str) -> char
    ensures { result ≡ first_of (chars text.now) }
{
    match first_character(text) {
        Some((c, _)) => c,
        None => '\n',
    }
}

/// Whether the character belongs to a word where it stands between these two. A letter does, which
/// is told with the fewest questions. Only an apostrophe needs to know what is behind it.
#[tactic(auto, unfolding(mark_types::specs::Words::belongs))]
fn belongs(wordchars: &[char], before: char, c: char, behind: &str) -> bool
    ensures { result ≡ belongs wordchars.now before c (first_of (chars behind.now)) }
{
    if is_letter(c) {
        return true;
    }
    is_word_character(wordchars, c)
        || (is_apostrophe(c)
            && is_word_character(wordchars, before)
            && is_word_character(wordchars, first_of(behind)))
}
