//! The words of a line, one after another.

ghost use Rattle.std.specs.Prelude.{◌≡◌, [], ◌∷◌, MatchOption};
ghost use Rattle.console_lang.specs.Words.{is_blank_line, words_between_spaces, text_of_words};
ghost use Rattle.console_lang.specs.Words.{number_of};
ghost use Rattle.console_lang.specs.Handed.{words_left_of_line};

use mark_types::text_lines::decimal;

/// How many digits a number of a command has at most, so that it is below 2^32.
const DIGITS: usize = 9;

/// Whether nothing but spaces and tabs stands in a line.
pub fn is_blank(line: &str) -> bool
    ensures { result ≡ is_blank_line line.now }
{
    line.as_bytes()
        .iter()
        .all(|byte| *byte == b' ' || *byte == b'\t')
}

/// The words that are left of a line. One space parts them, so that between two spaces stands an
/// empty word.
#[derive(Clone, Copy)]
pub struct Words<'a> {
    /// The line from the next word on, if there is one more.
    pub rest: Option<&'a str>,
}

impl<'a> Words<'a> {
    /// All words of a line, of which there is at least one.
    pub fn of(line: &'a str) -> Words<'a>
        ensures { words_left_of_line result ≡ words_between_spaces line.now }
    {
        Words { rest: Some(line) }
    }

    /// The next word, and the words behind it.
    pub fn split_first(self) -> Option<(&'a str, Words<'a>)>
        ensures { MatchOption result (words_left_of_line self.entry ≡ [])
            (λ found. words_left_of_line self.entry ≡ found.0.now ∷ words_left_of_line found.1) }
    {
        let text = self.rest?;
        match text.split_once(' ') {
            Some((word, behind)) => Some((word, Words { rest: Some(behind) })),
            None => Some((text, Words { rest: None })),
        }
    }

    /// The text that the words make, with the spaces between them.
    pub fn text(self) -> &'a str
        ensures { result.now ≡ text_of_words (words_left_of_line self.entry) }
    {
        self.rest.unwrap_or("")
    }
}

/// The number that a word of 1 to 9 ASCII digits writes.
#[tactic(auto, using(crate::proofs::WordLemmas::short_number, crate::proofs::WordLemmas::long_word, crate::proofs::WordLemmas::small_number))]
pub fn number(word: &str) -> Option<u32>
    ensures { result ≡ number_of word.now }
{
    if word.len() > DIGITS {
        return None;
    }
    let value = decimal(word)?;
    Some(value as u32)
}
