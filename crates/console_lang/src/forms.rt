//! What the words behind the name of a command say, by the form that goes with the name.

ghost use Rattle.std.specs.Prelude.{◌≡◌, Some, None, MatchOption};
ghost use Rattle.console_lang.specs.Commands.{placed_text, placed_span, lone_place, two_names};
ghost use Rattle.console_lang.specs.Handed.{words_left_of_line, span_parts};

use crate::words::{Words, number};

/// What `P FROM TO TEXT` says.
#[derive(Clone, Copy)]
pub struct SpanWords<'a> {
    pub place: u32,
    pub from: u32,
    pub to: u32,
    pub text: &'a str,
}

/// `P TEXT`: a place and a text.
pub fn placed_text(words: Words<'_>) -> Option<(u32, &str)>
    ensures { MatchOption result (placed_text (words_left_of_line words.entry) ≡ None)
        (λ said. placed_text (words_left_of_line words.entry) ≡ Some (said.0, said.1.now)) }
{
    let (place, words) = words.split_first()?;
    let place = number(place)?;
    Some((place, words.text()))
}

/// `P FROM TO TEXT`: a place, where something begins and ends in it, and a text.
pub fn placed_span(words: Words<'_>) -> Option<SpanWords<'_>>
    ensures { MatchOption result (placed_span (words_left_of_line words.entry) ≡ None)
        (λ said. placed_span (words_left_of_line words.entry) ≡ Some (span_parts said)) }
{
    let (place, words) = words.split_first()?;
    let (from, words) = words.split_first()?;
    let (to, words) = words.split_first()?;
    Some(SpanWords {
        place: number(place)?,
        from: number(from)?,
        to: number(to)?,
        text: words.text(),
    })
}

/// `P`: a place and no other word.
pub fn lone_place(words: Words<'_>) -> Option<u32>
    ensures { result ≡ lone_place (words_left_of_line words.entry) }
{
    let (place, behind) = words.split_first()?;
    match behind.split_first() {
        None => number(place),
        Some(_) => None,
    }
}

/// `AFF DIC`: two names, of which none is empty, and no other word.
pub fn two_names(words: Words<'_>) -> Option<(&str, &str)>
    ensures { MatchOption result (two_names (words_left_of_line words.entry) ≡ None)
        (λ said. two_names (words_left_of_line words.entry) ≡ Some (said.0.now, said.1.now)) }
{
    let (aff, words) = words.split_first()?;
    let (dic, behind) = words.split_first()?;
    if behind.split_first().is_some() || aff.is_empty() || dic.is_empty() {
        return None;
    }
    Some((aff, dic))
}
