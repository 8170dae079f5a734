//! Texts with flags behind a slash.

ghost use Rattle.std.specs.Prelude.{◌≡◌, ◌<◌, ◌≤◌, [], ◌∷◌, ◌++◌, length, IfNone, IfSome, IfOk};
ghost use Rattle.std.specs.Prelude.{OnOk, OnErr, take};
ghost use Rattle.std.specs.List.{prefix_len};
ghost use Rattle.std.specs.Option.{option_copied};
ghost use Rattle.std.specs.Str.{chars};
ghost use Rattle.flag_sets.specs.Slashes.{IsWordPlain, is_plain, before_slash, behind_slash};

use crate::first::next_character;
use spell_types::Chars;
use std::alloc::Global;
use text_lines::lists::{Items, NoMemory};

/// Adds the characters of a text up to its first slash that no backslash precedes, and gives the
/// text behind that slash, if there is one. `\/` adds a slash. Where memory is wanting the word
/// stays.
pub fn push_before_slash<'a>(
    alloc: Global,
    word: &mut Chars,
    text: &'a str,
) -> Result<Option<&'a str>, NoMemory>
    ensures word { OnOk result (word.new ≡ word.old ++ chars (before_slash text.now)) }
    ensures behind { IfOk result (λ behind. option_copied behind ≡ behind_slash text.now) }
    ensures err { OnErr result (word.new ≡ word.old) }
{
    let (longer, behind) = with_text_before_slash(alloc, word, text)?;
    *word = longer;
    Ok(behind)
}

/// The text up to its first slash and the text behind that slash, if there is one, where both stand
/// in the text as they are. There is no answer where a backslash stands before that slash.
pub fn split_plain(text: &str) -> Option<(&str, Option<&str>)>
    ensures none { IfNone result (¬ (IsWordPlain text.now)) }
    ensures word { IfSome result (λ parts. chars parts.0.now ≡ chars (before_slash text.now)) }
    ensures behind { IfSome result (λ parts. option_copied parts.1 ≡ behind_slash text.now) }
{
    let (plain, rest) = plain_front(text);
    match next_before_slash(rest) {
        Some(_) => None,
        None => Some((plain, rest.strip_prefix('/'))),
    }
}

/// The word with the characters before that slash, and the text behind it.
fn with_text_before_slash<'a>(
    alloc: Global,
    word: &Chars,
    text: &'a str,
) -> Result<(Chars, Option<&'a str>), NoMemory>
    ensures word { IfOk result (λ parted. parted.0 ≡ word.now ++ chars (before_slash text.now)) }
    ensures behind { IfOk result (λ parted. option_copied parted.1 ≡ behind_slash text.now) }
{
    let (plain, mut rest) = plain_front(text);
    let mut longer = joined(alloc, word, plain)?;
    while let Some((character, more)) = next_before_slash(rest) {
        longer.push(character)?;
        rest = more;
    }
    Ok((Items::from_vec(longer), rest.strip_prefix('/')))
}

/// The text up to its first slash or backslash, and the rest of it.
fn plain_front(text: &str) -> (&str, &str)
    ensures front { result.0.now ≡ take (prefix_len is_plain text.now) text.now }
    ensures parts { before_slash text.now ≡ result.0.now ++ before_slash result.1.now }
    ensures before { chars (before_slash text.now)
        ≡ chars result.0.now ++ chars (before_slash result.1.now) }
    ensures behind { behind_slash text.now ≡ behind_slash result.1.now }
{
    let end = plain_len(text.as_bytes());
    (&text[..end], &text[end..])
}

/// How many bytes stand before the first slash or backslash.
fn plain_len(text: &[u8]) -> usize
    ensures plain { result ≡ prefix_len is_plain text.now }
    ensures within { result ≤ length text.now }
{
    text.iter()
        .take_while(|byte| **byte != b'/' && **byte != b'\\')
        .count()
}

/// A word and the characters of a text behind it, in no more memory than they take.
fn joined(alloc: Global, word: &[char], text: &str) -> Result<Vec<char>, NoMemory>
    ensures { IfOk result (λ made. made.items ≡ word.now ++ chars text.now) }
{
    let count = text.chars().count();
    let mut made = Vec::with_capacity(alloc, word.len().saturating_add(count))?;
    made.extend_from_slice(word)?;
    made.extend(text.chars())?;
    Ok(made)
}

/// The first character that a text has before that slash, and the text behind the character.
fn next_before_slash(text: &str) -> Option<(char, &str)>
    ensures none { IfNone result (before_slash text.now ≡ []) }
    ensures first { IfSome result
        (λ found. chars (before_slash text.now) ≡ found.0 ∷ chars (before_slash found.1.now)) }
    ensures same { IfSome result (λ found. behind_slash text.now ≡ behind_slash found.1.now) }
    ensures shorter { IfSome result (λ found. length found.1.now < length text.now) }
{
    if let Some(rest) = text.strip_prefix("\\/") {
        return Some(('/', rest));
    }
    let (first, rest) = next_character(text)?;
    if first == '/' {
        return None;
    }
    Some((first, rest))
}
