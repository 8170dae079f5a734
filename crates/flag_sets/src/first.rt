//! The first flag of a text, and the text after it.

ghost use Rattle.std.specs.Prelude.{◌≡◌, ◌<◌, [], ◌∷◌, ◌++◌, length, IfNone, IfSome};
ghost use Rattle.std.specs.Char.{encode_utf8};
ghost use Rattle.std.specs.Str.{chars};
ghost use Rattle.spell_types.specs.Flags.{IsOrdinary};
ghost use Rattle.flag_sets.specs.FlagTexts.{listed_flags, character_flags, long_flags};
ghost use Rattle.flag_sets.specs.FlagTexts.{number_flags, flag_of_item, FlagTextGoesOn};

use spell_types::{Flag, FlagKind};
use text_lines::decimal;

/// The highest number of a flag that is written as a decimal.
const HIGHEST: u64 = 65000;

/// The first flag that a text lists, and the rest of the text, which lists the others.
pub(crate) fn first_flag(kind: FlagKind, text: &str) -> Option<(Flag, &str)>
    requires { 0 < length text.now }
    ensures goes_on { FlagTextGoesOn (listed_flags kind) text.now result }
    ensures ordinary { IfSome result (λ found. IsOrdinary found.0) }
{
    match kind {
        FlagKind::Single | FlagKind::Utf8 => first_character(text),
        FlagKind::Long => first_pair(text),
        FlagKind::Num => first_number(text),
    }
}

fn first_character(text: &str) -> Option<(Flag, &str)>
    requires { 0 < length text.now }
    ensures goes_on { FlagTextGoesOn character_flags text.now result }
    ensures ordinary { IfSome result (λ found. IsOrdinary found.0) }
{
    let (character, rest) = next_character(text)?;
    Some((Flag(u64::from(character)), rest))
}

fn first_pair(text: &str) -> Option<(Flag, &str)>
    requires { 0 < length text.now }
    ensures goes_on { FlagTextGoesOn long_flags text.now result }
    ensures ordinary { IfSome result (λ found. IsOrdinary found.0) }
{
    let (first, more) = next_character(text)?;
    let (second, rest) = next_character(more)?;
    let number = u64::from(first) * (1 << 32) + u64::from(second);
    Some((Flag(number), rest))
}

fn first_number(text: &str) -> Option<(Flag, &str)>
    requires { 0 < length text.now }
    ensures goes_on { FlagTextGoesOn number_flags text.now result }
    ensures ordinary { IfSome result (λ found. IsOrdinary found.0) }
{
    let Some((item, rest)) = text.split_once(',') else {
        return Some((flag_of_number(text)?, ""));
    };
    // After a comma there has to be an item.
    if rest.is_empty() {
        return None;
    }
    Some((flag_of_number(item)?, rest))
}

/// The flag that a decimal stands for.
fn flag_of_number(item: &str) -> Option<Flag>
    ensures flag { result ≡ flag_of_item item.now }
    ensures ordinary { IfSome result IsOrdinary }
{
    decimal(item)
        .filter(|number| (1..=HIGHEST).contains(number))
        .map(Flag)
}

/// The first character of a text, and the rest of it.
pub(crate) fn next_character(text: &str) -> Option<(char, &str)>
    ensures ends { IfNone result (length text.now ≡ 0) }
    ensures none { IfNone result (chars text.now ≡ []) }
    ensures first { IfSome result (λ found. chars text.now ≡ found.0 ∷ chars found.1.now) }
    ensures encoded { IfSome result (λ found. text.now ≡ encode_utf8 found.0 ++ found.1.now) }
    ensures shorter { IfSome result (λ found. length found.1.now < length text.now) }
{
    let mut characters = text.chars();
    let first = characters.next()?;
    Some((first, characters.as_str()))
}
