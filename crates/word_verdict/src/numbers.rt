//! Numbers, and words with dots behind them.

ghost use Rattle.std.specs.Prelude.{◌≡◌};
ghost use Rattle.std.specs.List.{list_all};
ghost use Rattle.std.specs.Char.{is_ascii_digit};
ghost use Rattle.spell_types.specs.Numbers.{is_separator, is_group, is_number, undotted};
ghost use Rattle.word_verdict.specs.Accepting.{begins_with_digit};

/// Whether a word is a number: groups of ASCII digits, with a dot, a comma or a dash between
/// neighbours. This is this project's own rule. Most words do not begin with a digit, and no more
/// of them is looked at.
#[tactic(auto, using(crate::proofs::NumberLemmas::no_digit))]
pub(crate) fn is_number(word: &[char]) -> bool
    ensures { result ≡ is_number word.now }
{
    if !begins_with_digit(word) {
        return false;
    }
    are_groups(word)
}

fn begins_with_digit(word: &[char]) -> bool
    ensures { result ≡ begins_with_digit word.now }
{
    match word {
        [first, ..] => first.is_ascii_digit(),
        [] => false,
    }
}

/// Whether what stands between separators are groups of digits.
#[tactic(auto, unfolding(spell_types::specs::Numbers::is_number))]
fn are_groups(word: &[char]) -> bool
    ensures { result ≡ is_number word.now }
{
    word.split(|c| is_separator(*c)).all(|text| is_group(text))
}

/// The word without the dots at its end.
#[tactic(auto, unfolding(spell_types::specs::Numbers::undotted))]
pub(crate) fn undotted(word: &[char]) -> &[char]
    ensures { result.now ≡ undotted word.now }
{
    let mut end = word.len();
    while end > 0 && word[end - 1] == '.' {
        end -= 1;
    }
    &word[..end]
}

fn is_separator(c: char) -> bool
    ensures { result ≡ is_separator c }
{
    c == '.' || c == ',' || c == '-'
}

/// Whether a text is one digit or more.
fn is_group(text: &[char]) -> bool
    ensures { result ≡ is_group text.now }
{
    !text.is_empty() && are_digits(text)
}

fn are_digits(text: &[char]) -> bool
    ensures { result ≡ list_all is_ascii_digit text.now }
{
    text.iter().all(|c| c.is_ascii_digit())
}
