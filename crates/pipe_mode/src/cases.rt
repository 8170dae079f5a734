//! In which case a word is written, seen from a spelling that it covers.

ghost use Rattle.std.specs.Prelude.{◌≡◌};
ghost use Rattle.spell_types.specs.Bases.{case_of, holds_character, is_sharp_case};
ghost use Rattle.spell_types.specs.Cases.{first_lowered, is_same_word};

use letter_case::{has_lower, low};
use spell_types::Case;

/// The case of a written word, seen from a spelling.
#[tactic(auto, unfolding(spell_types::specs::Bases::case_of))]
pub(crate) fn case_of(sharps: bool, written: &[char], spelling: &[char]) -> Case
    ensures { result ≡ case_of sharps written.now spelling.now }
{
    if spelling == written {
        Case::Same
    } else if sharps && is_sharp_case(written, spelling) {
        Case::Sharp
    } else {
        Case::Other
    }
}

/// Whether a word is written as words with ß may be.
fn is_sharp_case(written: &[char], spelling: &[char]) -> bool
    ensures { result ≡ is_sharp_case written.now spelling.now }
{
    if has_lower(written) {
        is_first_lowered(written, spelling)
    } else {
        !holds_capital_sharp(written)
    }
}

fn holds_capital_sharp(word: &[char]) -> bool
    ensures { result ≡ holds_character 7838 word.now }
{
    word.iter().any(|c| *c == 'ẞ')
}

/// Whether a spelling is the written word with its first character lowered.
fn is_first_lowered(written: &[char], spelling: &[char]) -> bool
    ensures { result ≡ is_same_word spelling.now (first_lowered written.now) }
{
    match (written, spelling) {
        ([], []) => true,
        ([first, rest @ ..], [other, more @ ..]) => *other == low(*first) && more == rest,
        _ => false,
    }
}
