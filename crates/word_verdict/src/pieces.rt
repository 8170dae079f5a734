//! Words that are accepted as they are written, without being broken.

ghost use Rattle.std.specs.Prelude.{◌≡◌, ◌||◌, not, true, IfOk};
ghost use Rattle.std.specs.List.{list_any};
ghost use Rattle.compound_words.specs.Prepared.{AreCompoundsOf};
ghost use Rattle.spell_types.specs.Bases.{compound_question, case_of, holds_character};
ghost use Rattle.spell_types.specs.Bases.{is_right_spelling};
ghost use Rattle.spell_types.specs.Bases.{is_sharp_case};
ghost use Rattle.spell_types.specs.Cases.{begins_upper, first_lowered, has_lower};
ghost use Rattle.spell_types.specs.Cases.{is_same_word};
ghost use Rattle.spell_types.specs.Compounds.{is_compound};
ghost use Rattle.word_verdict.specs.Judging.{judged, is_alone_or_compound, covers_right_spelling};

use affix_strip::Stems;
use break_points::Judged;
use compound_words::Compounds;
use letter_case::{begins_upper, covered, has_lower, low};
use mark_types::lists::NoMemory;
use spell_types::{Case, Chars};
use std::alloc::Global;

/// A dictionary, and what was prepared of it for its compounds.
#[derive(Clone, Copy)]
pub(crate) struct Prepared<'a> {
    pub(crate) stems: &'a Stems,
    pub(crate) compounds: &'a Compounds,
}

/// What a piece of a word is by itself. It is looked at as it is written first, since most words
/// need no other spelling.
#[tactic(auto, unfolding(crate::specs::Judging::judged, crate::specs::Judging::covers_right_spelling, spell_types::specs::Bases::is_base, spell_types::specs::Bases::is_right_spelling, spell_types::specs::Cases::covered_by))]
pub(crate) fn judge_piece(
    alloc: Global,
    dictionary: &Prepared,
    piece: &[char],
) -> Result<Judged, NoMemory>
    requires { AreCompoundsOf dictionary.now.stems.now dictionary.now.compounds.now }
    ensures { IfOk result (λ answer. answer ≡ judged dictionary.now.stems.now piece.now) }
{
    if dictionary.stems.is_barred(alloc, piece)? {
        return Ok(Judged::Barred);
    }
    if is_alone_or_compound(alloc, dictionary, piece, piece)? {
        return Ok(Judged::Base);
    }
    if covers_right_spelling(alloc, dictionary, piece)? {
        return Ok(Judged::Base);
    }
    Ok(Judged::Other)
}

/// Whether a word covers a right spelling other than the written one.
#[tactic(auto, unfolding(crate::specs::Judging::covers_right_spelling, spell_types::specs::Cases::covered_by))]
fn covers_right_spelling(
    alloc: Global,
    dictionary: &Prepared,
    word: &[char],
) -> Result<bool, NoMemory>
    requires { AreCompoundsOf dictionary.now.stems.now dictionary.now.compounds.now }
    ensures { IfOk result (λ answer.
        answer ≡ covers_right_spelling dictionary.now.stems.now word.now) }
{
    if !may_cover_others(word) {
        return Ok(false);
    }
    let sharps = dictionary.stems.lexicon().affixes.options.sharps;
    let spellings = covered(alloc, word, sharps)?;
    match spellings.as_slice() {
        [_, others @ ..] => one_is_right(alloc, dictionary, word, others),
        [] => Ok(false),
    }
}

/// Whether a word may cover spellings other than itself: it begins in upper case, or has no
/// lower-case character.
fn may_cover_others(word: &[char]) -> bool
    ensures { result ≡ (begins_upper word.now || not (has_lower word.now)) }
{
    begins_upper(word) || !has_lower(word)
}

/// Whether one of these spellings is right for the word that is written so.
fn one_is_right(
    alloc: Global,
    dictionary: &Prepared,
    written: &[char],
    spellings: &[Chars],
) -> Result<bool, NoMemory>
    requires { AreCompoundsOf dictionary.now.stems.now dictionary.now.compounds.now }
    ensures { IfOk result (λ answer.
        answer ≡ list_any (is_right_spelling dictionary.now.stems.now written.now) spellings.now) }
{
    for spelling in spellings {
        if is_right(alloc, dictionary, written, spelling)? {
            return Ok(true);
        }
    }
    Ok(false)
}

/// Whether a spelling is right for the word that is written so.
#[tactic(auto, unfolding(spell_types::specs::Bases::is_right_spelling))]
fn is_right(
    alloc: Global,
    dictionary: &Prepared,
    written: &[char],
    spelling: &[char],
) -> Result<bool, NoMemory>
    requires { AreCompoundsOf dictionary.now.stems.now dictionary.now.compounds.now }
    ensures { IfOk result (λ answer.
        answer ≡ is_right_spelling dictionary.now.stems.now written.now spelling.now) }
{
    if dictionary.stems.is_barred(alloc, spelling)? {
        return Ok(false);
    }
    is_alone_or_compound(alloc, dictionary, written, spelling)
}

/// Whether a spelling stands by itself for the word that is written so, or is a compound. That is
/// asked last, since it takes longest.
fn is_alone_or_compound(
    alloc: Global,
    dictionary: &Prepared,
    written: &[char],
    spelling: &[char],
) -> Result<bool, NoMemory>
    requires { AreCompoundsOf dictionary.now.stems.now dictionary.now.compounds.now }
    ensures { IfOk result (λ answer.
        answer ≡ is_alone_or_compound dictionary.now.stems.now written.now spelling.now) }
{
    let sharps = dictionary.stems.lexicon().affixes.options.sharps;
    let case = case_of(sharps, written, spelling);
    if dictionary.stems.is_alone(alloc, case, spelling)? {
        return Ok(true);
    }
    is_compound(alloc, dictionary, written, spelling)
}

/// The case of a written word, seen from a spelling.
#[tactic(auto, unfolding(spell_types::specs::Bases::case_of))]
fn case_of(sharps: bool, written: &[char], spelling: &[char]) -> Case
    ensures { result ≡ case_of sharps written.now spelling.now }
{
    if spelling == written {
        Case::Same
    } else if sharps && is_sharp_case(written, spelling) {
        Case::Sharp
    } else {
        Case::Other
    }
}

/// Whether a word is written as words with ß may be.
fn is_sharp_case(written: &[char], spelling: &[char]) -> bool
    ensures { result ≡ is_sharp_case written.now spelling.now }
{
    if has_lower(written) {
        is_first_lowered(written, spelling)
    } else {
        !holds_capital_sharp(written)
    }
}

fn holds_capital_sharp(word: &[char]) -> bool
    ensures { result ≡ holds_character 7838 word.now }
{
    word.iter().any(|c| *c == 'ẞ')
}

/// Whether a spelling is the written word with its first character lowered.
fn is_first_lowered(written: &[char], spelling: &[char]) -> bool
    ensures { result ≡ is_same_word spelling.now (first_lowered written.now) }
{
    match (written, spelling) {
        ([], []) => true,
        ([first, rest @ ..], [other, more @ ..]) => *other == low(*first) && more == rest,
        _ => false,
    }
}

/// Whether a spelling is a compound where a word is written so.
fn is_compound(
    alloc: Global,
    dictionary: &Prepared,
    written: &[char],
    spelling: &[char],
) -> Result<bool, NoMemory>
    requires { AreCompoundsOf dictionary.now.stems.now dictionary.now.compounds.now }
    ensures { IfOk result (λ answer.
        answer ≡ is_compound (compound_question dictionary.now.stems.now written.now spelling.now)
        spelling.now) }
{
    let by_case = spelling != written;
    let capital = begins_upper(written);
    dictionary
        .compounds
        .is_compound(alloc, dictionary.stems, spelling, by_case, capital)
}
