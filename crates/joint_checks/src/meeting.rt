//! Which parts of a compound may stand beside each other.

ghost use Rattle.std.specs.Prelude.{◌≡◌};
ghost use Rattle.std.specs.Option.{option_copied};
ghost use Rattle.spell_types.specs.Joints.{first_character_of, last_character_of, is_capital};
ghost use Rattle.spell_types.specs.Joints.{is_dash};
ghost use Rattle.spell_types.specs.Joints.{is_capital_inside, is_tripled, has_entry_as_given};
ghost use Rattle.spell_types.specs.Joints.{ends_as, fits_joint, has_fitting, is_case, is_dup};
ghost use Rattle.spell_types.specs.Joints.{is_joint_of, is_joint, is_triple};

use letter_case::is_upper;
use spell_types::{
    Derivation, Flag, JointPattern, Lexicon, Options, has_entry_with, is_entry_word,
};

/// Whether two parts, the forms of these derivations, may stand beside each other as they are: by
/// the options CHECKCOMPOUNDDUP, CHECKCOMPOUNDCASE, CHECKCOMPOUNDTRIPLE and CHECKCOMPOUNDPATTERN of
/// hunspell(5).
#[tactic(auto, unfolding(spell_types::specs::Joints::is_joint))]
pub fn joint_ok(lexicon: &Lexicon, x: &[char], d: &Derivation, y: &[char], e: &Derivation) -> bool
    ensures { result ≡ is_joint lexicon.now x.now d.now y.now e.now }
{
    is_joint_of(&lexicon.affixes.options, x, y) && !one_fits(lexicon, x, d, y, e)
}

/// Whether a row of CHECKCOMPOUNDPATTERN fits two parts.
pub(crate) fn one_fits(
    lexicon: &Lexicon,
    x: &[char],
    d: &Derivation,
    y: &[char],
    e: &Derivation,
) -> bool
    ensures { result ≡ has_fitting lexicon.now x.now d.now y.now e.now }
{
    lexicon
        .affixes
        .joints
        .iter()
        .any(|row| fits_joint(lexicon, x, d, y, e, row))
}

/// Whether a row of CHECKCOMPOUNDPATTERN fits two parts: the first ends and the second begins as it
/// says, and their entries have its flags.
#[tactic(auto, unfolding(spell_types::specs::Joints::fits_joint))]
pub(crate) fn fits_joint(
    lexicon: &Lexicon,
    x: &[char],
    d: &Derivation,
    y: &[char],
    e: &Derivation,
    row: &JointPattern,
) -> bool
    ensures { result ≡ fits_joint lexicon.now x.now d.now y.now e.now row.now }
{
    ends_as(row, lexicon, x, d)
        && y.starts_with(&row.begin)
        && has_entry_as_given(row.end_flag, lexicon, d)
        && has_entry_as_given(row.begin_flag, lexicon, e)
}

/// Whether a part ends as a row says: with its text, or as the entry's word that it is.
fn ends_as(row: &JointPattern, lexicon: &Lexicon, x: &[char], d: &Derivation) -> bool
    ensures { result ≡ ends_as row.now lexicon.now x.now d.now }
{
    if row.unmodified {
        is_entry_word(lexicon, x, d)
    } else {
        x.ends_with(&row.end)
    }
}

/// Whether no flag is given, or a derivation's entry has it.
fn has_entry_as_given(flag: Option<Flag>, lexicon: &Lexicon, d: &Derivation) -> bool
    ensures { result ≡ has_entry_as_given flag lexicon.now d.now }
{
    match flag {
        None => true,
        Some(flag) => has_entry_with(Some(flag), lexicon, d),
    }
}

/// Whether none of the switches that are set forbids that two words meet.
#[tactic(auto, unfolding(spell_types::specs::Joints::is_joint_of))]
pub(crate) fn is_joint_of(options: &Options, x: &[char], y: &[char]) -> bool
    ensures { result ≡ is_joint_of options.now x.now y.now }
{
    !is_dup(options, x, y) && !is_case(options, x, y) && !is_triple(options, x, y)
}

/// Whether CHECKCOMPOUNDDUP forbids that two words meet.
pub(crate) fn is_dup(options: &Options, x: &[char], y: &[char]) -> bool
    ensures { result ≡ is_dup options.now x.now y.now }
{
    options.check_dup && x == y
}

/// Whether CHECKCOMPOUNDCASE does.
pub(crate) fn is_case(options: &Options, x: &[char], y: &[char]) -> bool
    ensures { result ≡ is_case options.now x.now y.now }
{
    options.check_case && is_capital_inside(x, y)
}

/// Whether CHECKCOMPOUNDTRIPLE does.
pub(crate) fn is_triple(options: &Options, x: &[char], y: &[char]) -> bool
    ensures { result ≡ is_triple options.now x.now y.now }
{
    options.check_triple && is_tripled(x, y)
}

/// Whether a capital stands beside the place where two words meet, and no dash.
fn is_capital_inside(x: &[char], y: &[char]) -> bool
    ensures { result ≡ is_capital_inside x.now y.now }
{
    let (last, first) = (last_of(x), first_of(y));
    (is_capital(last) || is_capital(first)) && !is_dash(last) && !is_dash(first)
}

fn last_of(word: &[char]) -> Option<char>
    ensures { result ≡ last_character_of word.now }
{
    word.last().copied()
}

fn first_of(word: &[char]) -> Option<char>
    ensures { result ≡ first_character_of word.now }
{
    word.first().copied()
}

fn is_capital(c: Option<char>) -> bool
    ensures { result ≡ is_capital c }
{
    match c {
        None => false,
        Some(c) => is_upper(c),
    }
}

fn is_dash(c: Option<char>) -> bool
    ensures { result ≡ is_dash c }
{
    match c {
        None => false,
        Some(c) => c == '-',
    }
}

/// Whether a character stands three times in a row where two words meet.
fn is_tripled(x: &[char], y: &[char]) -> bool
    ensures { result ≡ is_tripled x.now y.now }
{
    match y {
        [] => false,
        [c, more @ ..] => x.ends_with(&[*c, *c]) || (x.ends_with(&[*c]) && more.starts_with(&[*c])),
    }
}
