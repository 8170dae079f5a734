//! The text of a compound rule, read.

ghost use Rattle.std.specs.Prelude.{◌≡◌, ◌≢◌, ◌↔◌, ℕ, ◌<◌, ◌≤◌, List, [], ◌∷◌, ◌++◌, length, All};
ghost use Rattle.std.specs.Prelude.{Ok, Err, Some, None, IfNone, IfSome, IfOk, IfErr};
ghost use Rattle.std.specs.Prelude.{option_and_then};
ghost use Rattle.std.specs.Char.{encode_utf8};
ghost use Rattle.std.specs.Str.{chars};
ghost use Rattle.spell_types.specs.declared.flags.FlagKind.{FlagKind};
ghost use Rattle.spell_types.specs.declared.patterns.PatternStep.{PatternStep};
ghost use Rattle.spell_types.specs.Flags.{IsOrdinary};
ghost use Rattle.compound_pattern.specs.PatternTexts.{Item, IsWrittenBy, ReadsPattern, HasBadFlag};
ghost use Rattle.compound_pattern.specs.PatternTexts.{BeginsWithFlag, PatternTextGoesOn};
ghost use Rattle.compound_pattern.specs.PatternTexts.{is_bare_flag};
ghost use Rattle.compound_pattern.specs.PatternTexts.{times_before, sign, pattern_of};

use flag_sets::read_one_flag;
use spell_types::lists::{Items, NoMemory};
use spell_types::{FlagKind, Pattern, PatternStep, Times};
use std::alloc::Global;

/// Why a text is no compound rule.
#[derive(Clone, Copy, Debug, PartialEq, Eq)]
pub enum PatternFault {
    /// The text is no flags with or without signs behind them: a sign follows no flag, parentheses
    /// are not both there, a character stands where flags of the type need parentheses, or the text
    /// is empty.
    BadPattern,
    /// Parentheses don't hold exactly one flag.
    BadFlag,
    /// Memory for the answer could not be had.
    NoMemory,
}

impl From<NoMemory> for PatternFault {
    ghost use Rattle.compound_pattern.specs.declared.reading.PatternFault.{PatternFault};

    ghost from_gives = { λ _ fault. fault ≡ PatternFault.NoMemory };

    fn from(_error: NoMemory) -> PatternFault {
        PatternFault::NoMemory
    }
}

/// The rule that a row of the option COMPOUNDRULE of hunspell(5) is. Where a text has both faults,
/// `BadPattern` is told.
pub fn read_pattern(alloc: Global, kind: FlagKind, text: &str) -> Result<Pattern, PatternFault>
    ensures pattern { IfOk result (λ pattern. pattern_of kind text.now ≡ Ok pattern) }
    ensures fault { IfErr result
        (λ fault. fault ≢ PatternFault.NoMemory → pattern_of kind text.now ≡ Err fault) }
    ensures ordinary { IfOk result (All (λ step. IsOrdinary step.flag)) }
{
    if text.is_empty() {
        return Err(PatternFault::BadPattern);
    }
    let mut steps = Items::new(alloc);
    let mut are_flags = true;
    let mut rest = text;
    while !rest.is_empty() {
        let Some((step, more)) = next_step(kind, rest) else {
            return Err(PatternFault::BadPattern);
        };
        match step {
            Some(step) => steps.push(step)?,
            None => are_flags = false,
        }
        rest = more;
    }
    if !are_flags {
        return Err(PatternFault::BadFlag);
    }
    Ok(steps)
}

/// A text is a rule of some steps exactly where items write it that are these steps. Its fault is
/// `BadPattern` exactly where no items write it, and `BadFlag` exactly where they do and the text
/// of one of them is not one flag.
pub fn patterns_are_read()
    ensures read { (kind : FlagKind) (text : List ℕ) (steps : List PatternStep) →
        (pattern_of kind text ≡ Ok steps) ↔ ReadsPattern kind text steps }
    ensures bad_pattern { (kind : FlagKind) (text : List ℕ) →
        (pattern_of kind text ≡ Err PatternFault.BadPattern)
        ↔ ((items : List Item) → ¬ (IsWrittenBy kind text items)) }
    ensures bad_flag { (kind : FlagKind) (text : List ℕ) →
        (pattern_of kind text ≡ Err PatternFault.BadFlag) ↔ HasBadFlag kind text }
{}

/// The first item of a text as a step, if its text is one flag, and the text behind the item. None
/// where no item begins the text.
fn next_step(kind: FlagKind, text: &str) -> Option<(Option<PatternStep>, &str)>
    requires { 0 < length text.now }
    ensures goes_on { PatternTextGoesOn kind text.now result }
    ensures shorter { IfSome result (λ found. length found.1.now < length text.now) }
    ensures ordinary { IfSome result (λ found. IfSome found.0 (λ step. IsOrdinary step.flag)) }
{
    let (own, behind) = first_flag(kind, text)?;
    let (times, rest) = times_before(behind);
    let step = read_one_flag(kind, own).map(|flag| PatternStep { flag, times });
    Some((step, rest))
}

/// The own text of the flag that begins a text, and the text behind the flag.
fn first_flag(kind: FlagKind, text: &str) -> Option<(&str, &str)>
    requires { 0 < length text.now }
    ensures begins { BeginsWithFlag kind text.now result }
    ensures shorter { IfSome result (λ found. length found.1.now < length text.now) }
{
    let (first, behind) = next_character(text)?;
    if first == '(' {
        return behind.split_once(')');
    }
    if !is_bare_flag(kind, first) {
        return None;
    }
    Some(text.split_at(first.len_utf8()))
}

/// Whether a character is a flag without parentheses.
fn is_bare_flag(kind: FlagKind, c: char) -> bool
    ensures { result ≡ is_bare_flag kind c }
{
    matches!(kind, FlagKind::Single | FlagKind::Utf8) && !matches!(c, '(' | ')' | '*' | '?')
}

/// How many parts a flag before this text stands for, and the text behind the sign that says so.
fn times_before(text: &str) -> (Times, &str)
    ensures times { result.0 ≡ times_before (chars text.now) }
    ensures rest { chars text.now ≡ sign result.0 ++ chars result.1.now }
    ensures within { length result.1.now ≤ length text.now }
{
    match next_character(text) {
        Some(('*', rest)) => (Times::Many, rest),
        Some(('?', rest)) => (Times::Maybe, rest),
        _ => (Times::Once, text),
    }
}

/// The first character of a text, and the rest of it.
fn next_character(text: &str) -> Option<(char, &str)>
    ensures ends { IfNone result (length text.now ≡ 0) }
    ensures none { IfNone result (chars text.now ≡ []) }
    ensures first { IfSome result (λ found. chars text.now ≡ found.0 ∷ chars found.1.now) }
    ensures encoded { IfSome result (λ found. text.now ≡ encode_utf8 found.0 ++ found.1.now) }
    ensures shorter { IfSome result (λ found. length found.1.now < length text.now) }
{
    let mut characters = text.chars();
    let first = characters.next()?;
    Some((first, characters.as_str()))
}
