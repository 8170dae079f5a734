//! Affix rules undone: attached backwards.

ghost use Rattle.std.specs.Prelude.{◌≡◌, ℕ, Bool, List, Some, IfOk};
ghost use Rattle.spell_types.specs.declared.rules.Rule.{Rule};
ghost use Rattle.spell_types.specs.declared.rules.Side.{Side};
ghost use Rattle.spell_types.specs.Attaching.{attached, IsUndone};
ghost use Rattle.affix_classes.specs.Undoing.{undone_suffix, undone_prefix, undone_on};

use spell_types::lists::NoMemory;
use spell_types::{Chars, Rule, Side, joined, matches_back, matches_front};
use std::alloc::Global;

/// The word that becomes this one when the suffix rule is attached to it, or none where there is no
/// such word.
pub fn undo_suffix(
    alloc: Global,
    rule: &Rule,
    full_strip: bool,
    word: &[char],
) -> Result<Option<Chars>, NoMemory>
    requires { rule.now.side ≡ Side.Suffix }
    ensures stem { IfOk result (λ found. found ≡ undone_suffix full_strip rule.now word.now) }
    ensures undone { IfOk result (λ found. IsUndone (attached full_strip rule.now) word.now found) }
{
    suffix_stem(alloc, rule, full_strip, word)
}

/// The word that becomes this one when the prefix rule is attached to it, or none where there is no
/// such word.
pub fn undo_prefix(
    alloc: Global,
    rule: &Rule,
    full_strip: bool,
    word: &[char],
) -> Result<Option<Chars>, NoMemory>
    requires { rule.now.side ≡ Side.Prefix }
    ensures stem { IfOk result (λ found. found ≡ undone_prefix full_strip rule.now word.now) }
    ensures undone { IfOk result (λ found. IsUndone (attached full_strip rule.now) word.now found) }
{
    prefix_stem(alloc, rule, full_strip, word)
}

/// What is undone on the rule's side is the one word that becomes this one when the rule is
/// attached to it, and there is such a word exactly where one is undone.
pub fn undoing_leads_back()
    ensures { (full_strip : Bool) (rule : Rule) (word : List ℕ) →
        IsUndone (attached full_strip rule) word (undone_on rule.side full_strip rule word) }
{}

/// A rule and a word leave at most one word that the rule may have been attached to.
pub fn undoing_is_unique()
    ensures { (full_strip : Bool) (rule : Rule) (word stem other : List ℕ) →
        attached full_strip rule stem ≡ Some word → attached full_strip rule other ≡ Some word
        → stem ≡ other }
{}

/// The word that a suffix rule was attached to.
fn suffix_stem(
    alloc: Global,
    rule: &Rule,
    full_strip: bool,
    word: &[char],
) -> Result<Option<Chars>, NoMemory>
    ensures { IfOk result (λ found. found ≡ undone_suffix full_strip rule.now word.now) }
{
    if !word.ends_with(&rule.add) {
        return Ok(None);
    }
    let rest = &word[..word.len() - rule.add.len()];
    if rest.is_empty() && !full_strip {
        return Ok(None);
    }
    let stem = joined(alloc, rest, &rule.strip)?;
    if !matches_back(&rule.condition, &stem) {
        return Ok(None);
    }
    Ok(Some(stem))
}

/// The word that a prefix rule was attached to.
fn prefix_stem(
    alloc: Global,
    rule: &Rule,
    full_strip: bool,
    word: &[char],
) -> Result<Option<Chars>, NoMemory>
    ensures { IfOk result (λ found. found ≡ undone_prefix full_strip rule.now word.now) }
{
    if !word.starts_with(&rule.add) {
        return Ok(None);
    }
    let rest = &word[rule.add.len()..];
    if rest.is_empty() && !full_strip {
        return Ok(None);
    }
    let stem = joined(alloc, &rule.strip, rest)?;
    if !matches_front(&rule.condition, &stem) {
        return Ok(None);
    }
    Ok(Some(stem))
}
