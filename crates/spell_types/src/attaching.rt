//! Attaching affix rules to words, and the conditions of rules.

ghost use Rattle.std.specs.Prelude.{◌≡◌, ◌≤◌, ◌++◌, length, IfOk, IsTrue};
ghost use Rattle.spell_types.specs.Conditions.{is_one_of, accepts_character, accepts_each};
ghost use Rattle.spell_types.specs.Conditions.{fits_front};
ghost use Rattle.spell_types.specs.Conditions.{fits_back};
ghost use Rattle.spell_types.specs.Attaching.{may_strip, takes_suffix, takes_prefix};
ghost use Rattle.spell_types.specs.Attaching.{attached_suffix, attached_prefix, attached};

use crate::{Chars, Condition, Piece, Rule, Side};
use lists::{Items, NoMemory};
use std::alloc::Global;

/// Whether a condition fits the front of a word.
pub fn matches_front(condition: &Condition, word: &[char]) -> bool
    ensures { result ≡ fits_front condition.now word.now }
{
    let pieces = condition.as_slice();
    pieces.len() <= word.len() && accepts_each(pieces, &word[..pieces.len()])
}

/// Whether a condition fits the end of a word.
pub fn matches_back(condition: &Condition, word: &[char]) -> bool
    ensures { result ≡ fits_back condition.now word.now }
{
    let pieces = condition.as_slice();
    pieces.len() <= word.len() && accepts_each(pieces, &word[word.len() - pieces.len()..])
}

/// The word that attaching the rule to a word gives, or none where it may not be attached.
/// `full_strip` says whether a rule may strip a word whole: the option FULLSTRIP of hunspell(5).
#[tactic(auto, unfolding(crate::specs::Attaching::attached))]
pub fn attach(
    alloc: Global,
    rule: &Rule,
    full_strip: bool,
    word: &[char],
) -> Result<Option<Chars>, NoMemory>
    ensures { IfOk result (λ made. made ≡ attached full_strip rule.now word.now) }
{
    match rule.side {
        Side::Prefix => attach_prefix(alloc, rule, full_strip, word),
        Side::Suffix => attach_suffix(alloc, rule, full_strip, word),
    }
}

/// A text and another one behind it.
pub fn joined(alloc: Global, front: &[char], back: &[char]) -> Result<Chars, NoMemory>
    ensures { IfOk result (λ made. made ≡ front.now ++ back.now) }
{
    let mut made = Items::from_vec(front.to_vec(alloc)?);
    for c in back {
        made.push(*c)?;
    }
    Ok(made)
}

fn attach_prefix(
    alloc: Global,
    rule: &Rule,
    full_strip: bool,
    word: &[char],
) -> Result<Option<Chars>, NoMemory>
    ensures { IfOk result (λ made. made ≡ attached_prefix full_strip rule.now word.now) }
{
    if !takes_prefix(rule, full_strip, word) {
        return Ok(None);
    }
    let rest = &word[rule.strip.len()..];
    Ok(Some(joined(alloc, &rule.add, rest)?))
}

fn attach_suffix(
    alloc: Global,
    rule: &Rule,
    full_strip: bool,
    word: &[char],
) -> Result<Option<Chars>, NoMemory>
    ensures { IfOk result (λ made. made ≡ attached_suffix full_strip rule.now word.now) }
{
    if !takes_suffix(rule, full_strip, word) {
        return Ok(None);
    }
    let rest = &word[..word.len() - rule.strip.len()];
    Ok(Some(joined(alloc, rest, &rule.add)?))
}

/// Whether a prefix rule may be attached to a word. A word that it may strip is no shorter.
fn takes_prefix(rule: &Rule, full_strip: bool, word: &[char]) -> bool
    ensures takes { result ≡ takes_prefix full_strip rule.now word.now }
    ensures within { IsTrue result → length rule.now.strip ≤ length word.now }
{
    word.starts_with(&rule.strip)
        && may_strip(rule, full_strip, word)
        && matches_front(&rule.condition, word)
}

/// Whether a suffix rule may be attached to a word. A word that it may strip is no shorter.
fn takes_suffix(rule: &Rule, full_strip: bool, word: &[char]) -> bool
    ensures takes { result ≡ takes_suffix full_strip rule.now word.now }
    ensures within { IsTrue result → length rule.now.strip ≤ length word.now }
{
    word.ends_with(&rule.strip)
        && may_strip(rule, full_strip, word)
        && matches_back(&rule.condition, word)
}

/// Whether what a rule strips off leaves something of a word, or words may be stripped whole.
fn may_strip(rule: &Rule, full_strip: bool, word: &[char]) -> bool
    ensures { result ≡ may_strip full_strip rule.now word.now }
{
    full_strip || rule.strip.len() < word.len()
}

/// Whether a text has as many characters as there are pieces, and each piece accepts its character.
fn accepts_each(pieces: &[Piece], text: &[char]) -> bool
    requires { length pieces.now ≡ length text.now }
    ensures { result ≡ accepts_each pieces.now text.now }
{
    for (place, piece) in pieces.iter().enumerate() {
        if !accepts(piece, text[place]) {
            return false;
        }
    }
    true
}

/// Whether a piece accepts a character.
fn accepts(piece: &Piece, c: char) -> bool
    ensures { result ≡ accepts_character piece.now c }
{
    match piece {
        Piece::Any => true,
        Piece::One(only) => *only == c,
        Piece::Among(some) => is_one_of(some, c),
        Piece::NotAmong(some) => !is_one_of(some, c),
    }
}

/// Whether one of the characters is this character.
fn is_one_of(some: &[char], c: char) -> bool
    ensures { result ≡ is_one_of some.now c }
{
    some.iter().any(|other| *other == c)
}
