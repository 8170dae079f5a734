//! How a word is derived from an entry.

ghost use Rattle.std.specs.Prelude.{◌≡◌, IfOk};
ghost use Rattle.std.specs.Option.{option_map};
ghost use Rattle.spell_types.specs.Derivations.{is_same_side, rule_on, affix_on, is_right};
ghost use Rattle.spell_types.specs.Derivations.{is_in_order, named, with_affix, formed, form_of};

use crate::{Chars, EntryRef, Lexicon, Rule, Side, attach, chars_of};
use lists::NoMemory;
use std::alloc::Global;
use std::marker::Model;

/// An entry and the affix rules that are attached to its word: a first suffix, then a second, and
/// last a prefix. The numbers are places, from 0, in the entries and in the rules of a dictionary.
#[derive(Clone, Copy, Debug, PartialEq, Eq)]
pub struct Derivation {
    pub entry: u32,
    pub prefix: Option<u32>,
    pub first: Option<u32>,
    pub second: Option<u32>,
}

/// What a derivation names.
#[derive(Drop)]
pub(crate) struct Named<'a> {
    pub(crate) entry: EntryRef<'a>,
    pub(crate) prefix: Option<&'a Rule>,
    pub(crate) first: Option<&'a Rule>,
    pub(crate) second: Option<&'a Rule>,
}

impl<'a> Model for Named<'a> {
    ghost use Rattle.std.specs.Option.{option_map};
    ghost use Rattle.spell_types.specs.Derivations.{Named};

    ghost Value = { Named };

    ghost view = { λ inside. record {
      entry = inside.entry;
      prefix = option_map (λ rule. rule.now) inside.prefix;
      first = option_map (λ rule. rule.now) inside.first;
      second = option_map (λ rule. rule.now) inside.second;
    } };
}

/// The word that a derivation gives: its form. None where the derivation names what is not there, a
/// rule of the wrong side, or a second suffix and no first, or where a rule may not be attached.
#[tactic(auto, unfolding(crate::specs::Derivations::form_of))]
pub fn form(alloc: Global, lexicon: &Lexicon, d: &Derivation) -> Result<Option<Chars>, NoMemory>
    ensures { IfOk result (λ made. made ≡ form_of lexicon.now d.now) }
{
    match named_by(lexicon, d) {
        None => Ok(None),
        Some(n) => formed(alloc, &n, lexicon.affixes.options.full_strip),
    }
}

/// What a derivation names, if it is in order.
pub(crate) fn named_by<'a>(lexicon: &'a Lexicon, d: &Derivation) -> Option<Named<'a>>
    ensures { result ≡ named lexicon.now d.now }
{
    let rules = lexicon.affixes.rules.as_slice();
    if !is_in_order(rules, d) {
        return None;
    }
    match lexicon.entries.get(d.entry as usize) {
        None => None,
        Some(entry) => Some(Named {
            entry,
            prefix: affix_on(rules, Side::Prefix, d.prefix),
            first: affix_on(rules, Side::Suffix, d.first),
            second: affix_on(rules, Side::Suffix, d.second),
        }),
    }
}

/// Whether each rule that is named is one of its side, and a second suffix stands behind a first.
fn is_in_order(rules: &[Rule], d: &Derivation) -> bool
    ensures { result ≡ is_in_order rules.now d.now }
{
    is_right(rules, Side::Prefix, d.prefix)
        && is_right(rules, Side::Suffix, d.first)
        && is_right(rules, Side::Suffix, d.second)
        && (d.second.is_none() || d.first.is_some())
}

/// Whether no rule is named, or one of the side.
fn is_right(rules: &[Rule], side: Side, named: Option<u32>) -> bool
    ensures { result ≡ is_right rules.now side named }
{
    match named {
        None => true,
        Some(place) => rule_on(rules, side, place).is_some(),
    }
}

/// The rule that is named, if one is.
fn affix_on<'a>(rules: &'a [Rule], side: Side, named: Option<u32>) -> Option<&'a Rule>
    ensures { option_map (λ rule. rule.now) result ≡ affix_on rules.now side named }
{
    match named {
        None => None,
        Some(place) => rule_on(rules, side, place),
    }
}

/// The rule with a place among the rules, if it is one of the side.
fn rule_on<'a>(rules: &'a [Rule], side: Side, place: u32) -> Option<&'a Rule>
    ensures { option_map (λ rule. rule.now) result ≡ rule_on rules.now side place }
{
    match rules.get(place as usize) {
        None => None,
        Some(rule) => {
            if is_same_side(side, rule.side) {
                Some(rule)
            } else {
                None
            }
        }
    }
}

/// Whether the sides are the same.
fn is_same_side(side: Side, other: Side) -> bool
    ensures { result ≡ is_same_side side other }
{
    matches!(
        (side, other),
        (Side::Prefix, Side::Prefix) | (Side::Suffix, Side::Suffix)
    )
}

/// The entry's word with the first suffix attached, then the second, and last the prefix.
fn formed(alloc: Global, n: &Named, full_strip: bool) -> Result<Option<Chars>, NoMemory>
    ensures { IfOk result (λ made. made ≡ formed full_strip n.now) }
{
    let word = chars_of(alloc, n.entry.word)?;
    let Some(once) = with_affix(alloc, n.first, full_strip, word)? else {
        return Ok(None);
    };
    let Some(twice) = with_affix(alloc, n.second, full_strip, once)? else {
        return Ok(None);
    };
    with_affix(alloc, n.prefix, full_strip, twice)
}

/// The word with an affix attached, if there is one.
fn with_affix(
    alloc: Global,
    affix: Option<&Rule>,
    full_strip: bool,
    word: Chars,
) -> Result<Option<Chars>, NoMemory>
    ensures { IfOk result (λ made.
        made ≡ with_affix full_strip (option_map (λ rule. rule.now) affix.entry) word) }
{
    match affix {
        None => Ok(Some(word)),
        Some(rule) => attach(alloc, rule, full_strip, &word),
    }
}
