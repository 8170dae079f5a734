//! Which derivations are licensed, sound, words that stand alone, and forbidden.

ghost use Rattle.std.specs.Prelude.{◌≡◌, []};
ghost use Rattle.std.specs.Option.{option_map, option_map_or};
ghost use Rattle.std.specs.Str.{chars};
ghost use Rattle.spell_types.specs.Bases.{allows_case, has_sharp_entry, holds_character};
ghost use Rattle.spell_types.specs.Bases.{is_alone_in_case, keeps_case};
ghost use Rattle.spell_types.specs.EntriesOf.{entry_flags, is_entry_word};
ghost use Rattle.spell_types.specs.Flags.{has};
ghost use Rattle.spell_types.specs.Licences.{has_some_with, has_prefix_without, has_suffix_without};
ghost use Rattle.spell_types.specs.Licences.{carried_by, allows, crosses, is_affix_without};
ghost use Rattle.spell_types.specs.Licences.{has_affix, meets_need, meets_circumfix};
ghost use Rattle.spell_types.specs.Licences.{some_affix_carries, some_carry, has_entry_with};
ghost use Rattle.spell_types.specs.Licences.{has_affix_with, is_first_allowed, is_second_allowed};
ghost use Rattle.spell_types.specs.Licences.{is_prefix_allowed, is_crossing_right, is_allowed};
ghost use Rattle.spell_types.specs.Licences.{meets_signs, may_stand_alone, is_licensed, is_sound};
ghost use Rattle.spell_types.specs.Licences.{is_alone, is_forbidden};

use crate::derivations::{Named, named_by};
use crate::texts::is_spelled;
use crate::{Affixes, Derivation, Flag, FlagSet, Lexicon, Rule, Signs, has};

/// Whether a derivation is in order, and each of its affixes is allowed by the entry or by another
/// affix.
#[tactic(auto, unfolding(crate::specs::Licences::is_licensed))]
pub fn licensed(lexicon: &Lexicon, d: &Derivation) -> bool
    ensures { result ≡ is_licensed lexicon.now d.now }
{
    match named_by(lexicon, d) {
        None => false,
        Some(n) => is_allowed(&n),
    }
}

/// Whether a licensed derivation meets the options NEEDAFFIX and CIRCUMFIX of hunspell(5).
#[tactic(auto, unfolding(crate::specs::Licences::is_sound))]
pub fn sound(lexicon: &Lexicon, d: &Derivation) -> bool
    ensures { result ≡ is_sound lexicon.now d.now }
{
    match named_by(lexicon, d) {
        None => false,
        Some(n) => meets_signs(&lexicon.affixes.signs, &n),
    }
}

/// Whether a sound derivation stands as a word: the options FORBIDDENWORD, ONLYINCOMPOUND, WARN and
/// FORBIDWARN of hunspell(5).
#[tactic(auto, unfolding(crate::specs::Licences::is_alone))]
pub fn alone(lexicon: &Lexicon, d: &Derivation) -> bool
    ensures { result ≡ is_alone lexicon.now d.now }
{
    match named_by(lexicon, d) {
        None => false,
        Some(n) => meets_signs(&lexicon.affixes.signs, &n) && may_stand_alone(&lexicon.affixes, &n),
    }
}

/// The case of a written word, seen from a spelling that it stands for.
#[derive(Clone, Copy, Debug, PartialEq, Eq)]
pub enum Case {
    /// The written word is spelled so itself.
    Same,
    /// Another case, which is right for words that hold ß by the option CHECKSHARPS of hunspell(5).
    Sharp,
    /// Another case.
    Other,
}

/// Whether a derivation stands as a word for a word that is written in this case: the options
/// KEEPCASE and CHECKSHARPS of hunspell(5).
#[tactic(auto, unfolding(crate::specs::Bases::is_alone_in_case))]
pub fn alone_in_case(case: Case, lexicon: &Lexicon, d: &Derivation) -> bool
    ensures { result ≡ is_alone_in_case case lexicon.now d.now }
{
    alone(lexicon, d) && allows_case(case, lexicon, d)
}

/// Whether a derivation may stand for a word that is written in this case.
fn allows_case(case: Case, lexicon: &Lexicon, d: &Derivation) -> bool
    ensures { result ≡ allows_case case lexicon.now d.now }
{
    match case {
        Case::Same => true,
        Case::Sharp => !keeps_case(lexicon, d) || has_sharp_entry(lexicon, d),
        Case::Other => !keeps_case(lexicon, d),
    }
}

fn keeps_case(lexicon: &Lexicon, d: &Derivation) -> bool
    ensures { result ≡ keeps_case lexicon.now d.now }
{
    has_entry_with(lexicon.affixes.signs.keep_case, lexicon, d)
}

/// Whether the word of a derivation's entry holds ß.
fn has_sharp_entry(lexicon: &Lexicon, d: &Derivation) -> bool
    ensures { result ≡ has_sharp_entry lexicon.now d.now }
{
    match lexicon.entries.get(d.entry as usize) {
        None => false,
        Some(entry) => holds_sharp(entry.word),
    }
}

fn holds_sharp(word: &str) -> bool
    ensures { result ≡ holds_character 223 (chars word.now) }
{
    for c in word.chars() {
        if c == 'ß' {
            return true;
        }
    }
    false
}

/// Whether a derivation's entry has the flag, if it is given.
#[tactic(auto, unfolding(crate::specs::Licences::has_entry_with))]
pub fn has_entry_with(flag: Option<Flag>, lexicon: &Lexicon, d: &Derivation) -> bool
    ensures { result ≡ has_entry_with flag lexicon.now d.now }
{
    match named_by(lexicon, d) {
        None => false,
        Some(n) => has(n.entry.flags, flag),
    }
}

/// Whether an affix of a derivation carries the flag, if it is given.
#[tactic(auto, unfolding(crate::specs::Licences::has_affix_with))]
pub fn has_affix_with(flag: Option<Flag>, lexicon: &Lexicon, d: &Derivation) -> bool
    ensures { result ≡ has_affix_with flag lexicon.now d.now }
{
    match named_by(lexicon, d) {
        None => false,
        Some(n) => some_affix_carries(flag, &n),
    }
}

/// Whether a derivation's entry or an affix of it carries the flag, if it is given.
#[tactic(auto, unfolding(crate::specs::Licences::has_some_with))]
pub fn has_some_with(flag: Option<Flag>, lexicon: &Lexicon, d: &Derivation) -> bool
    ensures { result ≡ has_some_with flag lexicon.now d.now }
{
    match named_by(lexicon, d) {
        None => false,
        Some(n) => some_carry(flag, &n),
    }
}

/// Whether a derivation has a prefix that does not carry the flag. A flag that is not given is
/// carried by none.
#[tactic(auto, unfolding(crate::specs::Licences::has_prefix_without))]
pub fn has_prefix_without(flag: Option<Flag>, lexicon: &Lexicon, d: &Derivation) -> bool
    ensures { result ≡ has_prefix_without flag lexicon.now d.now }
{
    match named_by(lexicon, d) {
        None => false,
        Some(n) => is_affix_without(flag, n.prefix),
    }
}

/// Whether a derivation has a suffix that does not carry the flag. A flag that is not given is
/// carried by none.
#[tactic(auto, unfolding(crate::specs::Licences::has_suffix_without))]
pub fn has_suffix_without(flag: Option<Flag>, lexicon: &Lexicon, d: &Derivation) -> bool
    ensures { result ≡ has_suffix_without flag lexicon.now d.now }
{
    match named_by(lexicon, d) {
        None => false,
        Some(n) => is_affix_without(flag, n.first) || is_affix_without(flag, n.second),
    }
}

/// The flags of a derivation's entry. None where the derivation names no entry.
pub fn entry_flags<'a>(lexicon: &'a Lexicon, d: &Derivation) -> Option<&'a FlagSet>
    ensures { option_map_or (λ set. set.now) result [] ≡ entry_flags lexicon.now d.now }
{
    let entry = lexicon.entries.get(d.entry as usize)?;
    Some(entry.flags)
}

/// Whether a text is the word of a derivation's entry, as it is.
pub fn is_entry_word(lexicon: &Lexicon, text: &[char], d: &Derivation) -> bool
    ensures { result ≡ is_entry_word lexicon.now text.now d.now }
{
    match lexicon.entries.get(d.entry as usize) {
        None => false,
        Some(entry) => is_spelled(entry.word, text),
    }
}

/// Whether a derivation is sound and its entry a forbidden word: the option FORBIDDENWORD of
/// hunspell(5).
#[tactic(auto, unfolding(crate::specs::Licences::is_forbidden))]
pub fn forbidden(lexicon: &Lexicon, d: &Derivation) -> bool
    ensures { result ≡ is_forbidden lexicon.now d.now }
{
    let signs = &lexicon.affixes.signs;
    match named_by(lexicon, d) {
        None => false,
        Some(n) => meets_signs(signs, &n) && has(n.entry.flags, signs.forbidden),
    }
}

/// Whether a derivation is allowed, and NEEDAFFIX and CIRCUMFIX are met.
fn meets_signs(signs: &Signs, n: &Named) -> bool
    ensures { result ≡ meets_signs signs.now n.now }
{
    is_allowed(n) && meets_need(signs.need_affix, n) && meets_circumfix(signs.circumfix, n)
}

/// Whether each affix is allowed, and those of the two sides may stand together.
fn is_allowed(n: &Named) -> bool
    ensures { result ≡ is_allowed n.now }
{
    is_first_allowed(n) && is_second_allowed(n) && is_prefix_allowed(n) && is_crossing_right(n)
}

/// Whether the entry allows the first suffix, or a prefix that the entry allows.
fn is_first_allowed(n: &Named) -> bool
    ensures { result ≡ is_first_allowed n.now }
{
    allows(n.entry.flags, n.first)
        || (allows(n.entry.flags, n.prefix) && affix_allows(n.prefix, n.first))
}

/// Whether the first suffix allows the second.
fn is_second_allowed(n: &Named) -> bool
    ensures { result ≡ is_second_allowed n.now }
{
    affix_allows(n.first, n.second)
}

/// Whether the entry or a suffix allows the prefix.
fn is_prefix_allowed(n: &Named) -> bool
    ensures { result ≡ is_prefix_allowed n.now }
{
    allows(n.entry.flags, n.prefix)
        || affix_allows(n.first, n.prefix)
        || affix_allows(n.second, n.prefix)
}

/// Whether a prefix and suffixes that stand on one word are all of classes that cross.
fn is_crossing_right(n: &Named) -> bool
    ensures { result ≡ is_crossing_right n.now }
{
    n.prefix.is_none()
        || n.first.is_none()
        || (crosses(n.prefix) && crosses(n.first) && crosses(n.second))
}

/// Whether an affix is without NEEDAFFIX, or there is no affix and the entry is without it.
fn meets_need(need: Option<Flag>, n: &Named) -> bool
    ensures { result ≡ meets_need need n.now }
{
    if has_affix(n) {
        is_affix_without(need, n.prefix)
            || is_affix_without(need, n.first)
            || is_affix_without(need, n.second)
    } else {
        !has(n.entry.flags, need)
    }
}

/// Whether the prefix carries CIRCUMFIX if and only if a suffix does.
fn meets_circumfix(circumfix: Option<Flag>, n: &Named) -> bool
    ensures { result ≡ meets_circumfix circumfix n.now }
{
    let by_suffix = carries(n.first, circumfix) || carries(n.second, circumfix);
    carries(n.prefix, circumfix) == by_suffix
}

/// Whether nothing bars a sound derivation from standing as a word.
fn may_stand_alone(affixes: &Affixes, n: &Named) -> bool
    ensures { result ≡ may_stand_alone affixes.now n.now }
{
    !has(n.entry.flags, affixes.signs.forbidden)
        && !some_carry(affixes.signs.only_inside, n)
        && !(affixes.options.forbid_warn && has(n.entry.flags, affixes.signs.warn))
}

/// Whether the entry or an affix carries the flag.
fn some_carry(flag: Option<Flag>, n: &Named) -> bool
    ensures { result ≡ some_carry flag n.now }
{
    has(n.entry.flags, flag) || some_affix_carries(flag, n)
}

/// Whether an affix carries the flag.
fn some_affix_carries(flag: Option<Flag>, n: &Named) -> bool
    ensures { result ≡ some_affix_carries flag n.now }
{
    carries(n.prefix, flag) || carries(n.first, flag) || carries(n.second, flag)
}

fn has_affix(n: &Named) -> bool
    ensures { result ≡ has_affix n.now }
{
    !(n.prefix.is_none() && n.first.is_none() && n.second.is_none())
}

/// Whether there is no affix, or its class's flag is one of these.
fn allows(flags: &FlagSet, affix: Option<&Rule>) -> bool
    ensures { result ≡ allows flags.now (option_map (λ rule. rule.now) affix.entry) }
{
    match affix {
        None => true,
        Some(rule) => has(flags, Some(rule.flag)),
    }
}

/// Whether there is no affix, or another one allows it.
fn affix_allows(by: Option<&Rule>, affix: Option<&Rule>) -> bool
    ensures { result ≡ allows (carried_by (option_map (λ rule. rule.now) by.entry))
        (option_map (λ rule. rule.now) affix.entry) }
{
    match by {
        None => affix.is_none(),
        Some(rule) => allows(&rule.carried, affix),
    }
}

/// Whether there is an affix, and it carries the flag.
fn carries(affix: Option<&Rule>, flag: Option<Flag>) -> bool
    ensures { result ≡ has (carried_by (option_map (λ rule. rule.now) affix.entry)) flag }
{
    match affix {
        None => false,
        Some(rule) => has(&rule.carried, flag),
    }
}

/// Whether there is an affix, and it does not carry the flag.
fn is_affix_without(flag: Option<Flag>, affix: Option<&Rule>) -> bool
    ensures { result ≡ is_affix_without flag (option_map (λ rule. rule.now) affix.entry) }
{
    match affix {
        None => false,
        Some(rule) => !has(&rule.carried, flag),
    }
}

/// Whether there is no affix, or it may stand beside one at the word's other end.
fn crosses(affix: Option<&Rule>) -> bool
    ensures { result ≡ crosses (option_map (λ rule. rule.now) affix.entry) }
{
    match affix {
        None => true,
        Some(rule) => rule.cross,
    }
}
