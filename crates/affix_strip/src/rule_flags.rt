//! Flags of affix rules.

ghost use Rattle.std.specs.Prelude.{◌≡◌, Some, map, IfOk};
ghost use Rattle.std.specs.List.{flat_map};
ghost use Rattle.spell_types.specs.Flags.{has};
ghost use Rattle.affix_strip.specs.Classes.{HasClasses};
ghost use Rattle.affix_strip.specs.Tables.{HasCarried, AreSeconds, carried_by_suffix};

use spell_types::lists::NoMemory;
use spell_types::{Flag, FlagSet, Rule, Side, has, sets_have_their_flags};
use std::alloc::Global;

/// How many flags that rules carry are looked at one by one at most. Rules may share one long alias
/// (the option AF of hunspell(5)), so that the flags of all rules together are many more than the
/// file has bytes.
const MOST_CARRIED: usize = 1 << 22;

/// The flags of all affix classes.
pub(crate) fn flags_of_classes(alloc: Global, rules: &[Rule]) -> Result<FlagSet, NoMemory>
    ensures { IfOk result (λ set. HasClasses rules.now set) }
{
    sets_have_their_flags();
    FlagSet::from_list(alloc, listed_flags(alloc, rules)?)
}

/// The flag of each rule.
pub(crate) fn listed_flags(alloc: Global, rules: &[Rule]) -> Result<Vec<Flag>, NoMemory>
    ensures { IfOk result (λ flags. flags.items ≡ map (λ rule. rule.flag) rules.now) }
{
    let flags = rules.iter().map(|rule| rule.flag).collect(alloc)?;
    Ok(flags)
}

/// At the place of each rule whether it may be a second suffix. Where it says no, no suffix rule
/// carries the rule's flag.
pub(crate) fn second_suffixes(alloc: Global, rules: &[Rule]) -> Result<Vec<bool>, NoMemory>
    ensures { IfOk result (λ seconds. AreSeconds rules.now seconds.items) }
{
    let carried = carried_by_suffixes(alloc, rules)?;
    with_flags(alloc, rules, &carried)
}

/// At the place of each rule whether its flag is in a set.
fn with_flags(alloc: Global, rules: &[Rule], set: &FlagSet) -> Result<Vec<bool>, NoMemory>
    ensures { IfOk result
        (λ told. told.items ≡ map (λ rule. has set.now (Some rule.flag)) rules.now) }
{
    let told = rules
        .iter()
        .map(|rule| has(set, Some(rule.flag)))
        .collect(alloc)?;
    Ok(told)
}

/// A set that has each flag of a class that suffix rules carry. Where rules carry very many flags it
/// has those of all classes, as if suffix rules carried each.
fn carried_by_suffixes(alloc: Global, rules: &[Rule]) -> Result<FlagSet, NoMemory>
    ensures { IfOk result (λ set. HasCarried rules.now set) }
{
    if !carry_few(rules) {
        return flags_of_classes(alloc, rules);
    }
    sets_have_their_flags();
    FlagSet::from_list(alloc, listed_carried(alloc, rules)?)
}

/// Whether all rules together carry so few flags that they are looked at one by one.
pub(crate) fn carry_few(rules: &[Rule]) -> bool {
    let mut count = 0usize;
    for rule in rules {
        count = count.saturating_add(rule.carried.as_slice().len());
    }
    count <= MOST_CARRIED
}

/// The flags that suffix rules carry, rule by rule.
fn listed_carried(alloc: Global, rules: &[Rule]) -> Result<Vec<Flag>, NoMemory>
    ensures { IfOk result (λ flags. flags.items ≡ flat_map carried_by_suffix rules.now) }
{
    let mut flags = Vec::new(alloc);
    for rule in rules {
        flags.extend_from_slice(carried_by_suffix(rule))?;
    }
    Ok(flags)
}

/// The flags that a rule carries, if it is a suffix rule.
fn carried_by_suffix(rule: &Rule) -> &[Flag]
    ensures { result.now ≡ carried_by_suffix rule.now }
{
    match rule.side {
        Side::Prefix => &[],
        Side::Suffix => rule.carried.as_slice(),
    }
}
