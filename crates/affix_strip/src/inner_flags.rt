//! Flags of which the entry of each part before another one of a compound has one.

ghost use Rattle.std.specs.Prelude.{◌≡◌, ◌++◌, [], IfOk, OnOk, filter, map};
ghost use Rattle.std.specs.List.{list_any};
ghost use Rattle.spell_types.specs.Flags.{has_flag_of, put_all};
ghost use Rattle.affix_strip.specs.Inside.{HasGiven, HasInnerFlags, HasOwnFlags, HasPatterns};
ghost use Rattle.affix_strip.specs.Inside.{HasSteps, HasCarriers, KeepsFlags, lacks_carrier};

use crate::rule_flags::{carry_few, listed_flags};
use spell_types::lists::NoMemory;
use spell_types::{
    Affixes, Flag, FlagSet, Pattern, PatternStep, Rule, has, has_flag_of, sets_have_their_flags,
};
use std::alloc::Global;

/// How often classes are looked for by whose rules a part may get a flag: one more than a part may
/// have affixes. Where that is not enough the flags of all classes are taken.
const MOST_PASSES: usize = 4;

/// The flags that allow parts before others, those of compound rules, and those of the classes by
/// whose affixes a part may get one of them.
pub(crate) fn inner_flags(alloc: Global, affixes: &Affixes) -> Result<FlagSet, NoMemory>
    ensures { IfOk result (HasInnerFlags affixes.now) }
{
    let own = own_flags(alloc, affixes)?;
    closed(alloc, &affixes.rules, own)
}

/// The flags that allow parts before others, and those of compound rules.
fn own_flags(alloc: Global, affixes: &Affixes) -> Result<FlagSet, NoMemory>
    ensures { IfOk result (HasOwnFlags affixes.now) }
{
    let signs = &affixes.signs;
    let mut flags = FlagSet::new(alloc);
    put_given(signs.compound, &mut flags)?;
    put_given(signs.begin, &mut flags)?;
    put_given(signs.middle, &mut flags)?;
    put_patterns(&affixes.patterns, &mut flags)?;
    Ok(flags)
}

/// These flags, and that of each class with a rule that carries one of them, or one of those.
fn closed(alloc: Global, rules: &[Rule], own: FlagSet) -> Result<FlagSet, NoMemory>
    ensures kept { IfOk result (KeepsFlags own) }
    ensures closed { IfOk result (HasCarriers rules.now) }
{
    sets_have_their_flags();
    let mut flags = own;
    if carry_few(rules) {
        for _ in 0..MOST_PASSES {
            if !one_lacks_carrier(rules, &flags) {
                return Ok(flags);
            }
            let more = carriers(alloc, rules, &flags)?;
            flags = joined(alloc, &flags, more.as_slice())?;
        }
    }
    let all = listed_flags(alloc, rules)?;
    joined(alloc, &flags, all.as_slice())
}

/// Whether a rule carries a flag of the set, and the flag of its class is not there.
fn one_lacks_carrier(rules: &[Rule], set: &FlagSet) -> bool
    ensures { result ≡ list_any (lacks_carrier set.now) rules.now }
{
    rules.iter().any(|rule| lacks_carrier(rule, set))
}

fn lacks_carrier(rule: &Rule, set: &FlagSet) -> bool
    ensures { result ≡ lacks_carrier set.now rule.now }
{
    has_flag_of(&rule.carried, set) && !has(set, Some(rule.flag))
}

/// The flags of the classes of rules that carry one of the flags, rule by rule.
fn carriers(alloc: Global, rules: &[Rule], set: &FlagSet) -> Result<Vec<Flag>, NoMemory>
    ensures { IfOk result (λ flags. flags.items
        ≡ map (λ rule. rule.flag) (filter (λ rule. has_flag_of set.now rule.carried) rules.now)) }
{
    let flags = rules
        .iter()
        .filter(|rule| has_flag_of(&rule.carried, set))
        .map(|rule| rule.flag)
        .collect(alloc)?;
    Ok(flags)
}

/// The set with more flags.
fn joined(alloc: Global, set: &FlagSet, more: &[Flag]) -> Result<FlagSet, NoMemory>
    ensures { IfOk result (λ made. made ≡ put_all [] (set.now ++ more.now)) }
{
    let mut flags = set.as_slice().to_vec(alloc)?;
    flags.extend_from_slice(more)?;
    FlagSet::from_list(alloc, flags)
}

/// Puts a flag into a set, if one is given.
fn put_given(flag: Option<Flag>, set: &mut FlagSet) -> Result<(), NoMemory>
    ensures there { OnOk result (HasGiven set.new flag) }
    ensures kept { OnOk result (KeepsFlags set.old set.new) }
{
    sets_have_their_flags();
    match flag {
        None => Ok(()),
        Some(flag) => set.insert(flag),
    }
}

/// Puts the flags of all steps of compound rules into a set.
fn put_patterns(patterns: &[Pattern], set: &mut FlagSet) -> Result<(), NoMemory>
    ensures there { OnOk result (HasPatterns set.new patterns.now) }
    ensures kept { OnOk result (KeepsFlags set.old set.new) }
{
    for pattern in patterns {
        put_steps(pattern, set)?;
    }
    Ok(())
}

/// Puts the flags of the steps of a compound rule into a set.
fn put_steps(steps: &[PatternStep], set: &mut FlagSet) -> Result<(), NoMemory>
    ensures there { OnOk result (HasSteps set.new steps.now) }
    ensures kept { OnOk result (KeepsFlags set.old set.new) }
{
    sets_have_their_flags();
    for step in steps {
        set.insert(step.flag)?;
    }
    Ok(())
}
