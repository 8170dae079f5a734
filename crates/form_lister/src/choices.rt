//! The affix rules that flags allow.

ghost use Rattle.std.specs.Prelude.{◌≡◌, ◌^◌, ◌<◌, ◌++◌, List, Some, length, map, OnOk, IfOk};
ghost use Rattle.std.specs.List.Sorted.{IsNonDecreasingBy};
ghost use Rattle.spell_types.specs.declared.rules.Rule.{Rule};
ghost use Rattle.spell_types.specs.Derivations.{is_same_side};
ghost use Rattle.form_lister.specs.Choices.{HasRowsOf, HasPlaces, HasRules, AreRowsOfRules};
ghost use Rattle.form_lister.specs.Choices.{AreByFlag};
ghost use Rattle.form_lister.specs.Choices.{HasAllowed, HasChoices};

use spell_types::lists::NoMemory;
use spell_types::{Flag, Rule, Side};
use std::alloc::Global;

/// A rule, and the number of the flag of its class.
#[derive(Clone, Copy, Drop)]
struct RuleRow {
    flag: u64,
    /// The place of the rule, from 0.
    place: u32,
}

/// The affix rules of a dictionary by the flags of their classes. The rules themselves are not
/// kept: an answer names them by their places, from 0, in the list that this was made of.
#[derive(Drop)]
pub(crate) struct RulesByFlag {
    prefixes: Vec<RuleRow>,
    suffixes: Vec<RuleRow>,
}

impl RulesByFlag {
    /// These rules. It fails only where memory is wanting.
    pub(crate) fn new(alloc: Global, rules: &[Rule]) -> Result<RulesByFlag, NoMemory>
        requires { length rules.now < 2 ^ 32 }
        ensures { IfOk result (AreByFlag rules.now) }
    {
        let prefixes = rows_of(alloc, Side::Prefix, rules)?;
        let suffixes = rows_of(alloc, Side::Suffix, rules)?;
        Ok(RulesByFlag { prefixes, suffixes })
    }

    /// No rule, and each rule of a side that one of these flags allows.
    pub(crate) fn choices(
        &self,
        alloc: Global,
        side: Side,
        flags: &[Flag],
    ) -> Result<Vec<Option<u32>>, NoMemory>
        ensures { (rules : List Rule) → AreByFlag rules self.now
            → IfOk result (λ choices. HasChoices rules side flags.now choices.items) }
    {
        let mut choices = self.allowed(alloc, side, flags)?;
        choices.push(None)?;
        Ok(choices)
    }

    /// Each rule of a side that one of these flags allows.
    pub(crate) fn allowed(
        &self,
        alloc: Global,
        side: Side,
        flags: &[Flag],
    ) -> Result<Vec<Option<u32>>, NoMemory>
        ensures { (rules : List Rule) → AreByFlag rules self.now
            → IfOk result (λ allowed. HasAllowed rules side flags.now allowed.items) }
    {
        match side {
            Side::Prefix => places_with(alloc, self.prefixes.as_slice(), flags),
            Side::Suffix => places_with(alloc, self.suffixes.as_slice(), flags),
        }
    }
}

/// The places of the rows that have one of these flags, flag by flag.
fn places_with(
    alloc: Global,
    rows: &[RuleRow],
    flags: &[Flag],
) -> Result<Vec<Option<u32>>, NoMemory>
    ensures { IsNonDecreasingBy (λ row. row.flag) rows.now
        → IfOk result (λ allowed. HasPlaces rows.now flags.now allowed.items) }
{
    let mut allowed = Vec::new(alloc);
    for flag in flags {
        add_places(&mut allowed, rows_with(rows, flag.0))?;
    }
    Ok(allowed)
}

/// Adds the places of rows.
fn add_places(places: &mut Vec<Option<u32>>, rows: &[RuleRow]) -> Result<(), NoMemory>
    ensures { OnOk result (places.new.items ≡ places.old.items
        ++ map (λ row. Some row.place) rows.now) }
{
    for row in rows {
        places.push(Some(row.place))?;
    }
    Ok(())
}

/// The rows with a flag. They are found by halves, so that it does not matter how many rows there
/// are.
fn rows_with(rows: &[RuleRow], flag: u64) -> &[RuleRow]
    ensures { IsNonDecreasingBy (λ row. row.flag) rows.now → HasRowsOf rows.now flag result.now }
{
    let start = rows.partition_point(|row| row.flag < flag);
    let (_, rest) = rows.split_at(start);
    let end = rest.partition_point(|row| row.flag <= flag);
    let (found, _) = rest.split_at(end);
    found
}

/// The rows of the rules of a side, rising by their flags.
fn rows_of(alloc: Global, side: Side, rules: &[Rule]) -> Result<Vec<RuleRow>, NoMemory>
    requires { length rules.now < 2 ^ 32 }
    ensures { IfOk result (λ rows. AreRowsOfRules rules.now side rows.items) }
{
    let mut rows = gathered(alloc, side, rules)?;
    rows.sort_unstable_by_key(|row| row.flag);
    Ok(rows)
}

/// The rows of the rules of a side, in the order of the rules.
fn gathered(alloc: Global, side: Side, rules: &[Rule]) -> Result<Vec<RuleRow>, NoMemory>
    requires { length rules.now < 2 ^ 32 }
    ensures { IfOk result (λ rows. HasRules rules.now side rows.items) }
{
    let mut rows = Vec::new(alloc);
    for (place, rule) in rules.iter().enumerate() {
        if is_on(side, rule) {
            rows.push(RuleRow {
                flag: rule.flag.0,
                place: place as u32,
            })?;
        }
    }
    Ok(rows)
}

/// Whether a rule is of a side.
fn is_on(side: Side, rule: &Rule) -> bool
    ensures { result ≡ is_same_side side rule.now.side }
{
    matches!(
        (side, rule.side),
        (Side::Prefix, Side::Prefix) | (Side::Suffix, Side::Suffix)
    )
}
