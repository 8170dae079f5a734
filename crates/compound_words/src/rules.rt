//! The compound rules of a dictionary that some of its entries may follow.

ghost use Rattle.std.specs.Prelude.{◌≡◌, filter, IfOk};
ghost use Rattle.compound_words.specs.Prepared.{has_step_in};

use spell_types::lists::{Copied, Items, NoMemory};
use spell_types::{FlagSet, Pattern, PatternStep, has};
use std::alloc::Global;

/// Copies of the rules that have a step whose flag is in the set. The others match no part whose
/// entry has flags of the set alone.
pub(crate) fn rules_with(
    alloc: Global,
    flags: &FlagSet,
    patterns: &[Pattern],
) -> Result<Items<Pattern>, NoMemory>
    ensures { IfOk result (λ rules. rules ≡ filter (has_step_in flags.now) patterns.now) }
{
    let mut rules = Items::new(alloc);
    for pattern in patterns {
        if has_step_in(flags, pattern) {
            let rule = pattern.copy(alloc)?;
            rules.push(rule)?;
        }
    }
    Ok(rules)
}

/// Whether one of the steps has a flag of the set.
fn has_step_in(flags: &FlagSet, steps: &[PatternStep]) -> bool
    ensures { result ≡ has_step_in flags.now steps.now }
{
    steps.iter().any(|step| has(flags, Some(step.flag)))
}
