//! A compound rule, run over flag sets one after another.

ghost use Rattle.std.specs.Prelude.{◌≡◌, ◌+◌, ◌&&◌, Bool, List, [], ◌∷◌, ◌++◌, length, IfOk};
ghost use Rattle.spell_types.specs.declared.flags.Flag.{Flag};
ghost use Rattle.spell_types.specs.Patterns.{fits_step, matches};
ghost use Rattle.compound_pattern.specs.States.{match_from, AreAfter};

use spell_types::lists::{Copied, NoMemory};
use spell_types::{FlagSet, Pattern, PatternStep, patterns_match};
use std::alloc::Global;
use std::marker::Model;

/// Which steps of a compound rule may be next after some flag sets: for each place before a step,
/// and for the one behind the last, whether the sets may lead there. The rule itself is kept by the
/// caller.
#[derive(Debug, Drop)]
pub struct States {
    kept: Vec<bool>,
}

impl Model for States {
    ghost Value = { List Bool };

    ghost view = { λ inside. inside.kept.items };
}

impl States {
    /// The states of a rule before the first set.
    pub fn start(alloc: Global, pattern: &Pattern) -> Result<States, NoMemory>
        ensures { IfOk result (AreAfter pattern.now []) }
    {
        let mut kept = vec![in alloc; false; pattern.as_slice().len() + 1]?;
        kept[0] = true;
        Ok(States { kept })
    }

    /// Goes on by one set. This takes no memory.
    pub fn advance(&mut self, pattern: &Pattern, flags: &FlagSet)
        ensures { (sets : List (List Flag)) → AreAfter pattern.now sets self.old
            → AreAfter pattern.now (sets ++ flags.now ∷ []) self.new }
    {
        advance_along(pattern.as_slice(), flags, self.kept.as_mut_slice());
    }

    /// Whether the rule matches the sets so far, when no more of them come.
    pub fn accepting(&self, pattern: &Pattern) -> bool
        ensures { (sets : List (List Flag)) → AreAfter pattern.now sets self.now
            → result ≡ matches pattern.now sets }
    {
        is_end_reached(pattern.as_slice(), self.kept.as_slice())
    }
}

impl Copied for States {
    fn copy(&self, alloc: Global) -> Result<States, NoMemory> {
        Ok(States {
            kept: self.kept.to_vec(alloc)?,
        })
    }
}

/// Puts the states after one set more in the place of those before it.
fn advance_along(steps: &[PatternStep], flags: &FlagSet, states: &mut [bool])
    ensures { length states.old ≡ length steps.now + 1 → (rest : List (List Flag)) →
        match_from steps.now states.new rest ≡ match_from steps.now states.old (flags.now ∷ rest) }
{
    patterns_match();
    // Whether the set leads from the place before to this one, and whether that place is reached
    // and its step left out.
    let mut arrives = false;
    let mut passes = false;
    for place in 0..states.len() {
        match steps.get(place) {
            None => states[place] = arrives,
            Some(step) => {
                let reached = states[place] | passes;
                let takes = takes_from(step, flags, reached);
                let stays = takes & step.is_many();
                states[place] = arrives | stays;
                arrives = takes & !stays;
                passes = reached & step.is_left_out();
            }
        }
    }
}

/// Whether all steps from a place on, whose state is set, may stand for nothing.
fn is_end_reached(steps: &[PatternStep], states: &[bool]) -> bool
    ensures { length states.now ≡ length steps.now + 1
        → result ≡ match_from steps.now states.now [] }
{
    patterns_match();
    let mut reached = false;
    for (place, state) in states.iter().enumerate() {
        reached = match steps.get(place) {
            None => reached | *state,
            Some(step) => (reached | *state) & step.is_left_out(),
        };
    }
    reached
}

/// Whether a step takes a set at a place that is reached.
fn takes_from(step: &PatternStep, flags: &FlagSet, reached: bool) -> bool
    ensures { result ≡ (reached && fits_step step.now flags.now) }
{
    reached && step.fits(flags)
}
