//! Compound rules.

ghost use Rattle.std.specs.Prelude.{◌≡◌, ◌↔◌, List, IsTrue};
ghost use Rattle.spell_types.specs.declared.flags.Flag.{Flag};
ghost use Rattle.spell_types.specs.declared.patterns.PatternStep.{PatternStep};
ghost use Rattle.spell_types.specs.Patterns.{fits_step, is_left_out, is_many, matches};
ghost use Rattle.spell_types.specs.Patterns.{MatchesPattern, MatchesOneByOne};

use crate::{Flag, FlagSet, has};
use lists::{Copied, Items, NoMemory};
use std::alloc::Global;

/// How many parts of a compound a step of a rule stands for.
#[derive(Clone, Copy, Debug, PartialEq, Eq)]
pub enum Times {
    Once,
    /// Once, or not at all: a flag with `?` behind it.
    Maybe,
    /// Any number of times, or not at all: a flag with `*` behind it.
    Many,
}

/// A flag of a compound rule.
#[derive(Clone, Copy, Debug, PartialEq, Eq)]
pub struct PatternStep {
    pub flag: Flag,
    pub times: Times,
}

impl PatternStep {
    /// Whether a set has the step's flag.
    pub fn fits(&self, flags: &FlagSet) -> bool
        ensures { result ≡ fits_step self.now flags.now }
    {
        has(flags, Some(self.flag))
    }

    /// Whether the step may stand for no part.
    pub fn is_left_out(&self) -> bool
        ensures { result ≡ is_left_out self.now }
    {
        matches!(self.times, Times::Maybe | Times::Many)
    }

    /// Whether the step may stand for any number of parts.
    pub fn is_many(&self) -> bool
        ensures { result ≡ is_many self.now.times }
    {
        matches!(self.times, Times::Many)
    }
}

/// A compound rule: a row of the option COMPOUNDRULE of hunspell(5).
pub type Pattern = Items<PatternStep>;

impl Copied for PatternStep {
    fn copy(&self, _alloc: Global) -> Result<PatternStep, NoMemory> {
        Ok(*self)
    }
}

/// How a compound rule matches lists of flag sets: set by set, and as a relation.
pub fn patterns_match()
    ensures one_by_one { MatchesOneByOne }
    ensures related { (pattern : List PatternStep) (sets : List (List Flag)) →
        IsTrue (matches pattern sets) ↔ MatchesPattern pattern sets }
{}
