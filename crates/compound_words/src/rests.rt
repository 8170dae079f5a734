//! Lists of parts that make up the rest of a word, by their first part.

ghost use Rattle.std.specs.Prelude.{◌≡◌, ℕ, List, [], ◌<◌, ◌^◌, ◌+◌, ◌-◌, None, Some, length};
ghost use Rattle.std.specs.Prelude.{slice_get, is_some, IfOk, map, if◌then◌else◌};
ghost use Rattle.std.specs.List.{list_any};
ghost use Rattle.spell_types.specs.Patterns.{fits_step, is_left_out, is_many};
ghost use Rattle.spell_types.specs.declared.patterns.PatternStep.{PatternStep};
ghost use Rattle.compound_words.specs.Counting.{fewest, least_of_two, number_at, one_more};
ghost use Rattle.compound_words.specs.Rests.{asked_by, patterns_of, Way, count_of, numbers_at};
ghost use Rattle.compound_words.specs.Rests.{rests_at, matches_from, number_behind, number_with};
ghost use Rattle.compound_words.specs.Rests.{number_by_rule, IsMade};

use crate::counting::{least, number_at, one_more};
use crate::search::Search;
use joint_checks::{stands_at, stands_in_rule};
use spell_types::lists::{Items, NoMemory};
use spell_types::{FlagSet, Part, Pattern, PatternStep, Place, entry_flags, patterns_match};
use std::alloc::Global;

/// How few parts the steps of a rule match, from each step on.
pub(crate) type StepCounts = Items<Option<usize>>;

/// How few parts write the rest of a word, of which this is the first.
#[derive(Drop)]
pub(crate) struct FirstPart {
    pub(crate) part: Part,
    /// Where they stand by their flags.
    pub(crate) by_flags: Option<usize>,
    /// Where the steps of a rule match them, for each rule and from each of its steps on. Where
    /// there is no number none do.
    pub(crate) by_rules: Items<StepCounts>,
}

/// The rests that begin at a place of a word.
#[derive(Drop)]
pub(crate) struct RestsRow {
    pub(crate) place: usize,
    pub(crate) rests: Items<FirstPart>,
    /// The places of the rests that are enough to be looked at: each other one has the first part
    /// of one of these, but for the joint behind it, and no fewer parts.
    pub(crate) heads: Items<usize>,
}

/// What stands behind a part: nothing, where the word ends, or one of some rests.
#[derive(Clone, Copy)]
pub(crate) struct Behind<'a> {
    pub(crate) is_end: bool,
    pub(crate) rests: &'a [&'a FirstPart],
}

impl Behind<'_> {
    /// How few parts may stand behind by their flags.
    fn by_flags(&self) -> Option<usize>
        ensures { (rules : List (List PatternStep))
            → result ≡ number_behind rules self.now Way.ByFlags }
    {
        if self.is_end {
            Some(0)
        } else {
            fewest_by_flags(self.rests)
        }
    }

    /// How few parts may stand behind if a rule matches them from a step on. It is told whether it
    /// matches nothing from there on.
    fn by_step(&self, rule: usize, step: usize, matches_nothing: bool) -> Option<usize>
        ensures { (rules : List (List PatternStep))
            → matches_nothing ≡ matches_from rules rule step []
            → result ≡ number_behind rules self.now (Way.ByRule rule step) }
    {
        if self.is_end {
            matches_nothing.then_some(0)
        } else {
            fewest_by_step(self.rests, rule, step)
        }
    }
}

fn fewest_by_flags(rests: &[&FirstPart]) -> Option<usize>
    ensures { result ≡ fewest (map (λ rest. count_of rest Way.ByFlags) (rests_at rests.now)) }
{
    let mut found = None;
    for rest in rests {
        found = least(found, rest.by_flags);
    }
    found
}

fn fewest_by_step(rests: &[&FirstPart], rule: usize, step: usize) -> Option<usize>
    ensures { result
        ≡ fewest (map (λ rest. count_of rest (Way.ByRule rule step)) (rests_at rests.now)) }
{
    let mut found = None;
    for rest in rests {
        found = least(found, rest.by_step(rule, step));
    }
    found
}

impl FirstPart {
    /// How few parts there are if a rule matches them from a step on.
    fn by_step(&self, rule: usize, step: usize) -> Option<usize>
        ensures { result ≡ count_of self.now (Way.ByRule rule step) }
    {
        number_at(self.by_rules.get(rule)?, step)
    }
}

/// The rest that begins with a part, which stands at a place before what is behind it, if there is
/// one.
pub(crate) fn rest_with(
    alloc: Global,
    search: &Search,
    place: Place,
    part: Part,
    behind: &Behind,
) -> Result<Option<FirstPart>, NoMemory>
    ensures { IfOk result
        (IsMade (asked_by search.now) (patterns_of search.now) place part behind.now) }
{
    let by_flags = number_by_flags(search, place, &part, behind);
    let by_rules = numbers_by_rules(alloc, search, place, &part, behind)?;
    if by_flags.is_none() && !has_number(&by_rules) {
        return Ok(None);
    }
    Ok(Some(FirstPart {
        part,
        by_flags,
        by_rules,
    }))
}

/// How few parts there are by their flags.
fn number_by_flags(search: &Search, place: Place, part: &Part, behind: &Behind) -> Option<usize>
    ensures { (rules : List (List PatternStep))
        → result ≡ number_with (asked_by search.now) rules place part.now behind.now Way.ByFlags }
{
    if stands_at(search.lexicon(), &part.d, place) {
        one_more(behind.by_flags())
    } else {
        None
    }
}

/// How few parts there are by each rule, from each of its steps on.
fn numbers_by_rules(
    alloc: Global,
    search: &Search,
    place: Place,
    part: &Part,
    behind: &Behind,
) -> Result<Items<StepCounts>, NoMemory>
    ensures { IfOk result (λ numbers. (rule step : ℕ) → numbers_at numbers rule step
        ≡ number_with (asked_by search.now) (patterns_of search.now) place part.now behind.now
        (Way.ByRule rule step)) }
{
    let lexicon = search.lexicon();
    if !stands_in_rule(lexicon, &part.d, place) {
        return Ok(Items::new(alloc));
    }
    match entry_flags(lexicon, &part.d) {
        Some(flags) => numbers_by_flags(alloc, flags, search.rules, behind),
        None => Ok(Items::new(alloc)),
    }
}

/// How few parts each rule matches from each of its steps on, where these are the flags of the
/// first. Most parts have a flag of no rule, and then there are no numbers.
fn numbers_by_flags(
    alloc: Global,
    flags: &FlagSet,
    rules: &[Pattern],
    behind: &Behind,
) -> Result<Items<StepCounts>, NoMemory>
    ensures { IfOk result
        (λ numbers. (rule step : ℕ)
        → numbers_at numbers rule step ≡ number_by_rule flags.now rules.now behind.now rule step) }
{
    let mut numbers = Items::new(alloc);
    if !has_rule_for(rules, flags) {
        return Ok(numbers);
    }
    for (rule, steps) in rules.iter().enumerate() {
        let own = numbers_by_steps(alloc, flags, rule, steps, behind)?;
        numbers.push(own)?;
    }
    Ok(numbers)
}

/// How few parts a rule matches from each of its steps on. Most rules have no step for the flags,
/// and then there is no number.
fn numbers_by_steps(
    alloc: Global,
    flags: &FlagSet,
    rule: usize,
    steps: &[PatternStep],
    behind: &Behind,
) -> Result<StepCounts, NoMemory>
    ensures { (rules : List (List PatternStep)) → slice_get rules rule ≡ Some steps.now
        → IfOk result
        (λ numbers. (step : ℕ)
        → number_at numbers step ≡ number_by_rule flags.now rules behind.now rule step) }
{
    if !has_step_for(steps, flags) {
        return Ok(Items::new(alloc));
    }
    let mut numbers = vec![in alloc; None; steps.len()]?;
    fill_numbers(&mut numbers, flags, rule, steps, behind);
    Ok(Items::from_vec(numbers))
}

/// Tells how few parts a rule matches from each of its steps on, from the last step to the first.
fn fill_numbers(
    numbers: &mut [Option<usize>],
    flags: &FlagSet,
    rule: usize,
    steps: &[PatternStep],
    behind: &Behind,
)
    requires { length numbers.old ≡ length steps.now }
    ensures long { length numbers.new ≡ length steps.now }
    ensures filled { (rules : List (List PatternStep)) → slice_get rules rule ≡ Some steps.now
        → (step : ℕ) → number_at numbers.new step ≡ number_by_rule flags.now rules behind.now rule
        step }
{
    patterns_match();
    let mut place = steps.len();
    let mut matches_nothing = true;
    while place > 0 {
        place -= 1;
        let step = &steps[place];
        let number = behind.by_step(rule, step_after(step, place), matches_nothing);
        numbers[place] = number_from(step, flags, number_at(numbers, place + 1), number);
        matches_nothing &= step.is_left_out();
    }
}

/// Whether a step of one of the rules stands for parts with these flags.
fn has_rule_for(rules: &[Pattern], flags: &FlagSet) -> bool
    ensures { result
        ≡ list_any (λ steps. list_any (λ step. fits_step step flags.now) steps) rules.now }
{
    rules.iter().any(|steps| has_step_for(steps, flags))
}

/// Whether a step stands for parts with these flags.
fn has_step_for(steps: &[PatternStep], flags: &FlagSet) -> bool
    ensures { result ≡ list_any (λ step. fits_step step flags.now) steps.now }
{
    steps.iter().any(|step| step.fits(flags))
}

/// How few parts the steps from this one on match: the step is left out, or it stands for the first
/// part.
fn number_from(
    step: &PatternStep,
    flags: &FlagSet,
    without: Option<usize>,
    behind: Option<usize>,
) -> Option<usize>
    ensures { result ≡ least_of_two (if is_left_out step.now then without else None)
        (if fits_step step.now flags.now then one_more behind else None) }
{
    let left_out = if step.is_left_out() { without } else { None };
    let stands = if step.fits(flags) {
        one_more(behind)
    } else {
        None
    };
    least(left_out, stands)
}

/// The place of the step that is next once the step at a place has stood for a part.
fn step_after(step: &PatternStep, place: usize) -> usize
    requires { place < 2 ^ 64 - 1 }
    ensures { result ≡ (if is_many step.now.times then place else place + 1) }
{
    if step.is_many() { place } else { place + 1 }
}

/// Whether there is a number for a rule.
pub(crate) fn has_number(numbers: &[StepCounts]) -> bool
    ensures { result ≡ list_any (list_any is_some) numbers.now }
{
    numbers.iter().any(|own| has_some(own))
}

fn has_some(numbers: &[Option<usize>]) -> bool
    ensures { result ≡ list_any is_some numbers.now }
{
    numbers.iter().any(|number| number.is_some())
}
