//! The rule that a line of an affix class says.

ghost use Rattle.std.specs.Prelude.{◌≡◌, All, IfOk, IfSome};
ghost use Rattle.std.specs.Option.{option_copied};
ghost use Rattle.spell_types.specs.Flags.{IsOrdinary, AreOrdinary};
ghost use Rattle.spell_types.specs.Sanity.{IsOrdinaryRule};
ghost use Rattle.aff_reader.specs.ClassRules.{is_zero, unless_zero, carried_of, condition_asked};
ghost use Rattle.aff_reader.specs.ClassRules.{rule_of};
ghost use Rattle.aff_reader.specs.ClassRules.{rule_without};

use crate::class_lines::{Class, Crossing, field_of};
use aff_lines::{AffWhy, DirectiveLine};
use affix_classes::{ConditionFault, read_condition};
use conversions::drop_ignored;
use flag_sets::{FlagFault, push_before_slash, read_flags};
use spell_types::{Chars, Condition, FlagKind, FlagSet, Rule, chars_of};
use std::alloc::Global;
use text_lines::lists::{Items, NoMemory};

/// The rule that a line of a class says, or what is wrong with it. The rules of the class may be
/// crossed or not.
#[tactic(auto, unfolding(crate::specs::ClassRules::rule_from))]
pub(crate) fn read_rule(
    alloc: Global,
    kind: FlagKind,
    aliases: Option<&[FlagSet]>,
    class: Class,
    crossing: Crossing,
    line: &DirectiveLine,
) -> Result<Result<Rule, AffWhy>, NoMemory>
    ensures rule { IfOk result
        (λ read. read ≡ rule_of kind (option_copied aliases.entry) class crossing line.now) }
    ensures ordinary { IfSome (option_copied aliases.entry) (All AreOrdinary)
        → IsOrdinary class.flag
        → IfOk result (λ read. IfOk read IsOrdinaryRule) }
{
    let strip = field_of(line, 2).unwrap_or("");
    let affix = field_of(line, 3).unwrap_or("");
    let mut add = Items::new(alloc);
    let behind = push_before_slash(alloc, &mut add, affix)?;
    let carried = match carried_of(alloc, kind, aliases, behind)? {
        Ok(carried) => carried,
        Err(why) => return Ok(Err(why)),
    };
    let Some(condition) = asked_of(alloc, field_of(line, 4))? else {
        return Ok(Err(AffWhy::BadCondition));
    };
    Ok(Ok(Rule {
        side: class.side,
        flag: class.flag,
        cross: crossing.is_allowed(),
        strip: unless_zero(alloc, chars_of(alloc, strip)?),
        add: unless_zero(alloc, add),
        carried,
        condition,
    }))
}

/// The rule without the characters to ignore.
pub(crate) fn without_ignored(alloc: Global, ignore: &[char], rule: Rule) -> Result<Rule, NoMemory>
    ensures rule { IfOk result (λ made. made ≡ rule_without ignore.now rule) }
    ensures ordinary { IsOrdinaryRule rule → IfOk result IsOrdinaryRule }
{
    Ok(Rule {
        strip: drop_ignored(alloc, ignore, &rule.strip)?,
        add: drop_ignored(alloc, ignore, &rule.add)?,
        ..rule
    })
}

/// Whether a text is `0`.
pub(crate) fn is_zero(characters: &[char]) -> bool
    ensures { result ≡ is_zero characters.now }
{
    characters == ['0'].as_slice()
}

/// The characters that a text stands for: `0` is nothing.
pub(crate) fn unless_zero(alloc: Global, characters: Chars) -> Chars
    ensures { result ≡ unless_zero characters }
{
    if is_zero(&characters) {
        Items::new(alloc)
    } else {
        characters
    }
}

/// The set of the flags behind the slash.
fn carried_of(
    alloc: Global,
    kind: FlagKind,
    aliases: Option<&[FlagSet]>,
    text: Option<&str>,
) -> Result<Result<FlagSet, AffWhy>, NoMemory>
    ensures set { IfOk result (λ read. read
        ≡ carried_of kind (option_copied aliases.entry) (option_copied text.entry)) }
    ensures ordinary { IfSome (option_copied aliases.entry) (All AreOrdinary)
        → IfOk result (λ read. IfOk read AreOrdinary) }
{
    let Some(text) = text else {
        return Ok(Ok(FlagSet::new(alloc)));
    };
    match read_flags(alloc, kind, aliases, text) {
        Ok(set) => Ok(Ok(set)),
        Err(FlagFault::BadFlag) => Ok(Err(AffWhy::BadFlag)),
        Err(FlagFault::BadAlias) => Ok(Err(AffWhy::BadAlias)),
        Err(FlagFault::NoMemory) => Err(NoMemory),
    }
}

/// The condition of a rule, if the text is one.
fn asked_of(alloc: Global, text: Option<&str>) -> Result<Option<Condition>, NoMemory>
    ensures { IfOk result (λ read. read ≡ condition_asked (option_copied text.entry)) }
{
    let Some(text) = text else {
        return Ok(Some(Items::new(alloc)));
    };
    match read_condition(alloc, text) {
        Ok(condition) => Ok(Some(condition)),
        Err(ConditionFault::BadCondition) => Ok(None),
        Err(ConditionFault::NoMemory) => Err(NoMemory),
    }
}
