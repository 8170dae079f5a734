//! The affix classes of an .aff file: their faults, and their rules.

ghost use Rattle.std.specs.Prelude.{◌≡◌, ◌++◌, ◌∷◌, ◌<◌, ◌≤◌, ◌^◌, List, [], length, filter, map};
ghost use Rattle.std.specs.Prelude.{All, Option, None, Some, OnOk, IfOk, IfSome};
ghost use Rattle.std.specs.Option.{option_copied};
ghost use Rattle.spell_types.specs.declared.flags.Flag.{Flag};
ghost use Rattle.spell_types.specs.declared.flags.FlagKind.{FlagKind};
ghost use Rattle.spell_types.specs.Flags.{IsOrdinary, AreOrdinary};
ghost use Rattle.spell_types.specs.Sanity.{IsOrdinaryRule};
ghost use Rattle.aff_lines.specs.declared.rows.DirectiveLine.{DirectiveLine};
ghost use Rattle.aff_lines.specs.Faults.{least_of};
ghost use Rattle.aff_reader.specs.declared.class_lines.Class.{Class};
ghost use Rattle.aff_reader.specs.ClassLines.{side_of, lines_in, announced_count, class_so_far};
ghost use Rattle.aff_reader.specs.ClassLines.{each_after};
ghost use Rattle.aff_reader.specs.ClassLines.{Knows};
ghost use Rattle.aff_reader.specs.ClassMembers.{is_rule_of, rules_in};
ghost use Rattle.aff_reader.specs.ClassRules.{rule_without};
ghost use Rattle.aff_reader.specs.Classes.{says_cross, has_rules, header_faults, role_faults};
ghost use Rattle.aff_reader.specs.Classes.{side_faults, line_faults, heads, announced_by};
ghost use Rattle.aff_reader.specs.Classes.{total_faults, too_many_rules_faults, rule_limit};
ghost use Rattle.aff_reader.specs.Classes.{class_faults};
ghost use Rattle.aff_reader.specs.Classes.{placed_rules, rules_said};

use crate::class_lines::{ClassSoFar, Classes, Placed, Role, count_of, field_of, is_text, side_of};
use crate::class_rules::{read_rule, without_ignored};
use aff_lines::{AffWhy, DirectiveLine, Fault, earliest_faults, fault_at, unless};
use line_faults::sooner;
use spell_types::{FlagKind, FlagSet, Rule};
use std::alloc::Global;
use text_lines::lists::{Items, NoMemory};

/// How many rules the headers of a file may announce.
const MOST_RULES: u64 = 200_000;

/// The earliest fault of the lines of affix classes. Other lines may stand between them.
pub(crate) fn class_fault(
    alloc: Global,
    kind: FlagKind,
    aliases: Option<&[FlagSet]>,
    rows: &[DirectiveLine],
) -> Result<Option<Fault>, NoMemory>
    ensures { IfOk result
        (λ fault. fault ≡ least_of (class_faults kind (option_copied aliases.entry) rows.now)) }
{
    earliest_faults();
    let all = read_classes(alloc, kind, rows)?;
    let fault = lines_fault(alloc, kind, aliases, &all, rows)?;
    Ok(sooner(fault, many_fault(alloc, kind, MOST_RULES, rows)?))
}

/// The rules of all affix classes in the order of the file, without the characters to ignore, for
/// lines in which `class_fault` finds no fault. Where it finds none they are at most as many as the
/// headers may announce.
#[tactic(auto, unfolding(crate::specs::Classes::rules_said))]
pub(crate) fn read_rules(
    alloc: Global,
    kind: FlagKind,
    aliases: Option<&[FlagSet]>,
    ignore: &[char],
    rows: &[DirectiveLine],
) -> Result<Items<Rule>, NoMemory>
    ensures rules { IfOk result
        (λ rules. rules ≡ map (rule_without ignore.now)
        (rules_said kind (option_copied aliases.entry) rows.now)) }
    ensures few { least_of (class_faults kind (option_copied aliases.entry) rows.now) ≡ None
        → IfOk result (λ rules. length rules ≤ rule_limit) }
    ensures ordinary { IfSome (option_copied aliases.entry) (All AreOrdinary)
        → IfOk result (All IsOrdinaryRule) }
{
    earliest_faults();
    let mut classes = Classes::new(alloc);
    let mut rules = Items::new(alloc);
    for line in rows {
        let placed = classes.place(kind, line)?;
        push_rule(alloc, &mut rules, kind, aliases, ignore, line, placed)?;
    }
    Ok(rules)
}

/// The rules of a class among those that the lines of all classes say are those that its own lines
/// say: as many of them as the header announces, the next behind it. This holds for lines with
/// faults, too. Where no line has a fault they are exactly so many.
pub fn classes_have_their_rules()
    ensures members { (kind : FlagKind) (aliases : Option (List (List Flag))) (class : Class)
        (rows : List DirectiveLine)
        → filter (is_rule_of class) (rules_said kind aliases rows) ≡ rules_in kind aliases class
        (lines_in kind class rows) }
    ensures count { (kind : FlagKind) (aliases : Option (List (List Flag))) (class : Class)
        (rows : List DirectiveLine) (header : DirectiveLine) (behind : List DirectiveLine)
        → class_faults kind aliases rows ≡ [] → lines_in kind class rows ≡ header ∷ behind
        → announced_count header
        ≡ Some (length (filter (is_rule_of class) (rules_said kind aliases rows))) }
{}

/// What the lines say of each class.
fn read_classes(alloc: Global, kind: FlagKind, rows: &[DirectiveLine]) -> Result<Classes, NoMemory>
    ensures { IfOk result (Knows kind rows.now) }
{
    let mut classes = Classes::new(alloc);
    for line in rows {
        classes.place(kind, line)?;
    }
    Ok(classes)
}

/// The earliest fault of single lines, where it is known what all lines say.
fn lines_fault(
    alloc: Global,
    kind: FlagKind,
    aliases: Option<&[FlagSet]>,
    all: &Classes,
    rows: &[DirectiveLine],
) -> Result<Option<Fault>, NoMemory>
    requires { Knows kind rows.now all.now }
    ensures { IfOk result (λ fault. fault
        ≡ least_of (each_after (line_faults kind (option_copied aliases.entry) rows.now) []
        rows.now)) }
{
    earliest_faults();
    let mut classes = Classes::new(alloc);
    let mut found = None;
    for line in rows {
        let placed = classes.place(kind, line)?;
        let fault = line_fault(alloc, kind, aliases, all, line, placed)?;
        found = sooner(found, fault);
    }
    Ok(found)
}

/// The earliest fault of a line.
fn line_fault(
    alloc: Global,
    kind: FlagKind,
    aliases: Option<&[FlagSet]>,
    all: &Classes,
    line: &DirectiveLine,
    placed: Option<Placed>,
) -> Result<Option<Fault>, NoMemory>
    ensures { (rows : List DirectiveLine) → Knows kind rows all.now → IfOk result (λ fault. fault
        ≡ least_of (side_faults kind (option_copied aliases.entry) rows line.now placed
        (side_of line.now.directive))) }
{
    if side_of(line.directive).is_none() {
        return Ok(None);
    }
    if field_of(line, 3).is_none() {
        return Ok(fault_at(Some(AffWhy::MissingField), line));
    }
    let Some(placed) = placed else {
        return Ok(fault_at(Some(AffWhy::BadFlag), line));
    };
    role_fault(
        alloc,
        kind,
        aliases,
        all.standing(placed.class),
        line,
        placed,
    )
}

/// The earliest fault of a line of a class that comes to this.
fn role_fault(
    alloc: Global,
    kind: FlagKind,
    aliases: Option<&[FlagSet]>,
    standing: Option<ClassSoFar>,
    line: &DirectiveLine,
    placed: Placed,
) -> Result<Option<Fault>, NoMemory>
    ensures { IfOk result (λ fault. fault
        ≡ least_of (role_faults kind (option_copied aliases.entry) standing line.now placed.class
        placed.role)) }
{
    match placed.role {
        Role::Header => Ok(header_fault(standing, line)),
        Role::Member(crossing) => {
            let read = read_rule(alloc, kind, aliases, placed.class, crossing, line)?;
            Ok(fault_at(read.err(), line))
        }
        Role::Past => Ok(fault_at(Some(AffWhy::Twice), line)),
        Role::Unplaced => Ok(None),
    }
}

/// The earliest fault of a header of a class that comes to this.
fn header_fault(standing: Option<ClassSoFar>, header: &DirectiveLine) -> Option<Fault>
    ensures { result ≡ least_of (header_faults standing header.now) }
{
    earliest_faults();
    let number = unless(count_of(header).is_some(), AffWhy::BadNumber);
    let short = unless(has_rules(standing), AffWhy::TableShort);
    let cross = unless(says_cross(header), AffWhy::BadCross);
    sooner(
        fault_at(number, header),
        sooner(fault_at(short, header), fault_at(cross, header)),
    )
}

/// Whether a header says that its class may be crossed, or that it may not.
fn says_cross(header: &DirectiveLine) -> bool
    ensures { result ≡ says_cross header.now }
{
    is_text("Y", field_of(header, 2)) || is_text("N", field_of(header, 2))
}

/// Whether the lines of a class that comes to this have all rules that its header announces.
fn has_rules(standing: Option<ClassSoFar>) -> bool
    ensures { result ≡ has_rules standing }
{
    match standing {
        None => true,
        Some(standing) => standing.wanted.unwrap_or(0) == 0,
    }
}

/// The earliest header up to which more rules are announced than the limit.
#[tactic(auto, unfolding(crate::specs::Classes::too_many_rules_faults))]
pub(crate) fn many_fault(
    alloc: Global,
    kind: FlagKind,
    limit: u64,
    rows: &[DirectiveLine],
) -> Result<Option<Fault>, NoMemory>
    requires { limit < 2 ^ 32 }
    ensures { IfOk result (λ fault. fault ≡ least_of (too_many_rules_faults kind limit rows.now)) }
{
    earliest_faults();
    let mut classes = Classes::new(alloc);
    let mut total = 0u64;
    let mut found = None;
    for line in rows {
        let placed = classes.place(kind, line)?;
        total = total.saturating_add(announced_by(line, placed));
        found = sooner(found, total_fault(limit, total, line, placed));
    }
    Ok(found)
}

/// How many rules a line announces.
fn announced_by(line: &DirectiveLine, placed: Option<Placed>) -> u64
    ensures { result ≡ announced_by line.now placed }
{
    if heads(placed) {
        count_of(line).unwrap_or(0)
    } else {
        0
    }
}

/// The fault of a header where so many rules are announced up to it.
fn total_fault(
    limit: u64,
    total: u64,
    line: &DirectiveLine,
    placed: Option<Placed>,
) -> Option<Fault>
    ensures { result ≡ least_of (total_faults limit total line.now placed) }
{
    if heads(placed) {
        fault_at(unless(total <= limit, AffWhy::TooMany), line)
    } else {
        None
    }
}

/// Whether a line is the header of its class.
fn heads(placed: Option<Placed>) -> bool
    ensures { result ≡ heads placed }
{
    match placed {
        Some(
            Placed {
                role: Role::Header,
                ..
            },
        ) => true,
        _ => false,
    }
}

/// Adds the rule that a line says, without the characters to ignore, if it says one.
fn push_rule(
    alloc: Global,
    rules: &mut Items<Rule>,
    kind: FlagKind,
    aliases: Option<&[FlagSet]>,
    ignore: &[char],
    line: &DirectiveLine,
    placed: Option<Placed>,
) -> Result<(), NoMemory>
    ensures rules { OnOk result (rules.new
        ≡ rules.old
        ++ map (rule_without ignore.now)
        (placed_rules kind (option_copied aliases.entry) line.now placed)) }
    ensures ordinary { IfSome (option_copied aliases.entry) (All AreOrdinary)
        → IfSome placed (λ placed. IsOrdinary placed.class.flag)
        → All IsOrdinaryRule rules.old → OnOk result (All IsOrdinaryRule rules.new) }
{
    let Some(
        Placed {
            class,
            role: Role::Member(crossing),
        },
    ) = placed
    else {
        return Ok(());
    };
    if let Ok(rule) = read_rule(alloc, kind, aliases, class, crossing, line)? {
        rules.push(without_ignored(alloc, ignore, rule)?)?;
    }
    Ok(())
}
