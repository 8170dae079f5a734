//! Reads the .aff file of a dictionary: its options, by the rules of hunspell(5), or its first
//! fault.
#![tactic(auto)]

ghost use Rattle.std.specs.Prelude.{◌≡◌, ◌≤◌, ◌<◌, All, None, length, IfOk, IfErr, IfSome};
ghost use Rattle.std.specs.Option.{option_copied};
ghost use Rattle.spell_types.specs.Flags.{AreOrdinary};
ghost use Rattle.spell_types.specs.Sanity.{AreSaneAffixes, AreOrdinarySigns, HasOrdinaryFlags};
ghost use Rattle.aff_lines.specs.Faults.{least_of};
ghost use Rattle.aff_reader.specs.Classes.{rule_limit, class_faults};
ghost use Rattle.aff_reader.specs.Grammar.{AffReads, AffRefuses, IsRead, aff_read, late_faults};
ghost use Rattle.aff_reader.specs.Grammar.{affixes_said, signs_said, compound_min_said};
ghost use Rattle.aff_reader.specs.Grammar.{options_said, characters_said};

use aff_lines::{
    AffFault, Directive, DirectiveLine, Directives, Fault, Pass, earliest_faults, find_fault,
    first_faults_are_least, flag_said, is_said, number_said, read_directives, value_said,
};
pub use classes::classes_have_their_rules;
use classes::{class_fault, read_rules};
use compound_rules::pattern_fault;
use line_faults::sooner;
use row_values::read_table;
use spell_types::{Affixes, Chars, FlagKind, FlagSet, Options, Signs, alias_sets, chars_of};
use std::alloc::Global;
use tables::read_breaks;
use text_lines::lists::{Items, NoMemory};

mod anchored_texts;
mod class_lines;
mod class_rules;
mod classes;
mod compound_rules;
mod compound_tables;
mod row_values;
mod tables;

/// How many characters a part of a compound has at least where the file doesn't say.
const PART_LENGTH: u32 = 3;

/// Reads the file, or tells its first fault. Faults are looked for in four passes: the encoding,
/// with lines that are not UTF-8; the type of flags; the flag aliases; all other options. The first
/// pass that has a fault decides, in it the lowest line, and on a line the cause that stands first
/// in `AffWhy`.
pub fn read_aff(alloc: Global, bytes: &[u8]) -> Result<Affixes, AffFault>
    ensures read { IfOk result (AffReads bytes.now) }
    ensures refused { IfErr result (AffRefuses bytes.now) }
    ensures sane { IfOk result AreSaneAffixes }
    ensures few { IfOk result (λ affixes. length affixes.rules ≤ rule_limit) }
    ensures ordinary { IfOk result HasOrdinaryFlags }

    // The same as one value, so that a caller can go on with it.
    ensures value { IsRead (aff_read bytes.now) result }
{
    first_faults_are_least();
    read_passes(alloc, bytes)
}

#[tactic(auto, unfolding(crate::specs::Grammar::aff_read))]
fn read_passes(alloc: Global, bytes: &[u8]) -> Result<Affixes, AffFault>
    ensures read { IsRead (aff_read bytes.now) result }
    ensures sane { IfOk result AreSaneAffixes }
    ensures few { IfOk result (λ affixes. length affixes.rules ≤ rule_limit) }
    ensures ordinary { IfOk result HasOrdinaryFlags }
{
    let Directives {
        kind,
        aliases,
        kept,
    } = read_directives(alloc, bytes)?;
    if let Some(fault) = late_fault(alloc, kind, alias_sets(&aliases), &kept)? {
        return Err(AffFault::At {
            line: fault.line,
            why: fault.why,
        });
    }
    Ok(read_affixes(alloc, kind, aliases, &kept)?)
}

/// The first fault of the fourth pass.
#[tactic(auto, using(crate::proofs::PassLemmas::later_none))]
fn late_fault(
    alloc: Global,
    kind: FlagKind,
    aliases: Option<&[FlagSet]>,
    rows: &[DirectiveLine],
) -> Result<Option<Fault>, NoMemory>
    ensures least { IfOk result
        (λ fault. fault ≡ least_of (late_faults kind (option_copied aliases.entry) rows.now)) }
    ensures classes { IfOk result
        (λ fault. fault ≡ None → least_of (class_faults kind (option_copied aliases.entry) rows.now)
        ≡ None) }
{
    earliest_faults();
    let rules = pattern_fault(alloc, kind, rows)?;
    let classes = class_fault(alloc, kind, aliases, rows)?;
    let options = find_fault(kind, rows, Pass::Fourth);
    Ok(sooner(options, sooner(rules, classes)))
}

/// What rows without faults say.
fn read_affixes(
    alloc: Global,
    kind: FlagKind,
    aliases: Option<Items<FlagSet>>,
    rows: &[DirectiveLine],
) -> Result<Affixes, NoMemory>
    requires { least_of (class_faults kind aliases rows.now) ≡ None }
    ensures said { IfOk result (λ affixes. affixes ≡ affixes_said kind aliases rows.now) }
    ensures sane { IfOk result AreSaneAffixes }
    ensures few { IfOk result (λ affixes. length affixes.rules ≤ rule_limit) }
    ensures ordinary { IfSome aliases (All AreOrdinary) → IfOk result HasOrdinaryFlags }
{
    let ignore = characters_of(alloc, value_said(Directive::Ignore, rows))?;
    let rules = read_rules(alloc, kind, alias_sets(&aliases), &ignore, rows)?;
    Ok(Affixes {
        kind,
        aliases,
        rules,
        signs: signs_of(kind, rows),
        options: options_of(rows),
        ignore,
        wordchars: characters_of(alloc, value_said(Directive::WordCharacters, rows))?,
        iconv: read_table(alloc, kind, Directive::InputConversion, rows)?,
        reps: read_table(alloc, kind, Directive::Replacement, rows)?,
        breaks: read_breaks(alloc, kind, rows)?,
        joints: read_table(alloc, kind, Directive::CheckCompoundPattern, rows)?,
        patterns: read_table(alloc, kind, Directive::CompoundRule, rows)?,
    })
}

/// The flags with a meaning.
fn signs_of(kind: FlagKind, rows: &[DirectiveLine]) -> Signs
    ensures signs { result ≡ signs_said kind rows.now }
    ensures ordinary { AreOrdinarySigns result }
{
    Signs {
        need_affix: flag_said(kind, Directive::NeedAffix, rows),
        circumfix: flag_said(kind, Directive::Circumfix, rows),
        forbidden: flag_said(kind, Directive::ForbiddenWord, rows),
        keep_case: flag_said(kind, Directive::KeepCase, rows),
        warn: flag_said(kind, Directive::Warn, rows),
        compound: flag_said(kind, Directive::CompoundFlag, rows),
        begin: flag_said(kind, Directive::CompoundBegin, rows),
        middle: flag_said(kind, Directive::CompoundMiddle, rows),
        last: flag_said(kind, Directive::CompoundLast, rows),
        permit: flag_said(kind, Directive::CompoundPermitFlag, rows),
        forbid: flag_said(kind, Directive::CompoundForbidFlag, rows),
        only_inside: flag_said(kind, Directive::OnlyInCompound, rows),
        force_upper: flag_said(kind, Directive::ForceUpperCase, rows),
    }
}

/// The switches and the numbers.
fn options_of(rows: &[DirectiveLine]) -> Options
    ensures options { result ≡ options_said rows.now }
    ensures some { 0 < result.compound_min }
{
    Options {
        full_strip: is_said(Directive::FullStrip, rows),
        forbid_warn: is_said(Directive::ForbidWarn, rows),
        more_suffixes: is_said(Directive::CompoundMoreSuffixes, rows),
        check_dup: is_said(Directive::CheckCompoundDuplicates, rows),
        check_case: is_said(Directive::CheckCompoundCase, rows),
        check_triple: is_said(Directive::CheckCompoundTriple, rows),
        simplified: is_said(Directive::SimplifiedTriple, rows),
        sharps: is_said(Directive::CheckSharps, rows),
        check_rep: is_said(Directive::CheckCompoundReplacements, rows),
        compound_min: compound_min_of(number_said(Directive::CompoundMinimum, rows)),
        word_max: number_said(Directive::CompoundWordMaximum, rows),
    }
}

/// How many characters a part of a compound has at least, by the number that the file has: three if
/// it has none, and never none.
fn compound_min_of(number: Option<u32>) -> u32
    ensures number { result ≡ compound_min_said number }
    ensures some { 0 < result }
{
    number.unwrap_or(PART_LENGTH).max(1)
}

/// The characters of a text that may be there.
fn characters_of(alloc: Global, value: Option<&str>) -> Result<Chars, NoMemory>
    ensures { IfOk result (λ made. made ≡ characters_said (option_copied value.entry)) }
{
    chars_of(alloc, value.unwrap_or(""))
}
