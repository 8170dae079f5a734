//! The compound rules of an .aff file: their faults, and what they say.

ghost use Rattle.std.specs.Prelude.{◌≡◌, IfOk};
ghost use Rattle.std.specs.List.{flat_map};
ghost use Rattle.spell_types.specs.Sanity.{IsOrdinaryPattern};
ghost use Rattle.aff_lines.specs.declared.names.Directive.{Directive};
ghost use Rattle.aff_lines.specs.Faults.{least_of};
ghost use Rattle.aff_lines.specs.Passes.{lines_at};
ghost use Rattle.aff_lines.specs.Rows.{lines_of};
ghost use Rattle.aff_reader.specs.CompoundRules.{pattern_from, pattern_why, text_faults};
ghost use Rattle.aff_reader.specs.CompoundRules.{pattern_faults, pattern_in};

use crate::class_lines::field_of;
use crate::row_values::RowValue;
use aff_lines::{AffWhy, Directive, DirectiveLine, Fault, earliest_faults, fault_at, table_rows};
use compound_pattern::{PatternFault, read_pattern};
use line_faults::sooner;
use spell_types::{FlagKind, Pattern};
use std::alloc::Global;
use text_lines::lists::{Items, NoMemory};

/// The earliest fault of the texts in the rows of COMPOUNDRULE.
pub(crate) fn pattern_fault(
    alloc: Global,
    kind: FlagKind,
    rows: &[DirectiveLine],
) -> Result<Option<Fault>, NoMemory>
    ensures { IfOk result
        (λ fault. fault
        ≡ least_of (pattern_faults kind (lines_of Directive.CompoundRule rows.now))) }
{
    match table_rows(alloc, Directive::CompoundRule, rows)? {
        Some(listed) => listed_fault(alloc, kind, &listed),
        None => Ok(None),
    }
}

/// A row of COMPOUNDRULE, for rows in which `pattern_fault` finds no fault.
impl RowValue for Pattern {
    ghost said_in = { pattern_in };

    ghost IsSound = { IsOrdinaryPattern };

    fn read_row(
        alloc: Global,
        kind: FlagKind,
        row: &DirectiveLine,
    ) -> Result<Option<Pattern>, NoMemory> {
        match field_of(row, 1) {
            Some(text) => Ok(pattern_from(alloc, kind, text)?.ok()),
            None => Ok(None),
        }
    }
}

/// The earliest fault of the texts in these rows.
fn listed_fault(
    alloc: Global,
    kind: FlagKind,
    rows: &[&DirectiveLine],
) -> Result<Option<Fault>, NoMemory>
    ensures { IfOk result
        (λ fault. fault ≡ least_of (flat_map (text_faults kind) (lines_at rows.now))) }
{
    earliest_faults();
    let mut found = None;
    for row in rows {
        let why = pattern_why(alloc, kind, row)?;
        found = sooner(found, fault_at(why, row));
    }
    Ok(found)
}

/// What is wrong with the text of a row, if it has one.
fn pattern_why(
    alloc: Global,
    kind: FlagKind,
    row: &DirectiveLine,
) -> Result<Option<AffWhy>, NoMemory>
    ensures { IfOk result (λ why. why ≡ pattern_why kind row.now) }
{
    match field_of(row, 1) {
        Some(text) => Ok(pattern_from(alloc, kind, text)?.err()),
        None => Ok(None),
    }
}

/// The compound rule that a text is, or what is wrong with it.
fn pattern_from(
    alloc: Global,
    kind: FlagKind,
    text: &str,
) -> Result<Result<Pattern, AffWhy>, NoMemory>
    ensures read { IfOk result (λ read. read ≡ pattern_from kind text.now) }
    ensures ordinary { IfOk result (λ read. IfOk read IsOrdinaryPattern) }
{
    match read_pattern(alloc, kind, text) {
        Ok(pattern) => Ok(Ok(pattern)),
        Err(PatternFault::BadPattern) => Ok(Err(AffWhy::BadPattern)),
        Err(PatternFault::BadFlag) => Ok(Err(AffWhy::BadFlag)),
        Err(PatternFault::NoMemory) => Err(NoMemory),
    }
}
