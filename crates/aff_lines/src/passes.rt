//! The earliest fault of a directive, and of a pass. Finding one takes no memory.

ghost use Rattle.std.specs.Prelude.{◌≡◌, Some, flat_map, map};
ghost use Rattle.std.specs.Option.{option_copied};
ghost use Rattle.aff_lines.specs.Faults.{least_of};
ghost use Rattle.aff_lines.specs.Names.{description_of};
ghost use Rattle.aff_lines.specs.Causes.{number_behind_name};
ghost use Rattle.aff_lines.specs.Grammar.{faults_at, once_faults, later_faults, rows_faults};
ghost use Rattle.aff_lines.specs.Grammar.{place_faults, counted_faults, table_faults, all_left_out};
ghost use Rattle.aff_lines.specs.Passes.{form_faults, pass_faults, faults_in};
ghost use Rattle.aff_lines.specs.Rows.{lines_of};

use crate::causes::{line_why, number_at, row_why, unless};
use crate::faults::{AffWhy, Fault};
use crate::names::{Described, Directive, Form, Pass, RowForm, directives, is_of};
use crate::rows::{DirectiveLine, count_of, next_of};
use line_faults::sooner;
use spell_types::FlagKind;

/// How many rows a table may have.
const MOST_ROWS: u64 = 65000;

/// The earliest fault of a pass over the rows.
pub fn find_fault(kind: FlagKind, rows: &[DirectiveLine], pass: Pass) -> Option<Fault>
    ensures { result ≡ least_of (pass_faults kind rows.now pass) }
{
    fault_among(kind, rows, pass, directives())
}

/// The earliest fault of those of these directives that are of the pass.
fn fault_among(
    kind: FlagKind,
    rows: &[DirectiveLine],
    pass: Pass,
    directives: &[Described],
) -> Option<Fault>
    ensures { result
        ≡ least_of (flat_map (faults_in kind rows.now pass) (map description_of directives.now)) }
{
    let mut found = None;
    for described in directives {
        found = sooner(found, fault_in(kind, rows, pass, described));
    }
    found
}

/// The earliest fault of a directive among the rows, if it is one of the pass.
fn fault_in(
    kind: FlagKind,
    rows: &[DirectiveLine],
    pass: Pass,
    described: &Described,
) -> Option<Fault>
    ensures { result ≡ least_of (faults_in kind rows.now pass (description_of described.now)) }
{
    if is_of(pass, described) {
        form_fault(kind, described.form, described.directive, rows)
    } else {
        None
    }
}

/// The earliest fault of a directive that has this form.
fn form_fault(
    kind: FlagKind,
    form: Form,
    directive: Directive,
    rows: &[DirectiveLine],
) -> Option<Fault>
    ensures { result ≡ least_of (form_faults kind form (lines_of directive rows.now)) }
{
    match form {
        Form::Encoding => once_fault(kind, Form::Encoding, directive, rows),
        Form::Kind => once_fault(kind, Form::Kind, directive, rows),
        Form::Text => once_fault(kind, Form::Text, directive, rows),
        Form::Flag => once_fault(kind, Form::Flag, directive, rows),
        Form::Number => once_fault(kind, Form::Number, directive, rows),
        Form::Switch | Form::Class => None,
        Form::Table(row) => table_fault(kind, row, directive, rows),
        Form::LeftOut => left_out_fault(directive, rows),
    }
}

/// The fault at a line, if there is a cause.
pub fn fault_at(why: Option<AffWhy>, line: &DirectiveLine) -> Option<Fault>
    ensures { result ≡ least_of (faults_at why line.now) }
{
    let why = why?;
    Some(Fault {
        line: line.number,
        why,
    })
}

fn once_fault(
    kind: FlagKind,
    form: Form,
    directive: Directive,
    rows: &[DirectiveLine],
) -> Option<Fault>
    ensures { result ≡ least_of (once_faults kind form (lines_of directive rows.now)) }
{
    let (first, later) = next_of(directive, rows)?;
    let mut found = fault_at(line_why(kind, form, first), first);
    let mut rest = later;
    while let Some((line, more)) = next_of(directive, rest) {
        found = sooner(found, later_fault(kind, form, line));
        rest = more;
    }
    found
}

fn later_fault(kind: FlagKind, form: Form, line: &DirectiveLine) -> Option<Fault>
    ensures { result ≡ least_of (later_faults kind form line.now) }
{
    let twice = fault_at(Some(AffWhy::Twice), line);
    sooner(twice, fault_at(line_why(kind, form, line), line))
}

fn left_out_fault(directive: Directive, rows: &[DirectiveLine]) -> Option<Fault>
    ensures { result ≡ least_of (all_left_out (lines_of directive rows.now)) }
{
    let mut found = None;
    let mut rest = rows;
    while let Some((line, more)) = next_of(directive, rest) {
        found = sooner(found, fault_at(Some(AffWhy::LeftOut), line));
        rest = more;
    }
    found
}

fn table_fault(
    kind: FlagKind,
    row: RowForm,
    directive: Directive,
    rows: &[DirectiveLine],
) -> Option<Fault>
    ensures { result ≡ least_of (table_faults kind row (lines_of directive rows.now)) }
{
    let (header, later) = next_of(directive, rows)?;
    let found = fault_at(line_why(kind, Form::Number, header), header);
    sooner(found, counted_fault(kind, row, directive, header, later))
}

/// The earliest fault of a table, but for those of the header's number itself.
fn counted_fault(
    kind: FlagKind,
    row: RowForm,
    directive: Directive,
    header: &DirectiveLine,
    later: &[DirectiveLine],
) -> Option<Fault>
    ensures { result
        ≡ least_of (counted_faults kind row header.now (lines_of directive later.now)
        (number_behind_name header.now)) }
{
    let count = number_at(header)?;
    let has_all = count <= count_of(directive, later) as u64;
    let many = fault_at(unless(count <= MOST_ROWS, AffWhy::TooMany), header);
    let short = fault_at(unless(has_all, AffWhy::TableShort), header);
    sooner(
        many,
        sooner(short, rows_fault(kind, row, directive, count, later)),
    )
}

fn rows_fault(
    kind: FlagKind,
    row: RowForm,
    directive: Directive,
    count: u64,
    rows: &[DirectiveLine],
) -> Option<Fault>
    ensures { result ≡ least_of (rows_faults kind row count (lines_of directive rows.now)) }
{
    let mut found = None;
    let mut left = count;
    let mut rest = rows;
    while let Some((line, more)) = next_of(directive, rest) {
        found = sooner(found, place_fault(kind, row, left, line));
        left = left.saturating_sub(1);
        rest = more;
    }
    found
}

fn place_fault(kind: FlagKind, row: RowForm, left: u64, line: &DirectiveLine) -> Option<Fault>
    ensures { result ≡ least_of (place_faults kind row left line.now) }
{
    if left == 0 {
        fault_at(Some(AffWhy::Twice), line)
    } else {
        fault_at(row_why(kind, row, line), line)
    }
}
