//! What the lines of a directive say.

ghost use Rattle.std.specs.Prelude.{◌≡◌, All, IfOk, IfSome, map, take, unwrap_or};
ghost use Rattle.std.specs.Option.{option_copied, option_map};
ghost use Rattle.spell_types.specs.Flags.{IsOrdinary, AreOrdinary};
ghost use Rattle.aff_lines.specs.declared.names.Directive.{Directive};
ghost use Rattle.aff_lines.specs.Causes.{number_behind_name};
ghost use Rattle.aff_lines.specs.Passes.{value_said, flag_said, number_said, is_said, table_rows};
ghost use Rattle.aff_lines.specs.Passes.{lines_at, kind_said, set_in, aliases_said};
ghost use Rattle.aff_lines.specs.Rows.{lines_of};

use crate::causes::{kind_named, number_at, number_in};
use crate::names::Directive;
use crate::rows::{DirectiveLine, next_of, value_of};
use flag_sets::{FlagFault, read_flags, read_one_flag};
use spell_types::{Flag, FlagKind, FlagSet};
use std::alloc::Global;
use text_lines::lists::{Items, NoMemory};

/// The value of a directive: that of its first line.
pub fn value_said(directive: Directive, rows: &[DirectiveLine]) -> Option<&str>
    ensures { option_copied result ≡ value_said (lines_of directive rows.now) }
{
    let (line, _) = next_of(directive, rows)?;
    value_of(line)
}

/// The flag of a directive.
pub fn flag_said(kind: FlagKind, directive: Directive, rows: &[DirectiveLine]) -> Option<Flag>
    ensures flag { result ≡ flag_said kind (lines_of directive rows.now) }
    ensures ordinary { IfSome result IsOrdinary }
{
    read_one_flag(kind, value_said(directive, rows)?)
}

/// The number of a directive.
pub fn number_said(directive: Directive, rows: &[DirectiveLine]) -> Option<u32>
    ensures { result ≡ number_said (lines_of directive rows.now) }
{
    let number = number_in(value_said(directive, rows)?)?;
    Some(number as u32)
}

/// Whether a switch is there.
pub fn is_said(directive: Directive, rows: &[DirectiveLine]) -> bool
    ensures { result ≡ is_said (lines_of directive rows.now) }
{
    next_of(directive, rows).is_some()
}

/// The rows of a table, if it is there: of the lines behind its header the first, as many as that
/// says.
pub fn table_rows<'a>(
    alloc: Global,
    directive: Directive,
    rows: &'a [DirectiveLine],
) -> Result<Option<Items<&'a DirectiveLine>>, NoMemory>
    ensures { IfOk result
        (λ found. option_map lines_at found ≡ table_rows (lines_of directive rows.now)) }
{
    let Some((header, later)) = next_of(directive, rows) else {
        return Ok(None);
    };
    let count = number_at(header).unwrap_or(0);
    Ok(Some(first_lines(alloc, directive, count, later)?))
}

/// The first lines of a directive, so many at most.
fn first_lines<'a>(
    alloc: Global,
    directive: Directive,
    count: u64,
    rows: &'a [DirectiveLine],
) -> Result<Items<&'a DirectiveLine>, NoMemory>
    ensures { IfOk result (λ found. lines_at found ≡ take count (lines_of directive rows.now)) }
{
    let mut found = Items::new(alloc);
    let mut left = count;
    let mut rest = rows;
    while left > 0 {
        let Some((line, more)) = next_of(directive, rest) else {
            return Ok(found);
        };
        found.push(line)?;
        left -= 1;
        rest = more;
    }
    Ok(found)
}

/// The type of flags that the rows say.
pub(crate) fn kind_said(rows: &[DirectiveLine]) -> FlagKind
    ensures { result ≡ kind_said (lines_of Directive.FlagType rows.now) }
{
    match value_said(Directive::FlagType, rows) {
        Some(value) => kind_named(value).unwrap_or(FlagKind::Single),
        None => FlagKind::Single,
    }
}

/// The flag aliases that the rows list.
pub(crate) fn read_aliases(
    alloc: Global,
    kind: FlagKind,
    rows: &[DirectiveLine],
) -> Result<Option<Items<FlagSet>>, NoMemory>
    ensures said { IfOk result
        (λ aliases. aliases ≡ aliases_said kind (lines_of Directive.FlagAliases rows.now)) }
    ensures ordinary { IfOk result (λ aliases. IfSome aliases (All AreOrdinary)) }
{
    match table_rows(alloc, Directive::FlagAliases, rows)? {
        Some(lines) => Ok(Some(read_sets(alloc, kind, &lines)?)),
        None => Ok(None),
    }
}

/// The sets of the rows of AF.
fn read_sets(
    alloc: Global,
    kind: FlagKind,
    lines: &[&DirectiveLine],
) -> Result<Items<FlagSet>, NoMemory>
    ensures said { IfOk result (λ sets. sets ≡ map (set_in kind) (lines_at lines.now)) }
    ensures ordinary { IfOk result (All AreOrdinary) }
{
    let mut sets = Items::new(alloc);
    for line in lines {
        sets.push(read_set(alloc, kind, line)?)?;
    }
    Ok(sets)
}

/// The set in the field behind a line's name.
fn read_set(alloc: Global, kind: FlagKind, line: &DirectiveLine) -> Result<FlagSet, NoMemory>
    ensures said { IfOk result (λ set. set ≡ set_in kind line.now) }
    ensures ordinary { IfOk result AreOrdinary }
{
    let text = value_of(line).unwrap_or("");
    match read_flags(alloc, kind, None, text) {
        Ok(set) => Ok(set),
        Err(FlagFault::NoMemory) => Err(NoMemory),
        Err(_) => Ok(FlagSet::new(alloc)),
    }
}
