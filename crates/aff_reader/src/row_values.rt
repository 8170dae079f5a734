//! Tables of an .aff file, each row of which says a value.

ghost use Rattle.std.specs.Prelude.{◌≡◌, ◌++◌, Option, All, filter_map, IfOk, IfSome, OnOk};
ghost use Rattle.std.specs.Option.{option_to_list};
ghost use Rattle.spell_types.specs.declared.flags.FlagKind.{FlagKind};
ghost use Rattle.aff_lines.specs.declared.rows.DirectiveLine.{DirectiveLine};
ghost use Rattle.aff_lines.specs.Passes.{lines_at};
ghost use Rattle.aff_lines.specs.Rows.{lines_of};
ghost use Rattle.aff_reader.specs.Tables.{table_said};

use aff_lines::{Directive, DirectiveLine, table_rows};
use spell_types::FlagKind;
use std::alloc::Global;
use text_lines::lists::{Items, NoMemory};

/// A value that a row of a table says.
pub(crate) trait RowValue: Drop + Sized {
    /// What a row says, where flags are of this type. In a file without faults each row says a
    /// value.
    ghost said_in: { FlagKind → DirectiveLine → Option Self };

    /// What holds of each value that is read.
    ghost IsSound: { Self → Type 0 };

    /// Reads what a row says.
    fn read_row(
        alloc: Global,
        kind: FlagKind,
        row: &DirectiveLine,
    ) -> Result<Option<Self>, NoMemory>
        ensures said { IfOk result (λ value. value ≡ said_in kind row.now) }
        ensures sound { IfOk result (λ value. IfSome value IsSound) };
}

/// What the rows of a table say, in their order. A file without the table says nothing.
pub(crate) fn read_table<T: RowValue>(
    alloc: Global,
    kind: FlagKind,
    directive: Directive,
    rows: &[DirectiveLine],
) -> Result<Items<T>, NoMemory>
    ensures said { IfOk result
        (λ values. values ≡ table_said (T.said_in kind) (lines_of directive rows.now)) }
    ensures sound { IfOk result (All T.IsSound) }
{
    match table_rows(alloc, directive, rows)? {
        Some(listed) => read_listed(alloc, kind, &listed),
        None => Ok(Items::new(alloc)),
    }
}

/// What these rows say, in their order.
pub(crate) fn read_listed<T: RowValue>(
    alloc: Global,
    kind: FlagKind,
    rows: &[&DirectiveLine],
) -> Result<Items<T>, NoMemory>
    ensures said { IfOk result
        (λ values. values ≡ filter_map (T.said_in kind) (lines_at rows.now)) }
    ensures sound { IfOk result (All T.IsSound) }
{
    let mut values = Items::new(alloc);
    for row in rows {
        push_row(alloc, &mut values, kind, row)?;
    }
    Ok(values)
}

/// Adds what a row says.
fn push_row<T: RowValue>(
    alloc: Global,
    values: &mut Items<T>,
    kind: FlagKind,
    row: &DirectiveLine,
) -> Result<(), NoMemory>
    ensures said { OnOk result
        (values.new ≡ values.old ++ option_to_list (T.said_in kind row.now)) }
    ensures sound { All T.IsSound values.old → OnOk result (All T.IsSound values.new) }
{
    if let Some(value) = T::read_row(alloc, kind, row)? {
        values.push(value)?;
    }
    Ok(())
}
