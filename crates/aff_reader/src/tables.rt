//! What the rows of tables in an .aff file say: of conversions, and of places where words may be
//! broken.

ghost use Rattle.std.specs.Prelude.{◌≡◌, ◌<◌, ℕ, List, Some, All, length, IfOk};
ghost use Rattle.std.specs.Str.{chars};
ghost use Rattle.aff_lines.specs.declared.names.Directive.{Directive};
ghost use Rattle.aff_lines.specs.Rows.{lines_of};
ghost use Rattle.aff_reader.specs.Tables.{text_at, conversion_in, break_of_row, default_breaks};
ghost use Rattle.aff_reader.specs.Tables.{breaks_said};

use crate::anchored_texts::read_anchored;
use crate::class_lines::field_of;
use crate::row_values::{RowValue, read_listed};
use aff_lines::{Directive, DirectiveLine, table_rows};
use spell_types::{Anchored, Chars, Conversion, FlagKind, chars_of};
use std::alloc::Global;
use text_lines::lists::{Items, NoMemory};

/// A row of ICONV.
impl RowValue for Conversion {
    ghost said_in = { λ kind. conversion_in };

    ghost IsSound = { λ row. 0 < length row.from };

    fn read_row(
        alloc: Global,
        _kind: FlagKind,
        row: &DirectiveLine,
    ) -> Result<Option<Conversion>, NoMemory> {
        match (text_at(alloc, row, 1)?, text_at(alloc, row, 2)?) {
            (Some(from), Some(to)) => Ok(Some(Conversion { from, to })),
            _ => Ok(None),
        }
    }
}

/// A row of BREAK.
impl RowValue for Anchored {
    ghost said_in = { λ kind. break_of_row };

    ghost IsSound = { λ anchored. 0 < length anchored.text };

    fn read_row(
        alloc: Global,
        _kind: FlagKind,
        row: &DirectiveLine,
    ) -> Result<Option<Anchored>, NoMemory> {
        match text_at(alloc, row, 1)? {
            Some(text) => Ok(Some(read_anchored(alloc, &text)?)),
            None => Ok(None),
        }
    }
}

/// Where words may be broken: the rows of BREAK, or what holds without that option.
pub(crate) fn read_breaks(
    alloc: Global,
    kind: FlagKind,
    rows: &[DirectiveLine],
) -> Result<Items<Anchored>, NoMemory>
    ensures said { IfOk result (λ made. made ≡ breaks_said (lines_of Directive.Break rows.now)) }
    ensures some { IfOk result (All (λ anchored. 0 < length anchored.text)) }
{
    match table_rows(alloc, Directive::Break, rows)? {
        Some(listed) => read_listed(alloc, kind, &listed),
        None => default_breaks(alloc),
    }
}

/// The break patterns of a file that has no line BREAK.
fn default_breaks(alloc: Global) -> Result<Items<Anchored>, NoMemory>
    ensures said { IfOk result (λ made. made ≡ default_breaks) }
    ensures some { IfOk result (All (λ anchored. 0 < length anchored.text)) }
{
    let mut made = Items::new(alloc);
    made.push(read_anchored(alloc, &['-'])?)?;
    made.push(read_anchored(alloc, &['^', '-'])?)?;
    made.push(read_anchored(alloc, &['-', '$'])?)?;
    Ok(made)
}

/// The characters of a field of a row, if it is there. A field is never empty.
pub(crate) fn text_at(
    alloc: Global,
    row: &DirectiveLine,
    k: usize,
) -> Result<Option<Chars>, NoMemory>
    ensures value { IfOk result (λ text. text ≡ text_at row.now k) }
    ensures some { IfOk result (λ text. (own : List ℕ) → text ≡ Some own → 0 < length own) }
{
    match field_of(row, k) {
        Some(text) => Ok(Some(characters_of(alloc, text)?)),
        None => Ok(None),
    }
}

fn characters_of(alloc: Global, text: &str) -> Result<Chars, NoMemory>
    ensures value { IfOk result (λ made. made ≡ chars text.now) }
    ensures some { 0 < length text.now → IfOk result (λ made. 0 < length made) }
{
    chars_of(alloc, text)
}
