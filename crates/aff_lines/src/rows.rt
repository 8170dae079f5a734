//! The lines of directives in an .aff file, and the lines of one directive.

ghost use Rattle.std.specs.Prelude.{◌≡◌, ◌++◌, ◌↔◌, ℕ, List, Some, All, IfOk, OnOk, filter};
ghost use Rattle.std.specs.Prelude.{filter_map, length};
ghost use Rattle.std.specs.Option.{option_copied, option_to_list};
ghost use Rattle.text_lines.specs.Lines.{IsInside};
ghost use Rattle.aff_lines.specs.declared.names.Directive.{Directive};
ghost use Rattle.aff_lines.specs.Rows.{row_of, row_in, row_with, directive_of, lines_of, value_of};
ghost use Rattle.aff_lines.specs.Rows.{BeginsWithDirective, IsNext};

use crate::names::{Directive, directive_named};
use std::alloc::Global;
use text_lines::found::Line;
use text_lines::lists::{Copied, Items, NoMemory};
use text_lines::{Text, field, line_text};

/// A line that begins with a name of a directive.
#[derive(Debug, Drop)]
pub struct DirectiveLine {
    /// The line's number.
    pub number: u64,
    /// The directive that its first field names.
    pub directive: Directive,
    /// The whole line.
    pub text: Text,
}

impl Copied for DirectiveLine {
    fn copy(&self, alloc: Global) -> Result<DirectiveLine, NoMemory> {
        Ok(DirectiveLine {
            number: self.number,
            directive: self.directive,
            text: self.text.copy(alloc)?,
        })
    }
}

/// The lines that begin with a name of a directive. All others are passed over: blank lines,
/// comments, since no name begins with `#`, and lines that begin with another name.
pub(crate) fn read_rows(
    alloc: Global,
    bytes: &[u8],
    lines: &[Line],
) -> Result<Items<DirectiveLine>, NoMemory>
    requires { All (IsInside bytes.now) lines.now }
    ensures { IfOk result (λ rows. rows ≡ filter_map (row_in bytes.now) lines.now) }
{
    let mut rows = Items::new(alloc);
    for line in lines {
        push_row(alloc, &mut rows, line.number, line_text(bytes, line))?;
    }
    Ok(rows)
}

/// Adds the row of a line, if it has one.
fn push_row(
    alloc: Global,
    rows: &mut Items<DirectiveLine>,
    number: u64,
    text: &str,
) -> Result<(), NoMemory>
    ensures { OnOk result (rows.new ≡ rows.old ++ option_to_list (row_of number text.now)) }
{
    let Some(directive) = directive_of(text) else {
        return Ok(());
    };
    rows.push(DirectiveLine {
        number,
        directive,
        text: Text::from_str(alloc, text)?,
    })
}

/// The directive that the first field of a line names.
fn directive_of(text: &str) -> Option<Directive>
    ensures { result ≡ directive_of text.now }
{
    directive_named(field(text, 0)?)
}

/// A line is a row exactly where its first field is a name of the directive that the row is of.
pub fn rows_begin_with_names()
    ensures { (number : ℕ) (text : List ℕ) (directive : Directive)
        → (row_of number text ≡ Some (row_with number text directive)) ↔ BeginsWithDirective directive text }
{}

/// The first line of a directive, and the rows behind it, in which the directive's other lines are.
pub fn next_of<'a>(
    directive: Directive,
    rows: &'a [DirectiveLine],
) -> Option<(&'a DirectiveLine, &'a [DirectiveLine])>
    ensures { IsNext directive rows.now result }
{
    let mut rest = rows;
    while let Some((row, more)) = rest.split_first() {
        if row.directive == directive {
            return Some((row, more));
        }
        rest = more;
    }
    None
}

/// How many lines a directive has.
pub(crate) fn count_of(directive: Directive, rows: &[DirectiveLine]) -> usize
    ensures { result ≡ length (lines_of directive rows.now) }
{
    rows.iter().filter(|row| row.directive == directive).count()
}

/// The field behind a line's name.
pub fn value_of(line: &DirectiveLine) -> Option<&str>
    ensures { option_copied result ≡ value_of line.now }
{
    field(line.text.as_str(), 1)
}
