//! What the rows of tables in an .aff file say of compounds.

ghost use Rattle.std.specs.Prelude.{◌≡◌, ◌<◌, Some, length, IfOk};
ghost use Rattle.spell_types.specs.Sanity.{IsOrdinaryJoint};
ghost use Rattle.aff_reader.specs.CompoundTables.{meant_by, spaced, rep_of, rep_in, is_remark};
ghost use Rattle.aff_reader.specs.CompoundTables.{replacement_in, joint_pattern_of, joint_in};

use crate::anchored_texts::read_anchored;
use crate::class_lines::field_of;
use crate::class_rules::{is_zero, unless_zero};
use crate::row_values::RowValue;
use crate::tables::text_at;
use aff_lines::{DirectiveLine, bare_text, flag_behind};
use spell_types::{Chars, FlagKind, JointPattern, Rep, chars_of};
use std::alloc::Global;
use text_lines::lists::{Items, NoMemory};

/// A row of REP: a common misspelling.
impl RowValue for Rep {
    ghost said_in = { λ kind. rep_in };

    ghost IsSound = { λ rep. 0 < length rep.from.text };

    fn read_row(
        alloc: Global,
        _kind: FlagKind,
        row: &DirectiveLine,
    ) -> Result<Option<Rep>, NoMemory> {
        match (text_at(alloc, row, 1)?, text_at(alloc, row, 2)?) {
            (Some(from), Some(to)) => Ok(Some(rep_of(alloc, &from, &to)?)),
            _ => Ok(None),
        }
    }
}

/// The misspelling of two texts of REP.
fn rep_of(alloc: Global, from: &[char], to: &[char]) -> Result<Rep, NoMemory>
    ensures said { IfOk result (λ rep. Some rep ≡ rep_of (Some from.now) (Some to.now)) }
    ensures some { 0 < length from.now → IfOk result (λ rep. 0 < length rep.from.text) }
{
    let from = spaced(alloc, from)?;
    Ok(Rep {
        from: read_anchored(alloc, &from)?,
        to: spaced(alloc, to)?,
    })
}

/// The characters that a text of REP stands for.
fn spaced(alloc: Global, text: &[char]) -> Result<Chars, NoMemory>
    ensures { IfOk result (λ made. made ≡ spaced text.now) }
{
    let characters: Vec<char> = text.iter().map(|c| meant_by(*c)).collect(alloc)?;
    Ok(Items::from_vec(characters))
}

/// What a character of a text of REP stands for: an underscore is a space there.
fn meant_by(c: char) -> char
    ensures { result ≡ meant_by c }
{
    if c == '_' { ' ' } else { c }
}

/// A row of CHECKCOMPOUNDPATTERN: parts that may not meet as they are, and how they may meet.
impl RowValue for JointPattern {
    ghost said_in = { joint_in };

    ghost IsSound = { IsOrdinaryJoint };

    fn read_row(
        alloc: Global,
        kind: FlagKind,
        row: &DirectiveLine,
    ) -> Result<Option<JointPattern>, NoMemory> {
        match (field_of(row, 1), field_of(row, 2)) {
            (Some(left), Some(right)) => {
                let replacement = replacement_in(alloc, row)?;
                Ok(Some(joint_with(alloc, kind, left, right, replacement)?))
            }
            _ => Ok(None),
        }
    }
}

/// What a row puts in place of what it names on both sides: its third text, if it is no remark.
fn replacement_in(alloc: Global, row: &DirectiveLine) -> Result<Option<Chars>, NoMemory>
    ensures { IfOk result (λ text. text ≡ replacement_in row.now) }
{
    Ok(text_at(alloc, row, 3)?.filter(|text| !is_remark(text)))
}

/// Whether a text is a remark.
fn is_remark(text: &[char]) -> bool
    ensures { result ≡ is_remark text.now }
{
    text.starts_with(&['#'])
}

/// Two parts that may not meet as they are, by what is written for each, and how they may meet.
fn joint_with(
    alloc: Global,
    kind: FlagKind,
    left: &str,
    right: &str,
    replacement: Option<Chars>,
) -> Result<JointPattern, NoMemory>
    ensures joint { IfOk result (λ joint. joint ≡ joint_pattern_of kind left.now right.now replacement) }
    ensures ordinary { IfOk result IsOrdinaryJoint }
{
    let end = chars_of(alloc, bare_text(left))?;
    Ok(JointPattern {
        unmodified: is_zero(&end),
        end: unless_zero(alloc, end),
        end_flag: flag_behind(kind, left),
        begin: chars_of(alloc, bare_text(right))?,
        begin_flag: flag_behind(kind, right),
        replacement,
    })
}
