//! What an .aff file says before its affixes can be read: its encoding, its type of flags, its flag
//! aliases, and the lines of all directives.
//!
//! Faults are looked for in passes. A directive is a row of a table with its names, its form and
//! its pass; a line is kept with the directive that its first field names, and the faults and the
//! values of a directive are asked of all its lines at once.
#![tactic(auto)]

ghost use Rattle.std.specs.Prelude.{◌≡◌, ◌++◌, ℕ, List, None, Some, All, IfOk, IfErr, IfSome};
ghost use Rattle.spell_types.specs.Flags.{AreOrdinary};
ghost use Rattle.line_faults.specs.Faults.{IsFault};
ghost use Rattle.aff_lines.specs.Faults.{Fault, first_fault, least_of, FaultsJoin, FindsLeast};
ghost use Rattle.aff_lines.specs.Faults.{IsLeast, Refuses};
ghost use Rattle.aff_lines.specs.Passes.{early_passes, passes_of, SaysDirectives, Reads, IsFirst};
ghost use Rattle.aff_lines.specs.Passes.{bad_faults};
ghost use Rattle.aff_lines.specs.Passes.{pass_faults};
ghost use Rattle.aff_lines.specs.declared.names.Pass.{Pass};

use crate::rows::read_rows;
use crate::values::{kind_said, read_aliases};
use line_faults::{first_of_passes, sooner};
use spell_types::{FlagKind, FlagSet};
use std::alloc::Global;
use text_lines::lines;
use text_lines::lists::{Items, NoMemory};

mod causes;
mod faults;
mod flagged_texts;
mod names;
mod passes;
mod rows;
mod values;

pub use causes::{line_why, number_at, number_in, unless};
pub use faults::{AffFault, AffWhy, Fault};
pub use flagged_texts::{bare_text, flag_behind};
pub use names::{
    Directive, Form, Pass, RowForm, directive_named, every_directive_has_one_row,
    no_name_stands_twice,
};
pub use passes::{fault_at, find_fault};
pub use rows::{DirectiveLine, next_of, rows_begin_with_names, value_of};
pub use values::{flag_said, is_said, number_said, table_rows, value_said};

/// What the first three passes over an .aff file say.
#[derive(Debug, Drop)]
pub struct Directives {
    /// How the file writes flags.
    pub kind: FlagKind,
    /// The sets that ordinals stand for, if the file has aliases.
    pub aliases: Option<Items<FlagSet>>,
    /// The lines of all directives, in the order of the file.
    pub kept: Items<DirectiveLine>,
}

/// Reads the directives that are needed before all others, or tells the first fault of the first
/// pass that has one: by line, and at one line by cause.
pub fn read_directives(alloc: Global, bytes: &[u8]) -> Result<Directives, AffFault>
    ensures read { IfOk result (Reads bytes.now) }
    ensures refused { IfErr result (Refuses (early_passes bytes.now)) }
    ensures ordinary { IfOk result (λ found. IfSome found.aliases (All AreOrdinary)) }

    // The same as equations, so that a reader can go on with the next pass.
    ensures fine { IfOk result (λ _. first_fault (early_passes bytes.now) ≡ None) }
    ensures first { IfErr result (IsFirst (early_passes bytes.now)) }
{
    read_early(alloc, bytes)
}

fn read_early(alloc: Global, bytes: &[u8]) -> Result<Directives, AffFault>
    ensures fine { IfOk result (λ _. first_fault (early_passes bytes.now) ≡ None) }
    ensures says { IfOk result (SaysDirectives bytes.now) }
    ensures ordinary { IfOk result (λ found. IfSome found.aliases (All AreOrdinary)) }
    ensures first { IfErr result (IsFirst (early_passes bytes.now)) }
{
    let found = lines(alloc, bytes)?;
    let rows = read_rows(alloc, bytes, &found.good)?;
    if let Some(fault) = early_fault(found.bad, &rows) {
        return Err(AffFault::At {
            line: fault.line,
            why: fault.why,
        });
    }
    let kind = kind_said(&rows);
    let aliases = read_aliases(alloc, kind, &rows)?;
    Ok(Directives {
        kind,
        aliases,
        kept: rows,
    })
}

/// The first fault of the first three passes, where this is the first line that is not UTF-8.
fn early_fault(bad: Option<u64>, rows: &[DirectiveLine]) -> Option<Fault>
    ensures { result ≡ first_fault (passes_of bad rows.now) }
{
    let kind = kind_said(rows);
    let third = first_of_passes(find_fault(kind, rows, Pass::Third), None);
    let second = first_of_passes(find_fault(kind, rows, Pass::Second), third);
    first_of_passes(encoding_fault(kind, bad, rows), second)
}

/// The earliest fault of the first pass.
#[tactic(auto, using(line_faults::specs::Laws::least_append))]
fn encoding_fault(kind: FlagKind, bad: Option<u64>, rows: &[DirectiveLine]) -> Option<Fault>
    ensures { result ≡ least_of (pass_faults kind rows.now Pass.First ++ bad_faults bad) }
{
    sooner(find_fault(kind, rows, Pass::First), bad_fault(bad))
}

/// The fault of the first line that is not UTF-8.
fn bad_fault(bad: Option<u64>) -> Option<Fault>
    ensures { result ≡ least_of (bad_faults bad) }
{
    let line = bad?;
    Some(Fault {
        line,
        why: AffWhy::NotUtf8,
    })
}

/// The first fault of some passes is the earliest fault of the first of them that has one.
pub fn first_faults_are_least()
    ensures none { (passes : List (List Fault)) → first_fault passes ≡ None
        → (pass : ℕ) (fault : Fault) → ¬ IsFault passes pass fault }
    ensures least { (passes : List (List Fault)) (fault : Fault) → first_fault passes ≡ Some fault
        → (pass : ℕ) × IsLeast (IsFault passes pass) fault }
{
    line_faults::first_faults_are_least::<AffWhy>();
}

/// The earliest fault of two lists of faults is the earlier of the earliest of each, and the
/// earliest of one is its least fault, or there is none.
pub fn earliest_faults()
    ensures join { FaultsJoin }
    ensures least { FindsLeast }
{
    line_faults::earliest_faults::<AffWhy>();
}

impl From<NoMemory> for AffFault {
    ghost use Rattle.aff_lines.specs.declared.faults.AffFault.{AffFault};

    ghost from_gives = { λ _ fault. fault ≡ AffFault.NoMemory };

    fn from(_error: NoMemory) -> AffFault {
        AffFault::NoMemory
    }
}
