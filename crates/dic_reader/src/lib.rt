//! Reads .dic files: the words of a dictionary with their flags.
//!
//! The first line holds a count, of which only its first digit is looked at. Behind it each line
//! has one entry, except lines that are blank or begin with a tab. An entry goes to the first tab,
//! or to a space before a field of morphology as `po:noun`; spaces at its ends are dropped. Its
//! flags stand behind its first slash that is not its first character and that no backslash
//! precedes. `\/` is a slash of the word. The characters to ignore are left out of words.
#![tactic(auto)]

ghost use Rattle.std.specs.Prelude.{◌≡◌, ℕ, ◌<◌, ◌≤◌, ◌^◌, List, length, Some, None};
ghost use Rattle.std.specs.Prelude.{IfOk, IfErr};
ghost use Rattle.text_lines.specs.declared.found.Line.{Line};
ghost use Rattle.spell_types.specs.declared.Affixes.{Affixes};
ghost use Rattle.spell_types.specs.Sanity.{AreSaneEntries, HasOrdinaryFlags, HaveOrdinaryFlags};
ghost use Rattle.dic_reader.specs.Entries.{listed, AreLinesOf};
ghost use Rattle.dic_reader.specs.Faults.{DicFaultAtLine, entry_limit, dic_passes, first_dic_fault};
ghost use Rattle.dic_reader.specs.Faults.{entries_read, lines_read, dic_read, DicBad};
ghost use Rattle.dic_reader.specs.Faults.{IsLeastDicFault};
ghost use Rattle.dic_reader.specs.Faults.{AreEntriesRead, DicReads, DicRefuses};

use crate::cutting::{entry_of, is_count, is_passed_over};
use crate::known_sets::{KnownSets, add};
use crate::words::read_entry;
use spell_types::{Affixes, Entries};
use std::alloc::Global;
use text_lines::{decimal, first_line, text_of_file};

mod cutting;
mod faults;
mod known_sets;
mod words;

pub use faults::{DicFault, DicWhy};

/// How many entries a file may have.
const ENTRY_LIMIT: usize = 1_000_000;

/// The entries of a .dic file in their order, or its first fault. `affixes` says how its flags are
/// written. A line that is not UTF-8 is told before all other faults; of those the one at the
/// lowest line is told, and at one line the one whose cause stands first in `DicWhy`. A file
/// without lines lacks its count at line 1.
pub fn read_dic(alloc: Global, affixes: &Affixes, bytes: &[u8]) -> Result<Entries, DicFault>
    ensures read { IfOk result (DicReads affixes.now bytes.now) }
    ensures refused { IfErr result (DicRefuses affixes.now bytes.now) }
    ensures sane { IfOk result AreSaneEntries }
    ensures few { IfOk result (λ entries. length entries ≤ entry_limit) }
    ensures ordinary { HasOrdinaryFlags affixes.now → IfOk result HaveOrdinaryFlags }

    // The same as one value, so that a caller can go on with it.
    ensures value { AreEntriesRead (dic_read affixes.now bytes.now) result }
{
    read_file(alloc, affixes, bytes)
}

/// The fault that is told of a file is the least of those that the first pass with a fault has, and
/// a file of which none is told has none.
pub fn first_fault_is_least()
    ensures none { (affixes : Affixes) (bytes : List ℕ) → first_dic_fault (dic_passes affixes bytes)
        ≡ None
        → (pass : ℕ) (fault : DicFaultAtLine) → ¬ DicBad affixes bytes pass fault }
    ensures least { (affixes : Affixes) (bytes : List ℕ) (fault : DicFaultAtLine)
        → first_dic_fault (dic_passes affixes bytes) ≡ Some fault
        → (pass : ℕ) × IsLeastDicFault (DicBad affixes bytes pass) fault }
{}

/// The entries of a file, or its first fault.
fn read_file(alloc: Global, affixes: &Affixes, bytes: &[u8]) -> Result<Entries, DicFault>
    ensures read { AreEntriesRead (dic_read affixes.now bytes.now) result }
    ensures sane { IfOk result AreSaneEntries }
    ensures few { IfOk result (λ entries. length entries ≤ entry_limit) }
    ensures ordinary { HasOrdinaryFlags affixes.now → IfOk result HaveOrdinaryFlags }
{
    match text_of_file(bytes) {
        Ok(text) => read_text(alloc, affixes, text),
        Err(line) => Err(DicFault::At {
            line,
            why: DicWhy::NotUtf8,
        }),
    }
}

/// The entries of a text whose first line has to count.
fn read_text(alloc: Global, affixes: &Affixes, text: &str) -> Result<Entries, DicFault>
    ensures read { (bytes : List ℕ) (lines : List Line) → AreLinesOf bytes 1 lines text.now
        → AreEntriesRead (lines_read affixes.now bytes lines) result }
    ensures sane { IfOk result AreSaneEntries }
    ensures few { IfOk result (λ entries. length entries ≤ entry_limit) }
    ensures ordinary { HasOrdinaryFlags affixes.now → IfOk result HaveOrdinaryFlags }
{
    if !text.is_empty() {
        let (count, later) = first_line(text);
        if is_count(count) {
            return read_entries(alloc, affixes, later, ENTRY_LIMIT, hint_of(count));
        }
    }
    Err(DicFault::At {
        line: 1,
        why: DicWhy::BadCount,
    })
}

/// How many entries a file may have by its first line, which need not be true.
fn hint_of(count: &str) -> usize {
    decimal(count).map_or(0, |hint| hint.min(ENTRY_LIMIT as u64) as usize)
}

/// The entries of lines behind the first, of which there may be so many. `hint` is only how many
/// there is room for at the start, where the text is not too short for them.
fn read_entries(
    alloc: Global,
    affixes: &Affixes,
    text: &str,
    limit: usize,
    hint: usize,
) -> Result<Entries, DicFault>
    requires few { limit < 2 ^ 32 }
    ensures read { (bytes : List ℕ) (lines : List Line) → AreLinesOf bytes 2 lines text.now
        → AreEntriesRead (entries_read affixes.now limit (listed bytes lines)) result }
    ensures sane { IfOk result AreSaneEntries }
    ensures few { IfOk result (λ entries. length entries ≤ limit) }
    ensures ordinary { HasOrdinaryFlags affixes.now → IfOk result HaveOrdinaryFlags }
{
    let mut entries = Entries::with_capacity(alloc, hint.min(text.len()), text.len())?;
    let mut known = KnownSets::new(alloc);
    let mut rest = text;
    let mut gone = 0u64;
    while !rest.is_empty() {
        let (line, behind) = first_line(rest);
        rest = behind;
        gone += 1;
        if is_passed_over(line) {
            continue;
        }
        let number = gone + 1;
        let found = read_entry(alloc, affixes, &known, number, entry_of(line))?;
        if entries.len() == limit {
            return Err(DicFault::At {
                line: number,
                why: DicWhy::TooMany,
            });
        }
        add(&mut entries, &mut known, found)?;
    }
    Ok(entries)
}
