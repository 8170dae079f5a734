//! The entries of a dictionary. All words stand in one text, so that an entry takes little memory
//! beside the bytes of its word.

ghost use Rattle.std.specs.Prelude.{◌≡◌, ◌==◌, ◌+◌, ◌<◌, ◌≤◌, ℕ, List, [], ◌∷◌, ◌++◌, length, map};
ghost use Rattle.std.specs.Prelude.{take};
ghost use Rattle.std.specs.Prelude.{slice_get, get_or, Some, true, false, IfOk, OnOk, OnErr};
ghost use Rattle.std.specs.List.{AllByRecursion, flat_map};
ghost use Rattle.std.specs.Str.{chars};
ghost use Rattle.std.specs.String.{string_bytes};
ghost use Rattle.spell_types.specs.declared.Entry.{Entry};
ghost use Rattle.spell_types.specs.declared.flags.Flag.{Flag};
ghost use Rattle.spell_types.specs.Flags.{has, has_flag_of};
ghost use Rattle.spell_types.specs.Rows.{entry_in, IsEndIn, IsRowIn};
ghost use Rattle.spell_types.specs.declared.entries.Row.{Row};

use crate::flags::has_flag_of;
use crate::{Flag, FlagSet, sets_have_their_flags};
use lists::{Copied, NoMemory};
use std::alloc::Global;
use std::marker::Model;

/// Where the word of an entry stands in the text of all words, by bytes, and the number of its set
/// of flags, from 0.
#[derive(Clone, Copy, Debug)]
pub(crate) struct Row {
    from: u32,
    to: u32,
    set: u32,
}

/// The entries of a dictionary in the order of its file. Several may have one word. Entries with
/// the same flags may share their set, so that what is asked of flags alone is asked once for all
/// of them. Contracts see it as the list of its entries.
#[derive(Debug, Drop)]
pub struct Entries {
    text: String,
    sets: Vec<FlagSet>,
    rows: Vec<Row>,
}

impl Model for Entries {
    ghost use Rattle.std.specs.Prelude.{List, map};
    ghost use Rattle.std.specs.List.{AllByRecursion};
    ghost use Rattle.std.specs.String.{string_bytes};
    ghost use Rattle.spell_types.specs.declared.Entry.{Entry};
    ghost use Rattle.spell_types.specs.Rows.{entry_in, IsRowIn};

    ghost Value = { List Entry };

    ghost view = { λ inside.
        map (entry_in (string_bytes inside.text) inside.sets.items) inside.rows.items };

    ghost invariant = { λ inside.
        AllByRecursion (IsRowIn (string_bytes inside.text) inside.sets.items) inside.rows.items };
}

/// An entry where it stands among others. Contracts see it as the entry.
#[derive(Debug, Drop)]
pub struct EntryRef<'a> {
    pub(crate) word: &'a str,
    pub(crate) flags: &'a FlagSet,
}

impl<'a> Model for EntryRef<'a> {
    ghost use Rattle.std.specs.Str.{chars};
    ghost use Rattle.spell_types.specs.declared.Entry.{Entry};

    ghost Value = { Entry };

    ghost view = { λ inside. record { word = chars inside.word.now; flags = inside.flags.now } };
}

impl<'a> EntryRef<'a> {
    /// The word.
    pub fn word(&self) -> &'a str
        ensures { chars result.now ≡ self.now.word }
    {
        self.word
    }

    /// The flags.
    pub fn flags(&self) -> &'a FlagSet
        ensures { result.now ≡ self.now.flags }
    {
        self.flags
    }
}

impl Entries {
    /// No entries. They take no memory before the first `push`.
    pub fn new(alloc: Global) -> Entries
        ensures { result ≡ [] }
    {
        Entries {
            text: String::new(alloc),
            sets: Vec::new(alloc),
            rows: Vec::new(alloc),
        }
    }

    /// No entries, with room for so many, and for so many bytes of their words.
    pub fn with_capacity(alloc: Global, count: usize, bytes: usize) -> Result<Entries, NoMemory>
        ensures { IfOk result (λ made. made ≡ []) }
    {
        Ok(Entries {
            text: String::with_capacity(alloc, bytes)?,
            sets: Vec::new(alloc),
            rows: Vec::with_capacity(alloc, count)?,
        })
    }

    /// How many entries there are.
    pub fn len(&self) -> usize
        ensures { result ≡ length self.now }
    {
        self.rows.len()
    }

    /// Whether there is no entry.
    pub fn is_empty(&self) -> bool
        ensures { result ≡ (length self.now == 0) }
    {
        self.rows.is_empty()
    }

    /// The entry with a place, from 0; none past the end.
    pub fn get(&self, place: usize) -> Option<EntryRef<'_>>
        ensures { result ≡ slice_get self.now place }
    {
        let row = self.rows.get(place)?;
        Some(EntryRef {
            word: &self.text.as_str()[row.from as usize..row.to as usize],
            flags: &self.sets.as_slice()[row.set as usize],
        })
    }

    /// The entry with a place that is below their number.
    pub fn at(&self, place: usize) -> EntryRef<'_>
        requires { place < length self.now }
        ensures { slice_get self.now place ≡ Some result }
    {
        self.get(place).unwrap()
    }

    /// Adds an entry at the end, with a set of flags of its own. Where memory is wanting, which it
    /// also is where all words together would have more bytes than a `u32` counts, the entries
    /// stay.
    pub fn push(&mut self, word: &str, flags: FlagSet) -> Result<(), NoMemory>
        ensures ok { OnOk result
            (self.new ≡ self.old ++ record { word = chars word.now; flags = flags } ∷ []) }
        ensures err { OnErr result (self.new ≡ self.old) }
    {
        let from = end_of(&self.text)?;
        let set = push_set(&mut self.sets, flags)?;
        self.text.push_str(word)?;
        push_row(&mut self.rows, &self.text, from, set)
    }

    /// Adds an entry at the end that shares the flags of the entry with a place, from 0. Where
    /// memory is wanting, as by `push`, the entries stay.
    pub fn push_like(&mut self, word: &str, place: usize) -> Result<(), NoMemory>
        requires { place < length self.old }
        ensures ok { OnOk result ((entry : Entry) → slice_get self.old place ≡ Some entry
            → self.new ≡ self.old ++ record { word = chars word.now; flags = entry.flags } ∷ []) }
        ensures err { OnErr result (self.new ≡ self.old) }
    {
        let from = end_of(&self.text)?;
        let set = self.rows[place].set;
        self.text.push_str(word)?;
        push_row(&mut self.rows, &self.text, from, set)
    }

    /// Copies of so many first entries, with room for so many more; of all where there are fewer.
    pub fn copy_front(&self, alloc: Global, count: usize, more: usize) -> Result<Entries, NoMemory>
        ensures { IfOk result (λ made. made ≡ take count self.now) }
    {
        let rows = self.rows.as_slice();
        let count = count.min(rows.len());
        front_of(alloc, self.text.as_str(), &self.sets, &rows[..count], more)
    }

    /// A set of flags that has all that the entries have.
    pub fn flags(&self, alloc: Global) -> Result<FlagSet, NoMemory>
        ensures { IfOk result (λ set. (place : ℕ) (entry : Entry) (flag : Flag)
            → slice_get self.now place ≡ Some entry → has entry.flags (Some flag) ≡ true
            → has set (Some flag) ≡ true) }
    {
        sets_have_their_flags();
        FlagSet::from_list(alloc, flags_in(alloc, &self.sets)?)
    }

    /// At the place of each entry whether it has one of these flags.
    pub fn having(&self, alloc: Global, flags: &FlagSet) -> Result<Vec<bool>, NoMemory>
        ensures { IfOk result
            (λ told. told.items ≡ map (λ entry. has_flag_of flags.now entry.flags) self.now) }
    {
        let by_set = sets_having(alloc, &self.sets, flags)?;
        told_by_rows(alloc, &self.rows, &by_set)
    }
}

impl Copied for Entries {
    fn copy(&self, alloc: Global) -> Result<Entries, NoMemory> {
        self.copy_front(alloc, self.len(), 0)
    }
}

/// Where a text ends, by bytes, if a `u32` counts them.
fn end_of(text: &String) -> Result<u32, NoMemory>
    ensures { IfOk result (λ end. end ≡ length (string_bytes text.now)) }
{
    u32::try_from(text.len()).map_err(|_| NoMemory)
}

/// Adds a set at the end, and gives its number.
fn push_set(sets: &mut Vec<FlagSet>, flags: FlagSet) -> Result<u32, NoMemory>
    ensures number { IfOk result (λ set. set ≡ length sets.old.items) }
    ensures ok { OnOk result (sets.new.items ≡ sets.old.items ++ flags ∷ []) }
    ensures err { OnErr result (sets.new.items ≡ sets.old.items) }
{
    let set = u32::try_from(sets.len()).map_err(|_| NoMemory)?;
    sets.push(flags)?;
    Ok(set)
}

/// Adds the row of the word that stands at the end of a text, from a place on, with the set of a
/// number.
fn push_row(rows: &mut Vec<Row>, text: &String, from: u32, set: u32) -> Result<(), NoMemory>
    ensures ok { OnOk result (rows.new.items ≡ rows.old.items
        ++ record { from = from; to = length (string_bytes text.now); set = set } ∷ []) }
    ensures err { OnErr result (rows.new.items ≡ rows.old.items) }
{
    let to = end_of(text)?;
    rows.push(Row { from, to, set })?;
    Ok(())
}

/// The entries of rows over a text and sets, with room for so many more.
fn front_of(
    alloc: Global,
    text: &str,
    sets: &[FlagSet],
    rows: &[Row],
    more: usize,
) -> Result<Entries, NoMemory>
    requires { AllByRecursion (IsRowIn text.now sets.now) rows.now }
    ensures { IfOk result (λ made. made ≡ map (entry_in text.now sets.now) rows.now) }
{
    let text = String::from_str(alloc, &text[..text_end(rows)])?;
    let sets = copies_of(alloc, &sets[..sets_end(rows)])?;
    let mut own = Vec::with_capacity(alloc, rows.len().saturating_add(more))?;
    own.extend_from_slice(rows)?;
    Ok(Entries {
        text,
        sets,
        rows: own,
    })
}

/// Where the last word of some rows ends in the text of all words.
fn text_end(rows: &[Row]) -> usize
    ensures within { (place : ℕ) (row : Row) → slice_get rows.now place ≡ Some row
        → row.to ≤ result }
    ensures cut { (text : List ℕ)
        → ((place : ℕ) (row : Row) → slice_get rows.now place ≡ Some row → IsEndIn text row.to)
        → IsEndIn text result }
{
    let mut end = 0;
    for row in rows {
        end = end.max(row.to as usize);
    }
    end
}

/// How many sets there are up to the last that one of some rows has.
fn sets_end(rows: &[Row]) -> usize
    ensures within { (place : ℕ) (row : Row) → slice_get rows.now place ≡ Some row
        → row.set + 1 ≤ result }
    ensures few { (count : ℕ)
        → ((place : ℕ) (row : Row) → slice_get rows.now place ≡ Some row → row.set + 1 ≤ count)
        → result ≤ count }
{
    let mut end = 0;
    for row in rows {
        end = end.max(row.set as usize + 1);
    }
    end
}

/// Copies of sets.
fn copies_of(alloc: Global, sets: &[FlagSet]) -> Result<Vec<FlagSet>, NoMemory>
    ensures { IfOk result (λ made. made.items ≡ sets.now) }
{
    let mut made = Vec::with_capacity(alloc, sets.len())?;
    for set in sets {
        made.push(set.copy(alloc)?)?;
    }
    Ok(made)
}

/// All flags of sets, one set after another.
fn flags_in(alloc: Global, sets: &[FlagSet]) -> Result<Vec<Flag>, NoMemory>
    ensures { IfOk result (λ made. made.items ≡ flat_map (λ set. set) sets.now) }
{
    let mut flags = Vec::new(alloc);
    for set in sets {
        flags.extend_from_slice(set.as_slice())?;
    }
    Ok(flags)
}

/// At the number of each set whether it has one of these flags.
fn sets_having(alloc: Global, sets: &[FlagSet], flags: &FlagSet) -> Result<Vec<bool>, NoMemory>
    ensures { IfOk result (λ told. told.items ≡ map (has_flag_of flags.now) sets.now) }
{
    let told = sets
        .iter()
        .map(|set| has_flag_of(set, flags))
        .collect(alloc)?;
    Ok(told)
}

/// At the place of each row what is told of its set.
fn told_by_rows(alloc: Global, rows: &[Row], by_set: &[bool]) -> Result<Vec<bool>, NoMemory>
    ensures { IfOk result
        (λ told. told.items ≡ map (λ row. get_or by_set.now row.set false) rows.now) }
{
    let told = rows.iter().map(|row| told_of(by_set, row)).collect(alloc)?;
    Ok(told)
}

/// What is told of the set of a row.
fn told_of(by_set: &[bool], row: &Row) -> bool
    ensures { result ≡ get_or by_set.now row.now.set false }
{
    by_set.get(row.set as usize).copied().unwrap_or(false)
}
