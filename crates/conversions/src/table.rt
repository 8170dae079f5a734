//! A table of conversions that is prepared once for all words.
#![tactic(auto)]

ghost use Rattle.std.specs.Prelude.{◌≡◌, ◌++◌, ◌<◌, ◌≤◌, length, take, drop, MatchOption, IfOk};
ghost use Rattle.std.specs.Option.{option_copied};
ghost use Rattle.spell_types.specs.Conversions.{best_fit, converted};
ghost use Rattle.conversions.specs.Patterns.{ArePatternsOf, ArePatternsSorted, BestUpTo, or_word};

use spell_types::lists::{Items, NoMemory};
use spell_types::{Chars, Conversion};
use std::alloc::Global;
use std::marker::Model;
use text_order::{ending, going_on};

/// A pattern, and the place of its row in the table.
type ConversionPattern = (Vec<char>, usize);

/// A table of conversions, ready to be used on words. Contracts see it as its rows. A pattern is
/// found by its characters, one after another, each by halves among the patterns that begin alike:
/// at a place of a word no more characters are looked at than some pattern has there, and one.
#[derive(Drop)]
pub struct Conversions {
    table: Items<Conversion>,
    /// In the order of their characters, equal ones in the order of the table.
    patterns: Vec<ConversionPattern>,
}

impl Model for Conversions {
    ghost use Rattle.std.specs.Prelude.{List};
    ghost use Rattle.spell_types.specs.declared.conversions.Conversion.{Conversion};
    ghost use Rattle.conversions.specs.Patterns.{ArePatternsOf};

    ghost Value = { List Conversion };

    ghost view = { λ inside. inside.table };

    ghost invariant = { λ inside. ArePatternsOf inside.table inside.patterns.items };
}

impl Conversions {
    /// The table of these rows, of which a copy is kept.
    pub fn new(alloc: Global, table: &[Conversion]) -> Result<Conversions, NoMemory>
        ensures { IfOk result (λ made. made ≡ table.now) }
    {
        let mut kept = Items::new(alloc);
        kept.extend_from_slice(alloc, table)?;
        Ok(Conversions {
            table: kept,
            patterns: patterns_of(alloc, table)?,
        })
    }

    /// The word converted, as `convert` has it; none where no pattern stands in the word, which
    /// then stays as it is.
    pub fn convert(&self, alloc: Global, word: &[char]) -> Result<Option<Chars>, NoMemory>
        ensures { IfOk result (λ made. or_word made word.now ≡ converted self.now word.now) }
    {
        let table = self.table.as_slice();
        let patterns = self.patterns.as_slice();
        match first_fit(table, patterns, word) {
            None => Ok(None),
            Some(start) => Ok(Some(convert_from(alloc, table, patterns, word, start)?)),
        }
    }
}

/// The patterns of a table, in order.
fn patterns_of(alloc: Global, table: &[Conversion]) -> Result<Vec<ConversionPattern>, NoMemory>
    ensures { IfOk result (λ patterns. ArePatternsOf table.now patterns.items) }
{
    let mut patterns = Vec::with_capacity(alloc, table.len())?;
    for (place, row) in table.iter().enumerate() {
        let pattern = row.from.as_slice().to_vec(alloc)?;
        patterns.push((pattern, place))?;
    }
    patterns.sort_unstable();
    Ok(patterns)
}

/// The first place of the word at which a pattern stands.
fn first_fit(table: &[Conversion], patterns: &[ConversionPattern], word: &[char]) -> Option<usize>
    requires { ArePatternsOf table.now patterns.now }
    ensures { MatchOption result (converted table.now word.now ≡ word.now)
        (λ start. (start ≤ length word.now)
        × (converted table.now word.now ≡ take start word.now
        ++ converted table.now (drop start word.now))) }
{
    for start in 0..word.len() {
        if best_fit(table, patterns, &word[start..]).is_some() {
            return Some(start);
        }
    }
    None
}

/// The word converted, before whose start no pattern stands.
fn convert_from(
    alloc: Global,
    table: &[Conversion],
    patterns: &[ConversionPattern],
    word: &[char],
    start: usize,
) -> Result<Chars, NoMemory>
    requires patterns { ArePatternsOf table.now patterns.now }
    requires start { start ≤ length word.now }
    ensures { IfOk result
        (λ made. made ≡ take start word.now ++ converted table.now (drop start word.now)) }
{
    let mut made = Items::from_vec(word[..start].to_vec(alloc)?);
    let mut place = start;
    while place < word.len() {
        place += convert_front(table, patterns, &word[place..], &mut made)?;
    }
    Ok(made)
}

/// Writes what stands at the front of the text, converted, and says how many characters that was.
fn convert_front(
    table: &[Conversion],
    patterns: &[ConversionPattern],
    text: &[char],
    made: &mut Chars,
) -> Result<usize, NoMemory>
    requires patterns { ArePatternsOf table.now patterns.now }
    requires some { 0 < length text.now }
    ensures moves { IfOk result (λ read. 0 < read) }
    ensures within { IfOk result (λ read. read ≤ length text.now) }
    ensures made { IfOk result (λ read. made.new ++ converted table.now (drop read text.now)
        ≡ made.old ++ converted table.now text.now) }
{
    match best_fit(table, patterns, text) {
        Some(row) => {
            for c in row.to.as_slice() {
                made.push(*c)?;
            }
            Ok(row.from.len())
        }
        None => {
            made.push(text[0])?;
            Ok(1)
        }
    }
}

/// The row whose pattern stands at the front of the text: the longest, the first of equally long
/// ones.
fn best_fit<'a>(
    table: &'a [Conversion],
    patterns: &[ConversionPattern],
    text: &[char],
) -> Option<&'a Conversion>
    requires { ArePatternsOf table.now patterns.now }
    ensures { option_copied result ≡ best_fit table.now text.now }
{
    match best_pattern(patterns, text) {
        None => None,
        Some(pattern) => table.get(pattern.1),
    }
}

/// The longest pattern at the front of the text, the first of equal ones.
fn best_pattern<'a>(
    patterns: &'a [ConversionPattern],
    text: &[char],
) -> Option<&'a ConversionPattern>
    requires { ArePatternsSorted patterns.now }
    ensures { BestUpTo patterns.now text.now (length text.now) (option_copied result) }
{
    let mut alike = patterns;
    let mut best = None;
    for (depth, c) in text.iter().enumerate() {
        alike = going_on(alike, depth, *c);
        if alike.is_empty() {
            return best;
        }
        if let Some(pattern) = ending(alike, depth + 1).first() {
            best = Some(pattern);
        }
    }
    best
}
