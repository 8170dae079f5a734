//! Where the texts of patterns stand in a word.

ghost use Rattle.std.specs.Prelude.{◌≡◌, ◌++◌, ◌≤◌, ◌<◌, ◌+◌, ℕ, true, false, length, map, take};
ghost use Rattle.std.specs.Prelude.{drop, Contains, OnOk, IfOk};
ghost use Rattle.std.specs.List.{All};
ghost use Rattle.text_order.specs.TextOrder.{AreInOrder};
ghost use Rattle.break_points.specs.declared.occurrences.Occurrence.{Occurrence};
ghost use Rattle.break_points.specs.Patterns.{anchored_of};
ghost use Rattle.break_points.specs.Occurrences.{occurrence_of, IsOccurrence, AreOccurrences};
ghost use Rattle.break_points.specs.Occurrences.{way_with, way_by};

use crate::breaks::BreakPattern;
use crate::table::Stretch;
use crate::ways::Way;
use spell_types::lists::NoMemory;
use std::alloc::Global;
use text_order::{ending, going_on};

/// The text of a pattern in a word.
#[derive(Clone, Copy)]
pub struct Occurrence {
    /// Where it stands, from 0.
    pub place: usize,
    /// How many characters it has.
    pub len: usize,
    /// Whether it breaks pieces at whose front it stands.
    pub front: bool,
    /// Whether it breaks pieces at whose back it stands.
    pub back: bool,
}

impl Occurrence {
    /// The way in which it breaks a piece of its word, if it takes something off and leaves
    /// something.
    pub(crate) fn way(self, piece: Stretch) -> Option<Way>
        requires { piece.from ≤ piece.to }
        ensures { result ≡ way_by self piece }
    {
        match (self.front, self.back) {
            (false, false) => self.between(piece),
            (true, false) => self.behind(piece),
            (false, true) => self.before(piece),
            (true, true) => None,
        }
    }

    fn between(self, piece: Stretch) -> Option<Way>
        ensures { result ≡ way_with false false piece.from piece.to self.place self.len }
    {
        if piece.from < self.place && self.place < piece.to && self.len < piece.to - self.place {
            let end = self.place - piece.from;
            return Some(Way::Between(end, end + self.len));
        }
        None
    }

    fn behind(self, piece: Stretch) -> Option<Way>
        requires { piece.from ≤ piece.to }
        ensures { result ≡ way_with true false piece.from piece.to self.place self.len }
    {
        if self.place == piece.from && 0 < self.len && self.len < piece.to - piece.from {
            return Some(Way::Behind(self.len));
        }
        None
    }

    fn before(self, piece: Stretch) -> Option<Way>
        ensures { result ≡ way_with false true piece.from piece.to self.place self.len }
    {
        if piece.from < self.place && self.place < piece.to && self.len == piece.to - self.place {
            return Some(Way::Before(self.place - piece.from));
        }
        None
    }
}

/// The texts of patterns that stand in the word, place by place. The patterns are in order.
pub(crate) fn occurrences_in(
    alloc: Global,
    patterns: &[BreakPattern],
    word: &[char],
) -> Result<Vec<Occurrence>, NoMemory>
    requires { AreInOrder patterns.now }
    ensures { IfOk result
        (λ occurrences. AreOccurrences (map anchored_of patterns.now) word.now occurrences.items) }
{
    let mut occurrences = Vec::new(alloc);
    for place in 0..word.len() {
        add_occurrences(patterns, word, place, &mut occurrences)?;
    }
    Ok(occurrences)
}

/// Adds the texts of patterns that stand at a place. No more characters are looked at than some
/// pattern has there, and one.
fn add_occurrences(
    patterns: &[BreakPattern],
    word: &[char],
    place: usize,
    occurrences: &mut Vec<Occurrence>,
) -> Result<(), NoMemory>
    requires order { AreInOrder patterns.now }
    requires place { place < length word.now }
    ensures kept { OnOk result
        ((occurrence : Occurrence) → Contains occurrences.old.items occurrence
        → Contains occurrences.new.items occurrence) }
    ensures sound { OnOk result
        (All (IsOccurrence (map anchored_of patterns.now) word.now) occurrences.old.items
        → All (IsOccurrence (map anchored_of patterns.now) word.now) occurrences.new.items) }
    ensures whole { OnOk result ((occurrence : Occurrence) → occurrence.place ≡ place
        → IsOccurrence (map anchored_of patterns.now) word.now occurrence
        → Contains occurrences.new.items occurrence) }
{
    let text = &word[place..];
    let mut alike = patterns;
    for (len, c) in text.iter().enumerate() {
        add_each(ending(alike, len), place, len, occurrences)?;
        alike = going_on(alike, len, *c);
        if alike.is_empty() {
            return Ok(());
        }
    }
    add_each(ending(alike, text.len()), place, text.len(), occurrences)
}

/// Adds the text of each of these patterns, which have so many characters and stand at a place.
fn add_each(
    patterns: &[BreakPattern],
    place: usize,
    len: usize,
    occurrences: &mut Vec<Occurrence>,
) -> Result<(), NoMemory>
    ensures { OnOk result
        (occurrences.new.items ≡ occurrences.old.items
        ++ map (occurrence_of place len) patterns.now) }
{
    for pattern in patterns {
        let (front, back) = pattern.1;
        occurrences.push(Occurrence {
            place,
            len,
            front,
            back,
        })?;
    }
    Ok(())
}
