//! Affixes peeled off words, by groups of rules.

ghost use Rattle.std.specs.Prelude.{◌≡◌, ◌++◌, ◌≤◌, ℕ, List, true, length, map, OnOk, IfOk};
ghost use Rattle.spell_types.specs.declared.rules.Rule.{Rule};
ghost use Rattle.affix_tables.specs.Groups.{AreGroups};
ghost use Rattle.affix_tables.specs.Tables.{IsTableOf};
ghost use Rattle.entry_table.specs.Hashes.{IsHashed};
ghost use Rattle.affix_strip.specs.Peeling.{IsCutAtSide, IsOn, has_at, join, peeled_by, ArePeeled};

use affix_tables::{AffixTables, Groups, group_places, group_strip};
use entry_table::Hashed;
use spell_types::Side;
use spell_types::lists::NoMemory;
use std::alloc::Global;
use std::marker::Model;

/// No more groups of rules may have made most words, so that their list is made at once, where there
/// is one.
const MOST: usize = 12;

/// A word without the affix of a group of rules, which all add and strip off the same. Whether one
/// of them may be undone is not looked at. What is left is what is kept of the word and what the
/// rules strip off, and is not joined before it must be.
#[derive(Drop)]
pub(crate) struct Peeled<'a> {
    front: Hashed<'a>,
    back: &'a [char],
    places: &'a [u32],
}

impl<'a> Model for Peeled<'a> {
    ghost use Rattle.std.specs.Prelude.{ℕ, List, ◌++◌};
    ghost use Rattle.entry_table.specs.Hashes.{IsHashed};

    ghost Value = { List ℕ × List ℕ };

    ghost view = { λ inside. (inside.front.text.now ++ inside.back.now, inside.places.now) };

    ghost invariant = { λ inside. IsHashed inside.front };
}

impl<'a> Peeled<'a> {
    /// What a group of rules leaves, of which so much is kept.
    fn new(side: Side, kept: Hashed<'a>, strip: &'a [char], places: &'a [u32]) -> Peeled<'a>
        requires { IsHashed kept }
        ensures { result ≡ (join side kept.entry.text.now strip.now, places.now) }
    {
        let (front, back) = match side {
            Side::Prefix => (Hashed::new(strip), kept.text),
            Side::Suffix => (kept, strip),
        };
        Peeled {
            front,
            back,
            places,
        }
    }

    /// What the rules may have been attached to, in two parts.
    pub(crate) fn parts(&self) -> (Hashed<'a>, &'a [char])
        ensures parts { result.0.text.now ++ result.1.now ≡ self.now.0 }
        ensures hash { IsHashed result.0 }
    {
        (self.front, self.back)
    }

    /// The same as one text. It is put together in `joined` where neither part is empty.
    pub(crate) fn text<'b>(&self, joined: &'b mut Vec<char>) -> Result<&'b [char], NoMemory>
    where
        'a: 'b,
        ensures { IfOk result (λ text. text.now ≡ self.now.0) }
    {
        let front = self.front.text;
        if front.is_empty() {
            return Ok(self.back);
        }
        if self.back.is_empty() {
            return Ok(front);
        }
        joined.clear();
        joined.reserve(front.len() + self.back.len())?;
        joined.extend_from_slice(front)?;
        joined.extend_from_slice(self.back)?;
        Ok(joined.as_slice())
    }

    /// The places of the rules.
    pub(crate) fn places(&self) -> &'a [u32]
        ensures { result.now ≡ self.now.1 }
    {
        self.places
    }
}

/// The word without each affix that rules of the side add to words, where it has it, one for each
/// group of rules.
pub(crate) fn peel<'a>(
    alloc: Global,
    tables: &'a AffixTables,
    side: Side,
    word: &'a [char],
) -> Result<Vec<Peeled<'a>>, NoMemory>
    ensures { (rules : List Rule) → IsTableOf rules tables.now
        → IfOk result (λ found. ArePeeled rules side word.now found.items) }
{
    let mut found = Vec::new(alloc);
    for count in 0..reach(tables, side, word) + 1 {
        let (added, kept) = cut(side, word, count);
        add_groups(side, &groups(tables, side, added), kept, &mut found)?;
    }
    Ok(found)
}

/// No rule of the side whose added text stands there in the word adds more characters than this.
fn reach(tables: &AffixTables, side: Side, word: &[char]) -> usize
    ensures within { result ≤ length word.now }
    ensures rules { (rules : List Rule) → IsTableOf rules tables.now → (place : ℕ) (rule : Rule)
        → IsOn rules side place rule → has_at side word.now rule.add ≡ true
        → length rule.add ≤ result }
{
    match side {
        Side::Prefix => tables.prefix_reach(word),
        Side::Suffix => tables.suffix_reach(word),
    }
}

/// The groups of the rules of the side that add a text.
fn groups<'a>(tables: &'a AffixTables, side: Side, added: &[char]) -> Groups<'a>
    ensures { (rules : List Rule) → IsTableOf rules tables.now
        → AreGroups rules side added.now result }
{
    match side {
        Side::Prefix => tables.prefix_groups(added),
        Side::Suffix => tables.suffix_groups(added),
    }
}

/// So many characters at the side's end of a word, and the others.
fn cut<'a>(side: Side, word: &'a [char], count: usize) -> (&'a [char], &'a [char])
    requires { count ≤ length word.now }
    ensures { IsCutAtSide side word.now count result.0.now result.1.now }
{
    match side {
        Side::Prefix => (&word[..count], &word[count..]),
        Side::Suffix => {
            let place = word.len() - count;
            (&word[place..], &word[..place])
        }
    }
}

/// Adds what each of the groups leaves of a word, of which so much is kept.
fn add_groups<'a>(
    side: Side,
    groups: &Groups<'a>,
    kept: &'a [char],
    found: &mut Vec<Peeled<'a>>,
) -> Result<(), NoMemory>
    ensures { OnOk result
        (found.new.items ≡ found.old.items ++ map (peeled_by side kept.now) groups.now) }
{
    if groups.is_empty() {
        return Ok(());
    }
    make_room(found)?;
    push_groups(side, groups, kept, found)
}

/// Makes room in an empty list for what most words need.
fn make_room(found: &mut Vec<Peeled<'_>>) -> Result<(), NoMemory>
    ensures { OnOk result (found.new.items ≡ found.old.items) }
{
    if found.is_empty() {
        found.reserve(MOST)?;
    }
    Ok(())
}

/// Adds what each of the groups leaves.
fn push_groups<'a>(
    side: Side,
    groups: &Groups<'a>,
    kept: &'a [char],
    found: &mut Vec<Peeled<'a>>,
) -> Result<(), NoMemory>
    ensures { OnOk result
        (found.new.items ≡ found.old.items ++ map (peeled_by side kept.now) groups.now) }
{
    let hashed = Hashed::new(kept);
    for number in 0..groups.len() {
        let strip = group_strip(groups, number);
        found.push(Peeled::new(side, hashed, strip, group_places(groups, number)))?;
    }
    Ok(())
}
