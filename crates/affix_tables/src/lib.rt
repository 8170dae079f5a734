//! Affix rules by the texts that they add: which of them may have made a word.
#![tactic(auto)]

ghost use Rattle.std.specs.Prelude.{◌≡◌, ◌↔◌, ◌+◌, ◌^◌, ◌<◌, ◌≤◌, ◌++◌, [], ◌∷◌, ℕ, List, Some};
ghost use Rattle.std.specs.Prelude.{true, false, length, max, min, nat_eq, slice_get, Contains};
ghost use Rattle.std.specs.Prelude.{OnOk, IfOk, if◌then◌else◌};
ghost use Rattle.std.specs.Cmp.Lexicographic.{pointwise};
ghost use Rattle.spell_types.specs.Derivations.{is_same_side};
ghost use Rattle.std.specs.List.{starts_with, ends_with};
ghost use Rattle.std.specs.List.Sorted.{IsStrictlyIncreasing, IsPermutation};
ghost use Rattle.spell_types.specs.declared.rules.Rule.{Rule};
ghost use Rattle.spell_types.specs.declared.rules.Side.TheVariants.{Prefix, Suffix};
ghost use Rattle.affix_tables.specs.Places.{suffix_places, prefix_places};
ghost use Rattle.affix_tables.specs.Groups.{strip_in, places_in, AreApart, AreGroups};
ghost use Rattle.key_filter.specs.Filter.{may_have};
ghost use Rattle.affix_tables.specs.Ends.{char_at, key_with, key_at, HasEnds, HasText, KeepsKeys};
ghost use Rattle.affix_tables.specs.Tables.{places_at, groups_at, all_places, Puts, ending_places};
ghost use Rattle.affix_tables.specs.Tables.{front_places, IsTable, IsTableOf};

use indexmap::IndexMap;
use indexmap::map::Slice;
use key_filter::KeyFilter;
use spell_types::lists::NoMemory;
use spell_types::{Rule, Side};
use std::alloc::Global;

/// The key of no characters.
const START: u64 = 1;

/// What a key is multiplied with before a character is added. It is odd, so that no bit of what
/// stands before is lost.
const FACTOR: u64 = 0x9E37_79B9_7F4A_7C15;

/// The affix rules of a dictionary, by the texts that they add. The rules themselves are not kept:
/// an answer names them by their places in the list that the tables were made of.
#[derive(Drop)]
pub struct AffixTables {
    suffixes: SideTable,
    prefixes: SideTable,
}

/// The groups of rules that add one text: each text that one of them strips off, and the places of
/// those that strip it off, rising.
pub type Groups<'a> = Slice<'a, Vec<char>, Vec<u32>>;

/// Groups as they are gathered.
type GroupMap = IndexMap<Vec<char>, Vec<u32>>;

/// The rules of one side.
#[derive(Drop)]
struct SideTable {
    /// At each text that a rule adds, the rules that add it, by the texts that they strip off.
    by_text: IndexMap<Vec<char>, GroupMap>,
    /// No rule adds more characters.
    longest: usize,
    /// The keys of all ends of the texts that rules add, seen from the side: where a word's end has
    /// none of them, no rule goes on.
    ends: KeyFilter,
    /// The keys of the texts themselves: one that has none of them is not looked up.
    texts: KeyFilter,
}

impl AffixTables {
    /// The tables of these rules. A rule is named by its place in the list, from 0. It fails only
    /// where memory is wanting.
    pub fn new(alloc: Global, rules: &[Rule]) -> Result<AffixTables, NoMemory>
        requires { length rules.now < 2 ^ 32 }
        ensures { IfOk result (λ made. IsTableOf rules.now made) }
    {
        let suffixes = table_of(alloc, Side::Suffix, rules)?;
        let prefixes = table_of(alloc, Side::Prefix, rules)?;
        Ok(AffixTables { suffixes, prefixes })
    }

    /// The places, from 0, of the suffix rules whose added text ends the word, rising. A rule that
    /// adds nothing is always among them, and so is one that adds the whole word; whether a rule
    /// may be undone is not looked at. An ending with more characters than any suffix rule adds is
    /// not looked up. It fails only where memory is wanting.
    pub fn suffixes_of(&self, alloc: Global, word: &[char]) -> Result<Vec<u32>, NoMemory>
        ensures { (rules : List Rule) → IsTableOf rules self.now
            → IfOk result (λ places. places.items ≡ suffix_places rules word.now) }
    {
        let mut endings = places_at_endings(alloc, &self.suffixes, word)?;
        endings.sort_unstable();
        Ok(endings)
    }

    /// The places, from 0, of the prefix rules whose added text begins the word, rising. A rule
    /// that adds nothing is always among them, and so is one that adds the whole word; whether a
    /// rule may be undone is not looked at. A front with more characters than any prefix rule adds
    /// is not looked up. It fails only where memory is wanting.
    pub fn prefixes_of(&self, alloc: Global, word: &[char]) -> Result<Vec<u32>, NoMemory>
        ensures { (rules : List Rule) → IsTableOf rules self.now
            → IfOk result (λ places. places.items ≡ prefix_places rules word.now) }
    {
        let mut fronts = places_at_fronts(alloc, &self.prefixes, word)?;
        fronts.sort_unstable();
        Ok(fronts)
    }

    /// The groups of the suffix rules that add this text. There are none where no rule adds it.
    pub fn suffix_groups(&self, added: &[char]) -> Groups<'_>
        ensures { (rules : List Rule) → IsTableOf rules self.now
            → AreGroups rules Suffix added.now result }
    {
        groups_adding(Side::Suffix, &self.suffixes, added)
    }

    /// The groups of the prefix rules that add this text. There are none where no rule adds it.
    pub fn prefix_groups(&self, added: &[char]) -> Groups<'_>
        ensures { (rules : List Rule) → IsTableOf rules self.now
            → AreGroups rules Prefix added.now result }
    {
        groups_adding(Side::Prefix, &self.prefixes, added)
    }

    /// No suffix rule whose added text ends the word adds more characters than this.
    pub fn suffix_reach(&self, word: &[char]) -> usize
        ensures within { result ≤ length word.now }
        ensures rules { (rules : List Rule) → IsTableOf rules self.now → (place : ℕ) (rule : Rule)
            → slice_get rules place ≡ Some rule → rule.side ≡ Suffix
            → ends_with nat_eq word.now rule.add ≡ true
            → length rule.add ≤ result }
    {
        reach(Side::Suffix, &self.suffixes.ends, word)
    }

    /// No prefix rule whose added text begins the word adds more characters than this.
    pub fn prefix_reach(&self, word: &[char]) -> usize
        ensures within { result ≤ length word.now }
        ensures rules { (rules : List Rule) → IsTableOf rules self.now → (place : ℕ) (rule : Rule)
            → slice_get rules place ≡ Some rule → rule.side ≡ Prefix
            → starts_with nat_eq word.now rule.add ≡ true
            → length rule.add ≤ result }
    {
        reach(Side::Prefix, &self.prefixes.ends, word)
    }
}

/// What the look-ups give. A place is among them if a rule of the side stands there whose added
/// text ends, or begins, the word, and otherwise not; and each place is below the next.
pub fn places_are()
    ensures suffixes { (rules : List Rule) (word : List ℕ) (place : ℕ) →
        Contains (suffix_places rules word) place
        ↔ ((rule : Rule) × (slice_get rules place ≡ Some rule) × (rule.side ≡ Suffix)
        × (ends_with nat_eq word rule.add ≡ true)) }
    ensures prefixes { (rules : List Rule) (word : List ℕ) (place : ℕ) →
        Contains (prefix_places rules word) place
        ↔ ((rule : Rule) × (slice_get rules place ≡ Some rule) × (rule.side ≡ Prefix)
        × (starts_with nat_eq word rule.add ≡ true)) }
    ensures suffixes_rise { (rules : List Rule) (word : List ℕ)
        → IsStrictlyIncreasing (suffix_places rules word) }
    ensures prefixes_rise { (rules : List Rule) (word : List ℕ)
        → IsStrictlyIncreasing (prefix_places rules word) }
{}

/// The table of the rules of a side.
fn table_of(alloc: Global, side: Side, rules: &[Rule]) -> Result<SideTable, NoMemory>
    requires { length rules.now < 2 ^ 32 }
    ensures { IfOk result (λ made. IsTable rules.now side made) }
{
    let mut table = SideTable {
        by_text: IndexMap::new(alloc),
        longest: 0,
        ends: KeyFilter::new(alloc, rules.len())?,
        texts: KeyFilter::new(alloc, rules.len())?,
    };
    for (place, rule) in rules.iter().enumerate() {
        add_rule(alloc, side, rule, place as u32, &mut table)?;
    }
    Ok(table)
}

/// Adds the rule with a place, which is the one behind the rules so far, if it is of the side.
fn add_rule(
    alloc: Global,
    side: Side,
    rule: &Rule,
    place: u32,
    table: &mut SideTable,
) -> Result<(), NoMemory>
    ensures { OnOk result ((rules : List Rule) → length rules ≡ place → IsTable rules side table.old
        → IsTable (rules ++ rule.now ∷ []) side table.new) }
{
    if !is_on(side, rule) {
        return Ok(());
    }
    put(
        alloc,
        side,
        table,
        rule.add.as_slice(),
        rule.strip.as_slice(),
        place,
    )?;
    Ok(())
}

/// Whether a rule is of a side.
fn is_on(side: Side, rule: &Rule) -> bool
    ensures { result ≡ is_same_side side rule.now.side }
{
    match (side, rule.side) {
        (Side::Prefix, Side::Prefix) => true,
        (Side::Suffix, Side::Suffix) => true,
        _ => false,
    }
}

/// Adds a place at the end of its group, which is that of the rules that add and strip off these
/// texts.
fn put(
    alloc: Global,
    side: Side,
    table: &mut SideTable,
    added: &[char],
    stripped: &[char],
    place: u32,
) -> Result<(), NoMemory>
    ensures place { OnOk result
        (Puts table.old.by_text.entries table.new.by_text.entries added.now stripped.now place) }
    ensures longest { OnOk result (table.new.longest ≡ max table.old.longest (length added.now)) }
    ensures ends { OnOk result
        (HasEnds side added.now table.new.ends × KeepsKeys table.old.ends table.new.ends) }
    ensures texts { OnOk result
        (HasText side added.now table.new.texts × KeepsKeys table.old.texts table.new.texts) }
{
    put_in_group(alloc, &mut table.by_text, added, stripped, place)?;
    table.longest = table.longest.max(added.len());
    add_ends(side, added, &mut table.ends);
    table.texts.insert(key_of(side, added));
    Ok(())
}

/// Adds the keys of all ends of a text, seen from the side.
fn add_ends(side: Side, text: &[char], ends: &mut KeyFilter)
    ensures has { HasEnds side text.now ends.new }
    ensures keeps { KeepsKeys ends.old ends.new }
{
    let mut key = START;
    for number in 0..text.len() {
        key = key_with(key, char_at(side, text, number));
        ends.insert(key);
    }
}

/// The key of a text, seen from the side.
fn key_of(side: Side, text: &[char]) -> u64
    ensures { result ≡ key_at side text.now (length text.now) }
{
    let mut key = START;
    for number in 0..text.len() {
        key = key_with(key, char_at(side, text, number));
    }
    key
}

/// How many characters at the side's end of a word have a key among these, one after another.
fn reach(side: Side, ends: &KeyFilter, word: &[char]) -> usize
    ensures within { result ≤ length word.now }
    ensures over { result < length word.now → may_have ends.now (key_at side word.now (result + 1))
        ≡ false }
{
    let mut key = START;
    for number in 0..word.len() {
        key = key_with(key, char_at(side, word, number));
        if !ends.may_have(key) {
            return number;
        }
    }
    word.len()
}

/// The character with a number, from 0, seen from the side's end of a text.
fn char_at(side: Side, text: &[char], number: usize) -> char
    requires { number < length text.now }
    ensures { result ≡ char_at side text.now number }
{
    match side {
        Side::Prefix => text[number],
        Side::Suffix => text[text.len() - (number + 1)],
    }
}

/// A key with one character more.
fn key_with(key: u64, c: char) -> u64
    ensures { result ≡ key_with key c }
{
    key.wrapping_mul(FACTOR).wrapping_add(c as u64)
}

/// Adds a place at the end of its group, which may be there or not.
fn put_in_group(
    alloc: Global,
    by_text: &mut IndexMap<Vec<char>, GroupMap>,
    added: &[char],
    stripped: &[char],
    place: u32,
) -> Result<(), NoMemory>
    ensures { OnOk result
        (Puts by_text.old.entries by_text.new.entries added.now stripped.now place) }
{
    match by_text.get_mut(added) {
        Some(groups) => {
            put_at(alloc, groups, stripped, place)?;
            Ok(())
        }
        None => {
            let mut groups = IndexMap::new(alloc);
            put_at(alloc, &mut groups, stripped, place)?;
            // Most texts have one group, and a map takes room for several.
            groups.shrink_to_fit();
            by_text.insert(added.to_vec(alloc)?, groups)?;
            Ok(())
        }
    }
}

/// Adds a place at the end of those that a table has at a text, which may be there or not.
fn put_at(
    alloc: Global,
    by_text: &mut IndexMap<Vec<char>, Vec<u32>>,
    text: &[char],
    place: u32,
) -> Result<(), NoMemory>
    ensures at_text { OnOk result ((other : List ℕ) → places_at by_text.new.entries other
        ≡ places_at by_text.old.entries other
        ++ (if pointwise nat_eq other text.now then place ∷ [] else [])) }
    ensures all { OnOk result
        (IsPermutation (all_places by_text.new.entries)
        (all_places by_text.old.entries ++ place ∷ [])) }
{
    match by_text.get_mut(text) {
        Some(places) => {
            places.push(place)?;
            Ok(())
        }
        None => {
            let mut first = Vec::new(alloc);
            first.push(place)?;
            by_text.insert(text.to_vec(alloc)?, first)?;
            Ok(())
        }
    }
}

/// The places at the endings of a word that are no longer than a text of the table, by their
/// lengths.
fn places_at_endings(alloc: Global, table: &SideTable, word: &[char]) -> Result<Vec<u32>, NoMemory>
    ensures { IfOk result (λ found. found.items ≡ ending_places table.now word.now) }
{
    let mut found = Vec::new(alloc);
    for count in 0..table.longest.min(word.len()) + 1 {
        add_places(&table.by_text, &word[word.len() - count..], &mut found)?;
    }
    Ok(found)
}

/// The places at the fronts of a word that are no longer than a text of the table, by their
/// lengths.
fn places_at_fronts(alloc: Global, table: &SideTable, word: &[char]) -> Result<Vec<u32>, NoMemory>
    ensures { IfOk result (λ found. found.items ≡ front_places table.now word.now) }
{
    let mut found = Vec::new(alloc);
    for count in 0..table.longest.min(word.len()) + 1 {
        add_places(&table.by_text, &word[..count], &mut found)?;
    }
    Ok(found)
}

/// Adds the places of all groups of a text, group by group.
fn add_places(
    by_text: &IndexMap<Vec<char>, GroupMap>,
    text: &[char],
    found: &mut Vec<u32>,
) -> Result<(), NoMemory>
    ensures { OnOk result (found.new.items
        ≡ found.old.items ++ all_places (groups_at by_text.now.entries text.now)) }
{
    let groups = groups_of(by_text, text);
    for number in 0..groups.len() {
        found.extend_from_slice(group_places(&groups, number))?;
    }
    Ok(())
}

/// The groups of the rules of a table's side that add this text. Most texts that no rule adds are
/// not looked up.
fn groups_adding<'a>(side: Side, table: &'a SideTable, added: &[char]) -> Groups<'a>
    ensures { (rules : List Rule) → IsTable rules side table.now
        → AreGroups rules side added.now result }
{
    if !table.texts.may_have(key_of(side, added)) {
        return Slice::new();
    }
    groups_of(&table.by_text, added)
}

/// The groups of a text; none where it is not there.
fn groups_of<'a>(by_text: &'a IndexMap<Vec<char>, GroupMap>, text: &[char]) -> Groups<'a>
    ensures groups { result ≡ groups_at by_text.now.entries text.now }
    ensures apart { AreApart result }
{
    if let Some(groups) = by_text.get(text) {
        return groups.as_slice();
    }
    Slice::new()
}

/// What the rules of the group with a number, from 0, strip off; nothing where there is none.
pub fn group_strip<'a>(groups: &Groups<'a>, number: usize) -> &'a [char]
    ensures { result.now ≡ strip_in (slice_get groups.now number) }
{
    match groups.get_index(number) {
        None => &[],
        Some((strip, _)) => strip.as_slice(),
    }
}

/// The places of the group with a number, from 0; none where there is none.
pub fn group_places<'a>(groups: &Groups<'a>, number: usize) -> &'a [u32]
    ensures { result.now ≡ places_in (slice_get groups.now number) }
{
    match groups.get_index(number) {
        None => &[],
        Some((_, places)) => places.as_slice(),
    }
}
