//! Which words may be forms of forbidden words. Suffixes change no more than the end of a word, so
//! that its front tells most words that are none, without a look at rules or entries.

ghost use Rattle.std.specs.Prelude.{◌≡◌, ◌≤◌, false, length, IfOk, OnOk, IfSome};
ghost use Rattle.affix_strip.specs.Heads.{AreCutWithin, AreHeadsOfEntries, AreStripsWithin};
ghost use Rattle.affix_strip.specs.Heads.{IsNotedHead};
ghost use Rattle.affix_strip.specs.Heads.{IsHeaded, IsUnheaded, KeepsHeads, MayHeads, NoneHeads};
ghost use Rattle.affix_strip.specs.Heads.{cut_of};
ghost use Rattle.affix_strip.specs.Tables.{IsBarring};

use crate::barring::Barring;
use crate::edges::{Edge, Those};
use crate::rule_flags::{carry_few, flags_of_classes};
use entry_table::{START, fold};
use key_filter::KeyFilter;
use spell_types::lists::NoMemory;
use spell_types::{
    Entries, EntryRef, Flag, FlagSet, Lexicon, Rule, Side, chars_of, has, has_flag_of,
};
use std::alloc::Global;

/// How many times as many keys the filter has room for as there are heads: each front of a word is
/// looked for in it.
const ROOM: usize = 16;

/// What the forms of forbidden words begin with.
#[derive(Drop)]
pub(crate) struct Heads {
    /// The hashes of what all suffixes leave of forbidden entries' words, at their fronts. There is
    /// no filter if the numbers do not fit.
    heads: Option<KeyFilter>,
    /// What prefixes add.
    prefixes: Edge,
}

impl Heads {
    /// What the forms of a dictionary's forbidden words begin with.
    pub(crate) fn new(alloc: Global, lexicon: &Lexicon, barring: Barring) -> Result<Heads, NoMemory>
        requires { IsBarring lexicon.now barring }
        ensures { IfOk result (IsHeaded lexicon.now) }
    {
        let heads = filter_of(alloc, lexicon, barring)?;
        let prefixes = Edge::new(alloc, Side::Prefix, Those::All, &lexicon.affixes.rules)?;
        Ok(Heads { heads, prefixes })
    }

    /// Whether a word may be a form of a forbidden word.
    pub(crate) fn may_begin(&self, word: &[char]) -> bool
        ensures { result ≡ false → IsUnheaded self.now word.now }
    {
        match &self.heads {
            None => true,
            Some(heads) => has_head(heads, word) || self.prefixes.may_begin(word),
        }
    }
}

/// The hashes of the heads of a dictionary's forbidden words, if the numbers fit.
fn filter_of(
    alloc: Global,
    lexicon: &Lexicon,
    barring: Barring,
) -> Result<Option<KeyFilter>, NoMemory>
    requires { IsBarring lexicon.now barring }
    ensures { IfOk result (MayHeads lexicon.now) }
{
    let rules = &lexicon.affixes.rules;
    let classes = flags_of_classes(alloc, rules)?;
    let longest = longest_strip(rules);
    match longest_cut(rules, &classes, longest) {
        None => Ok(None),
        Some(most) => {
            let heads = heads_of(alloc, lexicon, barring, most)?;
            Ok(Some(heads))
        }
    }
}

/// Whether a front of a word may be one of the heads.
fn has_head(heads: &KeyFilter, word: &[char]) -> bool
    ensures { result ≡ false → NoneHeads heads.now word.now (length word.now) }
{
    let mut key = START;
    if heads.may_have(key) {
        return true;
    }
    for count in 0..word.len() {
        key = fold(key, &word[count..count + 1]);
        if heads.may_have(key) {
            return true;
        }
    }
    false
}

/// The hashes of the heads of the forbidden entries, if suffixes take off so many characters at
/// most. Where no entry is forbidden there are none.
fn heads_of(
    alloc: Global,
    lexicon: &Lexicon,
    barring: Barring,
    most: usize,
) -> Result<KeyFilter, NoMemory>
    requires { IsBarring lexicon.now barring }
    ensures { IfOk result
        (AreHeadsOfEntries lexicon.now.entries lexicon.now.affixes.signs.forbidden most) }
{
    if let Barring::Nowhere = barring {
        return KeyFilter::new(alloc, 0);
    }
    let entries = &lexicon.entries;
    let forbidden = lexicon.affixes.signs.forbidden;
    let count = count_of(entries, forbidden);
    let mut heads = KeyFilter::new(alloc, count.saturating_mul(ROOM))?;
    for place in 0..entries.len() {
        add_head(alloc, &entries.at(place), forbidden, most, &mut heads)?;
    }
    Ok(heads)
}

/// How many entries are forbidden.
fn count_of(entries: &Entries, forbidden: Option<Flag>) -> usize {
    let mut count = 0usize;
    for place in 0..entries.len() {
        if has(entries.at(place).flags(), forbidden) {
            count = count.saturating_add(1);
        }
    }
    count
}

/// Adds the hash of an entry's head, if the entry is forbidden.
fn add_head(
    alloc: Global,
    entry: &EntryRef<'_>,
    forbidden: Option<Flag>,
    most: usize,
    heads: &mut KeyFilter,
) -> Result<(), NoMemory>
    ensures there { OnOk result (IsNotedHead forbidden most heads.new entry.now) }
    ensures kept { KeepsHeads heads.old heads.new }
{
    if has(entry.flags(), forbidden) {
        let word = chars_of(alloc, entry.word())?;
        heads.insert(fold(START, &word[..word.len().saturating_sub(most)]));
    }
    Ok(())
}

/// How many characters suffixes take off the end of a word at most, if the number fits: one of
/// these rules, and one more behind it where it carries the flag of a class. Where all rules
/// together carry very many flags, one more is reckoned behind each of them.
fn longest_cut(rules: &[Rule], classes: &FlagSet, longest: usize) -> Option<usize>
    ensures { IfSome result (AreCutWithin rules.now classes.now longest) }
{
    let few = carry_few(rules);
    let mut found = 0;
    for rule in rules {
        found = cut_of(rule, classes, longest, few)?.max(found);
    }
    Some(found)
}

/// How many characters of a word a suffix takes off at most, and another one behind it, if the
/// number fits. Where all rules together do not carry few flags, another one is reckoned behind
/// each, and its flags are not looked at.
fn cut_of(rule: &Rule, classes: &FlagSet, longest: usize, few: bool) -> Option<usize>
    ensures { IfSome result (λ cut. cut_of classes.now longest rule.now ≤ cut) }
{
    let behind = if !few || has_flag_of(&rule.carried, classes) {
        longest.saturating_sub(rule.add.len())
    } else {
        0
    };
    rule.strip.len().checked_add(behind)
}

/// How many characters a rule strips off at most.
fn longest_strip(rules: &[Rule]) -> usize
    ensures { AreStripsWithin rules.now result }
{
    let mut found = 0;
    for rule in rules {
        found = found.max(rule.strip.len());
    }
    found
}
