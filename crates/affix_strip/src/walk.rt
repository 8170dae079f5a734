//! The walk from a word to its derivations: affixes that may have made it are undone, and what is
//! left is looked up.

ghost use Rattle.std.specs.Prelude.{◌≡◌, ◌++◌, ◌^◌, ◌<◌, [], ◌∷◌, ℕ, Bool, List, Some, None, true};
ghost use Rattle.std.specs.Prelude.{◌⊎◌, false, length, map, filter, is_some, Contains, IfOk};
ghost use Rattle.std.specs.Prelude.{◌≤◌};
ghost use Rattle.std.specs.List.{list_any};
ghost use Rattle.spell_types.specs.declared.derivations.Derivation.{Derivation};
ghost use Rattle.spell_types.specs.Derivations.{form_of};
ghost use Rattle.spell_types.specs.Licences.{is_licensed, is_forbidden};
ghost use Rattle.entry_table.specs.EntryTable.{AreEntriesOf, HasEntries};
ghost use Rattle.affix_strip.specs.Found.{derivations_of};
ghost use Rattle.entry_table.specs.Hashes.{IsHashed};
ghost use Rattle.affix_strip.specs.Inside.{ReachesEnds};
ghost use Rattle.affix_strip.specs.Parts.{stem_of, with_first, with_suffixes, Any, Outside, Passes};
ghost use Rattle.affix_strip.specs.Parts.{AtSome, Shows, From, FromAll, RuleFrom, Peels};
ghost use Rattle.affix_strip.specs.Peeling.{may_undo, may_undo_at, fits_on, ArePeeled};
ghost use Rattle.affix_strip.specs.Tables.{AreTablesOf, IsReady, may_be_outer, may_undo_outer};

use crate::at_once::tables_at_once;
use crate::barring::{Barring, barring_of};
use crate::heads::Heads;
use crate::inside::Inside;
use crate::lengths::longest_of;
use crate::peeling::{Peeled, peel};
use crate::rule_flags::second_suffixes;
use crate::visiting::{Forbidden, Question, Test, Visitor};
use affix_classes::{matches_back, matches_front, undoing_leads_back};
use affix_tables::AffixTables;
use entry_table::{EntryTable, Hashed, Places};
use spell_types::lists::NoMemory;
use spell_types::{Derivation, Lexicon, Place, Rule, Side, licensed, sets_have_their_flags};
use std::alloc::Global;
use std::thread::Threads;

/// A dictionary, and tables of its rules and entries.
#[derive(Drop)]
pub(crate) struct IndexedLexicon {
    pub(crate) lexicon: Lexicon,
    /// The entries by their words.
    by_word: EntryTable,
    tables: Tables,
}

/// What else is found out once of a dictionary.
#[derive(Drop)]
pub(crate) struct Tables {
    /// The rules by what they add.
    rules: AffixTables,
    /// Which rules may be second suffixes, at their places.
    seconds: Vec<bool>,
    /// Whether one of them may.
    has_seconds: bool,
    barring: Barring,
    /// What the forms of forbidden words begin with.
    heads: Heads,
    /// How long a form is at most.
    longest: Option<usize>,
    /// Where the parts of compounds may end that stand before other parts.
    inside: Inside,
}

impl Tables {
    /// The tables of a dictionary, beside that of its entries.
    pub(crate) fn new(alloc: Global, lexicon: &Lexicon) -> Result<Tables, NoMemory>
        requires { length lexicon.now.affixes.rules < 2 ^ 32 }
        ensures { IfOk result (λ made. (by_word : EntryTable)
            → HasEntries lexicon.now.entries by_word → AreTablesOf lexicon.now made by_word) }
    {
        let seconds = second_suffixes(alloc, &lexicon.affixes.rules)?;
        let has_seconds = one_may(seconds.as_slice());
        let barring = barring_of(alloc, lexicon)?;
        let rules = AffixTables::new(alloc, &lexicon.affixes.rules)?;
        Ok(Tables {
            rules,
            seconds,
            has_seconds,
            barring,
            heads: Heads::new(alloc, lexicon, barring)?,
            longest: longest_of(lexicon),
            inside: Inside::new(alloc, lexicon)?,
        })
    }
}

impl IndexedLexicon {
    /// The dictionary with its tables.
    pub(crate) fn new(alloc: Global, lexicon: Lexicon) -> Result<IndexedLexicon, NoMemory>
        requires rules { length lexicon.affixes.rules < 2 ^ 32 }
        requires entries { length lexicon.entries < 2 ^ 32 }
        ensures lexicon { IfOk result (λ made. made.lexicon ≡ lexicon) }
        ensures ready { IfOk result (λ made. IsReady made) }
    {
        let by_word = EntryTable::new(alloc, &lexicon.entries)?;
        let tables = Tables::new(alloc, &lexicon)?;
        Ok(IndexedLexicon {
            lexicon,
            by_word,
            tables,
        })
    }

    /// The same, with the tables made in three threads, while the caller waits.
    pub(crate) fn in_threads<R: Threads + Sync>(
        rt: &R,
        alloc: Global,
        lexicon: Lexicon,
    ) -> Result<IndexedLexicon, NoMemory>
        requires rules { length lexicon.affixes.rules < 2 ^ 32 }
        requires entries { length lexicon.entries < 2 ^ 32 }
        ensures lexicon { IfOk result (λ made. made.lexicon ≡ lexicon) }
        ensures ready { IfOk result (λ made. IsReady made) }
    {
        let (even, odd, tables) = tables_at_once(rt, alloc, &lexicon);
        let by_word = EntryTable::of(even?, odd?);
        Ok(IndexedLexicon {
            lexicon,
            by_word,
            tables: tables?,
        })
    }

    /// Whether a word of so many characters is longer than every form.
    pub(crate) fn is_too_long(&self, count: usize) -> bool
        requires { IsReady self.now }
        ensures { result ≡ true → (d : Derivation) (text : List ℕ)
            → form_of self.now.lexicon d ≡ Some text → length text < count }
    {
        match self.tables.longest {
            None => false,
            Some(most) => most < count,
        }
    }

    /// Tells of the places of a word where the parts of a compound may end that begin at the place
    /// `from`, and stand at a place of the compound before another part.
    pub(crate) fn reach_ends(&self, word: &[char], from: usize, place: Place, reached: &mut [bool])
        requires ready { IsReady self.now }
        requires long { length reached.old ≡ length word.now }
        requires within { from ≤ length word.now }
        ensures { ReachesEnds self.now.lexicon place word.now from reached.old reached.new }
    {
        self.tables.inside.reach_ends(word, from, place, reached);
    }

    /// Whether one of the derivations of a word passes a test. The walk ends at the first that
    /// does.
    pub(crate) fn one_passes<T: Test + Drop>(
        &self,
        alloc: Global,
        word: &[char],
        test: T,
    ) -> Result<bool, NoMemory>
        requires { IsReady self.now }
        ensures { IfOk result (λ answer.
            answer ≡ list_any (T.passing test) (derivations_of self.now.lexicon word.now)) }
    {
        let mut question = Question { test };
        self.visit_all(alloc, word, &mut question)
    }

    /// Whether a word is the form of a forbidden entry. Where such entries allow no affix, it is
    /// looked up only among the words of entries, and otherwise it is not where its front tells
    /// that it is none.
    pub(crate) fn is_barred(&self, alloc: Global, word: &[char]) -> Result<bool, NoMemory>
        requires { IsReady self.now }
        ensures { IfOk result (λ answer.
            answer ≡ list_any (is_forbidden self.now.lexicon)
            (derivations_of self.now.lexicon word.now)) }
    {
        let test = Forbidden {
            lexicon: &self.lexicon,
        };
        match self.tables.barring {
            Barring::Nowhere => Ok(false),
            Barring::AtEntries => {
                let mut question = Question { test };
                self.visit_without_suffix(alloc, &[None], word, &mut question)
            }
            Barring::AtForms => {
                if !self.tables.heads.may_begin(word) {
                    sets_have_their_flags();
                    return Ok(false);
                }
                self.one_passes(alloc, word, test)
            }
        }
    }

    /// Shows all derivations of a word, in any order and more than once maybe: first those without
    /// affixes, then those with one suffix, then those with two, and last those with a prefix.
    pub(crate) fn visit_all<V: Visitor>(
        &self,
        alloc: Global,
        word: &[char],
        visitor: &mut V,
    ) -> Result<bool, NoMemory>
        requires { IsReady self.now }
        ensures { IfOk result (Shows
            (λ d. (is_licensed self.now.lexicon d ≡ true)
            × (form_of self.now.lexicon d ≡ Some word.now))
            (V.sees visitor.old) (V.sees visitor.new)) }
    {
        if self.visit_without_suffix(alloc, &[None], word, visitor)? {
            return Ok(true);
        }
        let endings = peel(alloc, &self.tables.rules, Side::Suffix, word)?;
        let endings = endings.as_slice();
        undoing_leads_back();
        if self.visit_suffixed(alloc, &[None], endings, visitor)? {
            return Ok(true);
        }
        let fronts = peel(alloc, &self.tables.rules, Side::Prefix, word)?;
        self.visit_prefix_groups(alloc, word, endings, fronts.as_slice(), visitor)
    }

    /// Shows the derivations of a word with a prefix. Given are the groups of suffixes, and those of
    /// prefixes, that may have made it.
    fn visit_prefix_groups<V: Visitor>(
        &self,
        alloc: Global,
        word: &[char],
        endings: &[Peeled<'_>],
        fronts: &[Peeled<'_>],
        visitor: &mut V,
    ) -> Result<bool, NoMemory>
        requires ready { IsReady self.now }
        requires endings { ArePeeled self.now.lexicon.affixes.rules Side.Suffix word.now
            endings.now }
        ensures { IfOk result (Shows
            (AtSome (Peels self.now.lexicon Side.Prefix (λ d. d.prefix) Any
            (with_suffixes self.now.lexicon)) fronts.now)
            (V.sees visitor.old) (V.sees visitor.new)) }
    {
        for front in fronts {
            if self.visit_prefix_group(alloc, word, endings, front, visitor)? {
                return Ok(true);
            }
        }
        Ok(false)
    }

    /// Shows those of them that have a prefix of this group. One that leaves the word as it is has
    /// its groups of suffixes.
    fn visit_prefix_group<V: Visitor>(
        &self,
        alloc: Global,
        word: &[char],
        endings: &[Peeled<'_>],
        front: &Peeled<'_>,
        visitor: &mut V,
    ) -> Result<bool, NoMemory>
        requires ready { IsReady self.now }
        requires endings { ArePeeled self.now.lexicon.affixes.rules Side.Suffix word.now
            endings.now }
        ensures { IfOk result (Shows
            (Peels self.now.lexicon Side.Prefix (λ d. d.prefix) Any (with_suffixes self.now.lexicon)
            front.now)
            (V.sees visitor.old) (V.sees visitor.new)) }
    {
        let mut joined = Vec::new(alloc);
        let rest = front.text(&mut joined)?;
        let prefixes = self.undoable(alloc, Side::Prefix, rest, front.places())?;
        if rest == word {
            return self.visit_groups_behind_prefixes(
                alloc,
                prefixes.as_slice(),
                rest,
                endings,
                visitor,
            );
        }
        self.visit_behind_prefixes(alloc, prefixes.as_slice(), rest, visitor)
    }

    /// Shows the derivations with one of these prefixes, or with none if that is among them, that
    /// have this word behind it. Given are the groups of suffixes that may have made the word.
    fn visit_groups_behind_prefixes<V: Visitor>(
        &self,
        alloc: Global,
        prefixes: &[Option<u32>],
        rest: &[char],
        endings: &[Peeled<'_>],
        visitor: &mut V,
    ) -> Result<bool, NoMemory>
        requires ready { IsReady self.now }
        requires endings { ArePeeled self.now.lexicon.affixes.rules Side.Suffix rest.now
            endings.now }
        ensures { IfOk result (Shows
            (Passes self.now.lexicon (λ d. Contains prefixes.now d.prefix)
            (with_suffixes self.now.lexicon) rest.now)
            (V.sees visitor.old) (V.sees visitor.new)) }
    {
        undoing_leads_back();
        if prefixes.is_empty() {
            return Ok(false);
        }
        if self.visit_without_suffix(alloc, prefixes, rest, visitor)? {
            return Ok(true);
        }
        self.visit_suffixed(alloc, prefixes, endings, visitor)
    }

    /// Shows the derivations with one of these prefixes, or with none if that is among them, that
    /// have this word behind it.
    fn visit_behind_prefixes<V: Visitor>(
        &self,
        alloc: Global,
        prefixes: &[Option<u32>],
        rest: &[char],
        visitor: &mut V,
    ) -> Result<bool, NoMemory>
        requires { IsReady self.now }
        ensures { IfOk result (Shows
            (Passes self.now.lexicon (λ d. Contains prefixes.now d.prefix)
            (with_suffixes self.now.lexicon) rest.now)
            (V.sees visitor.old) (V.sees visitor.new)) }
    {
        if prefixes.is_empty() {
            return Ok(false);
        }
        if self.visit_without_suffix(alloc, prefixes, rest, visitor)? {
            return Ok(true);
        }
        let endings = peel(alloc, &self.tables.rules, Side::Suffix, rest)?;
        undoing_leads_back();
        self.visit_suffixed(alloc, prefixes, endings.as_slice(), visitor)
    }

    /// Shows those of them that have a suffix. Given are the groups of suffixes that may have made
    /// the word.
    fn visit_suffixed<V: Visitor>(
        &self,
        alloc: Global,
        prefixes: &[Option<u32>],
        endings: &[Peeled<'_>],
        visitor: &mut V,
    ) -> Result<bool, NoMemory>
        requires { IsReady self.now }
        ensures { IfOk result (Shows
            (λ d. AtSome (Peels self.now.lexicon Side.Suffix (λ d. d.first)
            (Outside prefixes.now (None ∷ [])) (stem_of self.now.lexicon)) endings.now d
            ⊎ AtSome (Peels self.now.lexicon Side.Suffix (λ d. d.second)
            (λ d. Contains prefixes.now d.prefix) (with_first self.now.lexicon)) endings.now d)
            (V.sees visitor.old) (V.sees visitor.new)) }
    {
        if self.visit_first_suffix_groups(alloc, prefixes, &[None], endings, visitor)? {
            return Ok(true);
        }
        self.visit_second_suffix_groups(alloc, prefixes, endings, visitor)
    }

    /// Shows those of them that have a second suffix. Given are the groups of suffixes that may
    /// have made the word.
    fn visit_second_suffix_groups<V: Visitor>(
        &self,
        alloc: Global,
        prefixes: &[Option<u32>],
        endings: &[Peeled<'_>],
        visitor: &mut V,
    ) -> Result<bool, NoMemory>
        requires { IsReady self.now }
        ensures { IfOk result (Shows
            (AtSome (Peels self.now.lexicon Side.Suffix (λ d. d.second)
            (λ d. Contains prefixes.now d.prefix) (with_first self.now.lexicon)) endings.now)
            (V.sees visitor.old) (V.sees visitor.new)) }
    {
        if !self.tables.has_seconds {
            return Ok(false);
        }
        for ending in endings {
            if self.visit_second_suffix_group(alloc, prefixes, ending, visitor)? {
                return Ok(true);
            }
        }
        Ok(false)
    }

    /// Shows those of them that have a second suffix of this group.
    fn visit_second_suffix_group<V: Visitor>(
        &self,
        alloc: Global,
        prefixes: &[Option<u32>],
        ending: &Peeled<'_>,
        visitor: &mut V,
    ) -> Result<bool, NoMemory>
        requires { IsReady self.now }
        ensures { IfOk result (Shows
            (Peels self.now.lexicon Side.Suffix (λ d. d.second)
            (λ d. Contains prefixes.now d.prefix) (with_first self.now.lexicon) ending.now)
            (V.sees visitor.old) (V.sees visitor.new)) }
    {
        if !self.one_may_be_outer(ending.places()) {
            return Ok(false);
        }
        let mut joined = Vec::new(alloc);
        let inner = ending.text(&mut joined)?;
        let seconds = self.undoable_outer(alloc, inner, ending.places())?;
        self.visit_inside_second_suffixes(alloc, prefixes, seconds.as_slice(), inner, visitor)
    }

    /// Shows the derivations with one of these prefixes and one of these second suffixes that have
    /// this word inside of them.
    fn visit_inside_second_suffixes<V: Visitor>(
        &self,
        alloc: Global,
        prefixes: &[Option<u32>],
        seconds: &[Option<u32>],
        inner: &[char],
        visitor: &mut V,
    ) -> Result<bool, NoMemory>
        requires { IsReady self.now }
        ensures { IfOk result (Shows
            (Passes self.now.lexicon
            (λ d. Outside prefixes.now seconds.now d × (is_some d.first ≡ true))
            (with_first self.now.lexicon) inner.now)
            (V.sees visitor.old) (V.sees visitor.new)) }
    {
        if seconds.is_empty() {
            return Ok(false);
        }
        let endings = peel(alloc, &self.tables.rules, Side::Suffix, inner)?;
        undoing_leads_back();
        self.visit_first_suffix_groups(alloc, prefixes, seconds, endings.as_slice(), visitor)
    }

    /// Shows the derivations with one of these prefixes that have this word behind it, and no
    /// suffix.
    fn visit_without_suffix<V: Visitor>(
        &self,
        alloc: Global,
        prefixes: &[Option<u32>],
        word: &[char],
        visitor: &mut V,
    ) -> Result<bool, NoMemory>
        requires { IsReady self.now }
        ensures { IfOk result (Shows
            (Passes self.now.lexicon (λ d. Outside prefixes.now (None ∷ []) d × (d.first ≡ None))
            (stem_of self.now.lexicon) word.now)
            (V.sees visitor.old) (V.sees visitor.new)) }
    {
        let word = Hashed::new(word);
        if !self.by_word.may_have(word, &[]) {
            return Ok(false);
        }
        let entries = self.entries_of(alloc, word, &[])?;
        visit_prefixes(
            &self.lexicon,
            prefixes,
            None,
            &[None],
            entries.as_slice(),
            visitor,
        )
    }

    /// Shows the derivations with one of these prefixes, one of these second suffixes, and a first
    /// one. Given are the groups of suffixes that may have made the word inside.
    fn visit_first_suffix_groups<V: Visitor>(
        &self,
        alloc: Global,
        prefixes: &[Option<u32>],
        seconds: &[Option<u32>],
        endings: &[Peeled<'_>],
        visitor: &mut V,
    ) -> Result<bool, NoMemory>
        requires { IsReady self.now }
        ensures { IfOk result (Shows
            (AtSome (Peels self.now.lexicon Side.Suffix (λ d. d.first)
            (Outside prefixes.now seconds.now) (stem_of self.now.lexicon)) endings.now)
            (V.sees visitor.old) (V.sees visitor.new)) }
    {
        for ending in endings {
            if self.visit_first_suffix_group(alloc, prefixes, seconds, ending, visitor)? {
                return Ok(true);
            }
        }
        Ok(false)
    }

    /// Shows those of them that have a first suffix of this group. What it leaves is looked up
    /// once, and rules are looked at only where that is an entry's word.
    fn visit_first_suffix_group<V: Visitor>(
        &self,
        alloc: Global,
        prefixes: &[Option<u32>],
        seconds: &[Option<u32>],
        ending: &Peeled<'_>,
        visitor: &mut V,
    ) -> Result<bool, NoMemory>
        requires { IsReady self.now }
        ensures { IfOk result (Shows
            (Peels self.now.lexicon Side.Suffix (λ d. d.first)
            (Outside prefixes.now seconds.now) (stem_of self.now.lexicon) ending.now)
            (V.sees visitor.old) (V.sees visitor.new)) }
    {
        let (front, back) = ending.parts();
        if !self.by_word.may_have(front, back) {
            return Ok(false);
        }
        let entries = self.entries_of(alloc, front, back)?;
        let entries = entries.as_slice();
        if entries.is_empty() {
            return Ok(false);
        }
        let mut joined = Vec::new(alloc);
        let stem = ending.text(&mut joined)?;
        self.visit_first_suffixes(prefixes, ending.places(), seconds, stem, entries, visitor)
    }

    /// Shows the derivations with one of these prefixes, one of these second suffixes, and as first
    /// suffix one of these rules that may be attached to this, that come from one of these entries.
    fn visit_first_suffixes<V: Visitor>(
        &self,
        prefixes: &[Option<u32>],
        firsts: &[u32],
        seconds: &[Option<u32>],
        rest: &[char],
        entries: &[u32],
        visitor: &mut V,
    ) -> Result<bool, NoMemory>
        ensures { IfOk result (Shows
            (AtSome (RuleFrom self.now.lexicon prefixes.now seconds.now rest.now entries.now)
            firsts.now)
            (V.sees visitor.old) (V.sees visitor.new)) }
    {
        for first in firsts {
            if self.visit_first_suffix(prefixes, *first, seconds, rest, entries, visitor)? {
                return Ok(true);
            }
        }
        Ok(false)
    }

    /// Shows those of them that have this first suffix.
    fn visit_first_suffix<V: Visitor>(
        &self,
        prefixes: &[Option<u32>],
        first: u32,
        seconds: &[Option<u32>],
        rest: &[char],
        entries: &[u32],
        visitor: &mut V,
    ) -> Result<bool, NoMemory>
        ensures { IfOk result (Shows
            (RuleFrom self.now.lexicon prefixes.now seconds.now rest.now entries.now first)
            (V.sees visitor.old) (V.sees visitor.new)) }
    {
        if !self.may_undo(Side::Suffix, rest, first) {
            return Ok(false);
        }
        visit_prefixes(
            &self.lexicon,
            prefixes,
            Some(first),
            seconds,
            entries,
            visitor,
        )
    }

    /// Those of some rules that may be attached to this.
    fn undoable(
        &self,
        alloc: Global,
        side: Side,
        rest: &[char],
        places: &[u32],
    ) -> Result<Vec<Option<u32>>, NoMemory>
        ensures { IfOk result (λ kept. kept.items ≡ map (λ place. Some place)
            (filter (may_undo_at self.now.lexicon.affixes side rest.now) places.now)) }
    {
        let kept = places
            .iter()
            .copied()
            .filter(|place| self.may_undo(side, rest, *place))
            .map(|place| Some(place))
            .collect(alloc)?;
        Ok(kept)
    }

    /// Those of some suffix rules that may be second suffixes and be attached to this.
    fn undoable_outer(
        &self,
        alloc: Global,
        rest: &[char],
        places: &[u32],
    ) -> Result<Vec<Option<u32>>, NoMemory>
        ensures { IfOk result (λ kept. kept.items ≡ map (λ place. Some place)
            (filter (may_undo_outer self.now rest.now) places.now)) }
    {
        let kept = places
            .iter()
            .copied()
            .filter(|place| self.may_undo_outer(rest, *place))
            .map(|place| Some(place))
            .collect(alloc)?;
        Ok(kept)
    }

    /// Whether a suffix rule may be a second suffix, and be attached to this.
    fn may_undo_outer(&self, rest: &[char], place: u32) -> bool
        ensures { result ≡ may_undo_outer self.now rest.now place }
    {
        self.may_be_outer(place) && self.may_undo(Side::Suffix, rest, place)
    }

    /// Whether one of some rules may be a second suffix.
    fn one_may_be_outer(&self, places: &[u32]) -> bool
        ensures { result ≡ list_any (may_be_outer self.now) places.now }
    {
        places.iter().any(|place| self.may_be_outer(*place))
    }

    /// Whether a rule may be a second suffix.
    fn may_be_outer(&self, place: u32) -> bool
        ensures { result ≡ may_be_outer self.now place }
    {
        match self.tables.seconds.get(place as usize) {
            None => false,
            Some(may) => *may,
        }
    }

    /// Whether the rule with a place leaves this: something is left of the word that it is undone
    /// from, or words may be stripped whole, and its condition fits.
    fn may_undo(&self, side: Side, rest: &[char], place: u32) -> bool
        ensures { result ≡ may_undo_at self.now.lexicon.affixes side rest.now place }
    {
        match self.lexicon.affixes.rules.as_slice().get(place as usize) {
            None => false,
            Some(rule) => may_undo(self.lexicon.affixes.options.full_strip, side, rest, rule),
        }
    }

    /// The places of the entries whose word is `front` and `back` joined.
    fn entries_of(
        &self,
        alloc: Global,
        front: Hashed<'_>,
        back: &[char],
    ) -> Result<Places, NoMemory>
        requires ready { IsReady self.now }
        requires front { IsHashed front }
        ensures { IfOk result
            (λ places. AreEntriesOf self.now.lexicon.entries (front.entry.text.now ++ back.now)
            places.items) }
    {
        self.by_word
            .places_of(alloc, &self.lexicon.entries, front, back)
    }
}

/// Shows the derivations with one of these prefixes, this first suffix and one of these second
/// ones, that come from one of these entries and are licensed.
fn visit_prefixes<V: Visitor>(
    lexicon: &Lexicon,
    prefixes: &[Option<u32>],
    first: Option<u32>,
    seconds: &[Option<u32>],
    entries: &[u32],
    visitor: &mut V,
) -> Result<bool, NoMemory>
    ensures { IfOk result (Shows (FromAll lexicon.now prefixes.now first seconds.now entries.now)
        (V.sees visitor.old) (V.sees visitor.new)) }
{
    for prefix in prefixes {
        if visit_second_suffixes(lexicon, *prefix, first, seconds, entries, visitor)? {
            return Ok(true);
        }
    }
    Ok(false)
}

/// Shows those of them that have this prefix.
fn visit_second_suffixes<V: Visitor>(
    lexicon: &Lexicon,
    prefix: Option<u32>,
    first: Option<u32>,
    seconds: &[Option<u32>],
    entries: &[u32],
    visitor: &mut V,
) -> Result<bool, NoMemory>
    ensures { IfOk result
        (Shows (AtSome (λ second. From lexicon.now prefix first second entries.now) seconds.now)
        (V.sees visitor.old) (V.sees visitor.new)) }
{
    for second in seconds {
        if visit_entries(lexicon, prefix, first, *second, entries, visitor)? {
            return Ok(true);
        }
    }
    Ok(false)
}

/// Shows the derivations with these affixes from these entries that are licensed.
fn visit_entries<V: Visitor>(
    lexicon: &Lexicon,
    prefix: Option<u32>,
    first: Option<u32>,
    second: Option<u32>,
    entries: &[u32],
    visitor: &mut V,
) -> Result<bool, NoMemory>
    ensures { IfOk result (Shows (From lexicon.now prefix first second entries.now)
        (V.sees visitor.old) (V.sees visitor.new)) }
{
    for entry in entries {
        let d = Derivation {
            entry: *entry,
            prefix,
            first,
            second,
        };
        if visit_licensed(lexicon, d, visitor)? {
            return Ok(true);
        }
    }
    Ok(false)
}

/// Shows a derivation, if it is licensed.
fn visit_licensed<V: Visitor>(
    lexicon: &Lexicon,
    d: Derivation,
    visitor: &mut V,
) -> Result<bool, NoMemory>
    ensures { IfOk result (Shows (λ e. (e ≡ d) × (is_licensed lexicon.now e ≡ true))
        (V.sees visitor.old) (V.sees visitor.new)) }
{
    if !licensed(lexicon, &d) {
        return Ok(false);
    }
    visitor.visit(d)
}

/// Whether one of these may.
fn one_may(each: &[bool]) -> bool
    ensures { result ≡ list_any (λ may. may) each.now }
{
    each.iter().any(|may| *may)
}

/// Whether a rule may be attached to this. `full_strip` says whether a rule may strip a word whole:
/// the option FULLSTRIP of hunspell(5).
fn may_undo(full_strip: bool, side: Side, rest: &[char], rule: &Rule) -> bool
    ensures { result ≡ may_undo full_strip side rest.now rule.now }
{
    (full_strip || rule.strip.as_slice().len() < rest.len()) && fits_on(side, rule, rest)
}

/// Whether a rule's condition fits the side's end of a word.
fn fits_on(side: Side, rule: &Rule, word: &[char]) -> bool
    ensures { result ≡ fits_on side rule.now.condition word.now }
{
    match side {
        Side::Prefix => matches_front(&rule.condition, word),
        Side::Suffix => matches_back(&rule.condition, word),
    }
}
