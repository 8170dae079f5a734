//! Where the parts of a compound may end that stand before another part. Most texts are none, and
//! that is told by filters, without a look at rules or entries.

ghost use Rattle.std.specs.Prelude.{◌≡◌, ◌+◌, ◌≤◌, ℕ, length, IfOk};
ghost use Rattle.spell_types.specs.declared.Lexicon.{Lexicon};
ghost use Rattle.affix_strip.specs.Inside.{IsInsideOfLexicon, ReachesBehind, ReachesEnds, ReachesParts};

use crate::edges::{Edge, Those};
use crate::inner_flags::inner_flags;
use crate::known_words::KnownWords;
use crate::reaching::reach_all;
use entry_table::{START, fold};
use spell_types::lists::NoMemory;
use spell_types::{Lexicon, Place, Side, sets_have_their_flags};
use std::alloc::Global;

/// What is known of all parts that stand before another part.
#[derive(Drop)]
pub(crate) struct Inside {
    /// The words of entries that may be in such parts.
    known: KnownWords,
    /// The prefixes of first parts.
    begins: Edge,
    /// The prefixes of parts in the middle.
    fronts: Edge,
    /// The suffixes of all of them.
    ends: Edge,
    /// Whether they may have two suffixes: the option COMPOUNDMORESUFFIXES of hunspell(5).
    has_two_suffixes: bool,
}

impl Inside {
    /// What is known of a dictionary's parts.
    pub(crate) fn new(alloc: Global, lexicon: &Lexicon) -> Result<Inside, NoMemory>
        ensures { IfOk result (IsInsideOfLexicon lexicon.now) }
    {
        let rules = &lexicon.affixes.rules;
        let permitted = Those::Carrying(lexicon.affixes.signs.permit);
        let flags = inner_flags(alloc, &lexicon.affixes)?;
        Ok(Inside {
            known: KnownWords::new(alloc, &lexicon.entries, &flags)?,
            begins: Edge::new(alloc, Side::Prefix, Those::All, rules)?,
            fronts: Edge::new(alloc, Side::Prefix, permitted, rules)?,
            ends: Edge::new(alloc, Side::Suffix, permitted, rules)?,
            has_two_suffixes: lexicon.affixes.options.more_suffixes,
        })
    }

    /// Tells of the places of a word where the parts of a compound may end that begin at the place
    /// `from`, and stand at a place of the compound before another part. Where they may have two
    /// suffixes each place may be reached.
    pub(crate) fn reach_ends(&self, word: &[char], from: usize, place: Place, reached: &mut [bool])
        requires long { length reached.old ≡ length word.now }
        requires within { from ≤ length word.now }
        ensures { (lexicon : Lexicon) → IsInsideOfLexicon lexicon self.now
            → ReachesEnds lexicon place word.now from reached.old reached.new }
    {
        sets_have_their_flags();
        if self.has_two_suffixes {
            reach_all(reached, from);
            return;
        }
        match place {
            Place::First => self.reach_parts(&self.begins, &word[from..], from, reached),
            Place::Middle => self.reach_parts(&self.fronts, &word[from..], from, reached),
            Place::Last => reach_all(reached, from),
        }
    }

    /// Tells of the places before the end of a text to which a known word may lead, with affixes or
    /// without. The text is the rest of a word from the place `at` on.
    fn reach_parts(&self, fronts: &Edge, text: &[char], at: usize, reached: &mut [bool])
        requires { at + length text.now ≡ length reached.old }
        ensures { ReachesParts self.now.known fronts.now self.now.ends text.now at reached.old
            reached.new }
    {
        if fronts.shortens {
            reach_all(reached, at);
            return;
        }
        self.known.reach_words(&self.ends, text, at, reached);
        self.reach_behind(fronts, text, at, reached);
    }

    /// The same of words behind what a prefix adds. Where a prefix may begin the text that strips
    /// something off each place may be reached.
    fn reach_behind(&self, fronts: &Edge, text: &[char], at: usize, reached: &mut [bool])
        requires { at + length text.now ≡ length reached.old }
        ensures { ReachesBehind self.now.known fronts.now self.now.ends text.now at reached.old
            reached.new }
    {
        let mut key = START;
        for count in 0..fronts.longest.min(text.len()) {
            key = fold(key, &text[count..count + 1]);
            if fronts.exchanged.may_have(key) {
                reach_all(reached, at);
                return;
            }
            let may = fronts.plain.may_have(key);
            let rest = &text[count + 1..];
            self.known
                .reach_words_if(may, &self.ends, rest, at + count + 1, reached);
        }
    }
}
