//! The types of a dictionary. Their meaning stands in `specs/`, one module for each idea.
#![tactic(auto)]

ghost use Rattle.std.specs.Prelude.{◌≡◌};
ghost use Rattle.std.specs.Option.{option_copied};

mod attaching;
mod breaks;
mod conversions;
mod derivations;
mod entries;
mod flags;
mod joints;
mod licences;
mod limits;
mod parts;
mod patterns;
mod rules;
mod signs;
mod texts;

pub use attaching::{attach, joined, matches_back, matches_front};
pub use breaks::Anchored;
pub use conversions::{Conversion, Rep};
pub use derivations::{Derivation, form};
pub use entries::{Entries, EntryRef};
pub use flags::{Flag, FlagKind, FlagSet, has, has_flag_of, sets_have_their_flags};
pub use joints::{JointPattern, WrittenJoint, joints_are_written};
pub use licences::{
    Case, alone, alone_in_case, entry_flags, forbidden, has_affix_with, has_entry_with,
    has_prefix_without, has_some_with, has_suffix_without, is_entry_word, licensed, sound,
};
pub use limits::{MOST_PAIRS, pairs_are_bounded};
pub use lists;
use lists::{Copied, Items, NoMemory};
pub use parts::{Part, Place, compounds_have_parts};
pub use patterns::{Pattern, PatternStep, Times, patterns_match};
pub use rules::{Condition, Piece, Rule, Side};
pub use signs::{Options, Signs};
use std::alloc::Global;
pub use texts::{chars_of, is_spelled, text_of};

/// A text by its characters.
pub type Chars = Items<char>;

/// One word of the .dic file.
#[derive(Debug, Drop)]
pub struct Entry {
    pub word: Chars,
    pub flags: FlagSet,
}

/// What the .aff file says.
#[derive(Debug, Drop)]
pub struct Affixes {
    /// How both files write flags.
    pub kind: FlagKind,
    /// The sets that ordinals stand for, where flag fields are ordinals: the option AF of
    /// hunspell(5).
    pub aliases: Option<Items<FlagSet>>,
    /// The rules of all affix classes, in the order of the file.
    pub rules: Items<Rule>,
    pub signs: Signs,
    pub options: Options,
    /// The characters that are dropped from dictionary words, from what rules strip off and add,
    /// and from input: the option IGNORE of hunspell(5).
    pub ignore: Chars,
    /// The characters that are word characters beside letters and marks: the option WORDCHARS of
    /// hunspell(5).
    pub wordchars: Chars,
    /// The conversions of input: the option ICONV of hunspell(5).
    pub iconv: Items<Conversion>,
    /// Common misspellings: the option REP of hunspell(5).
    pub reps: Items<Rep>,
    /// Where words may be broken: the option BREAK of hunspell(5).
    pub breaks: Items<Anchored>,
    /// The parts of compounds that may not meet as they are: the option CHECKCOMPOUNDPATTERN of
    /// hunspell(5).
    pub joints: Items<JointPattern>,
    /// The compound rules: the option COMPOUNDRULE of hunspell(5).
    pub patterns: Items<Pattern>,
}

/// The sets that ordinals stand for, if a file has aliases.
pub fn alias_sets(aliases: &Option<Items<FlagSet>>) -> Option<&[FlagSet]>
    ensures { option_copied result ≡ aliases.now }
{
    let sets = aliases.as_ref()?;
    Some(sets.as_slice())
}

/// A dictionary: what its two files say.
#[derive(Debug, Drop)]
pub struct Lexicon {
    pub affixes: Affixes,
    pub entries: Entries,
}

impl Copied for Entry {
    fn copy(&self, alloc: Global) -> Result<Entry, NoMemory> {
        Ok(Entry {
            word: self.word.copy(alloc)?,
            flags: self.flags.copy(alloc)?,
        })
    }
}
