//! Compounds: words that parts of a dictionary make up.
#![tactic(auto)]

ghost use Rattle.std.specs.Prelude.{◌≡◌, false, IfOk};
ghost use Rattle.spell_types.specs.Compounds.{is_made_up, is_compound};
ghost use Rattle.compound_words.specs.Prepared.{AreCompoundsOf, AreAllRulesOf, has_first_sign};
ghost use Rattle.compound_words.specs.Rests.{asked_by};

mod counting;
mod heads;
mod pieces;
mod reach;
mod replacements;
mod rests;
mod rows;
mod rules;
mod search;

use affix_strip::Stems;
use replacements::has_rep_fault;
use rows::is_made_up;
use rules::rules_with;
use search::Search;
use spell_types::lists::{Items, NoMemory};
use spell_types::{Lexicon, Pattern, Signs, compounds_have_parts, patterns_match};
use std::alloc::Global;

/// What a dictionary says of compounds, ready to be asked which words are some.
#[derive(Drop)]
pub struct Compounds {
    /// Whether a flag allows first parts.
    has_first: bool,
    /// The rules that have a flag of an entry.
    rules: Items<Pattern>,
}

/// Whether a word is a compound of a dictionary: parts make it up, by their flags or by a compound
/// rule, and it is no common misspelling. `by_case` says that the word differs in case from the one
/// that is written, so that no entry with KEEPCASE is a part, and `capital` that the written one
/// begins in upper case, as a last part with FORCEUCASE asks. These are the options for compounding
/// of hunspell(5). Who asks more than once prepares `Compounds`.
pub fn is_compound(
    alloc: Global,
    stems: &Stems,
    word: &[char],
    by_case: bool,
    capital: bool,
) -> Result<bool, NoMemory>
    ensures { IfOk result (λ answer.
        answer ≡ is_compound (record { lexicon = stems.now; by_case = by_case; capital = capital })
        word.now) }
{
    Compounds::new(alloc, stems.lexicon())?.is_compound(alloc, stems, word, by_case, capital)
}

impl Compounds {
    /// Prepares what a dictionary says of compounds.
    pub fn new(alloc: Global, lexicon: &Lexicon) -> Result<Compounds, NoMemory>
        ensures { IfOk result (AreCompoundsOf lexicon.now) }
    {
        Ok(Compounds {
            has_first: has_first_sign(&lexicon.affixes.signs),
            rules: rules_of(alloc, lexicon)?,
        })
    }

    /// Whether a word is a compound of the dictionary that this was prepared of. It is looked up in
    /// pieces: where no part may stand first by its flags and no rule has an entry's flag, not at
    /// all.
    #[tactic(auto, unfolding(spell_types::specs::Compounds::is_compound))]
    pub fn is_compound(
        &self,
        alloc: Global,
        stems: &Stems,
        word: &[char],
        by_case: bool,
        capital: bool,
    ) -> Result<bool, NoMemory>
        requires { AreCompoundsOf stems.now self.now }
        ensures { IfOk result (λ answer.
            answer ≡ is_compound
            (record { lexicon = stems.now; by_case = by_case; capital = capital }) word.now) }
    {
        let search = Search {
            stems,
            rules: &self.rules,
            by_case,
            capital,
        };
        if !self.make_up(alloc, &search, word)? {
            return Ok(false);
        }
        Ok(!(stems.lexicon().affixes.options.check_rep && has_rep_fault(alloc, stems, word)?))
    }

    /// Whether parts make up the word.
    fn make_up(&self, alloc: Global, search: &Search, word: &[char]) -> Result<bool, NoMemory>
        requires compounds { AreCompoundsOf search.now.stems.now self.now }
        requires rules { search.now.rules.now ≡ self.now.rules }
        ensures { IfOk result (λ answer. answer ≡ is_made_up (asked_by search.now) word.now) }
    {
        if !self.has_first && self.rules.is_empty() {
            compounds_have_parts();
            return Ok(false);
        }
        is_made_up(alloc, search, word)
    }
}

/// The compound rules that parts of the dictionary may follow.
fn rules_of(alloc: Global, lexicon: &Lexicon) -> Result<Items<Pattern>, NoMemory>
    ensures { IfOk result (AreAllRulesOf lexicon.now) }
{
    patterns_match();
    let patterns = &lexicon.affixes.patterns;
    if patterns.is_empty() {
        return Ok(Items::new(alloc));
    }
    let flags = lexicon.entries.flags(alloc)?;
    rules_with(alloc, &flags, patterns)
}

/// Whether a flag allows first parts.
fn has_first_sign(signs: &Signs) -> bool
    ensures { result ≡ has_first_sign signs.now }
{
    signs.compound.is_some() || signs.begin.is_some()
}
