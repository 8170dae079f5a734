//! The derivations of a word, found by undoing its affixes.
#![tactic(auto)]

ghost use Rattle.std.specs.Prelude.{◌≡◌, ◌↔◌, ℕ, ◌<◌, List, Some, true, false, length, Contains};
ghost use Rattle.std.specs.Prelude.{IfOk};
ghost use Rattle.std.specs.Prelude.{◌≤◌};
ghost use Rattle.spell_types.specs.declared.Lexicon.{Lexicon};
ghost use Rattle.spell_types.specs.declared.derivations.Derivation.{Derivation};
ghost use Rattle.spell_types.specs.Derivations.{form_of};
ghost use Rattle.spell_types.specs.Bases.{is_alone_in_case};
ghost use Rattle.spell_types.specs.Licences.{is_licensed, is_derived, is_barred};
ghost use Rattle.spell_types.specs.Sanity.{IsSane};
ghost use Rattle.affix_strip.specs.Found.{derivations_of, derivation_cmp, AreDerivationsInOrder};
ghost use Rattle.affix_strip.specs.Inside.{ReachesEnds};

mod at_once;
mod barring;
mod edges;
mod heads;
mod inner_flags;
mod inside;
mod known_words;
mod lengths;
mod peeling;
mod reaching;
mod rule_flags;
mod visiting;
mod walk;

use spell_types::lists::NoMemory;
use spell_types::{Case, Derivation, Lexicon, Place};
use std::alloc::Global;
use std::cmp::Ordering;
use std::marker::Model;
use std::thread::Threads;
use visiting::Alone;
use walk::IndexedLexicon;

/// A dictionary, ready to be asked for the derivations of words. Contracts see it as the
/// dictionary.
#[derive(Drop)]
pub struct Stems {
    dictionary: IndexedLexicon,
}

impl Model for Stems {
    ghost use Rattle.spell_types.specs.declared.Lexicon.{Lexicon};
    ghost use Rattle.spell_types.specs.Sanity.{IsSane};
    ghost use Rattle.affix_strip.specs.Tables.{IsReady};

    ghost Value = { Lexicon };

    ghost view = { λ inside. inside.dictionary.lexicon };

    ghost invariant = { λ inside.
        IsReady inside.dictionary × IsSane inside.dictionary.lexicon };
}

impl Stems {
    /// Takes a dictionary as the readers give it.
    pub fn new(alloc: Global, lexicon: Lexicon) -> Result<Stems, NoMemory>
        requires { IsSane lexicon }
        ensures { IfOk result (λ made. made ≡ lexicon) }
    {
        let dictionary = IndexedLexicon::new(alloc, lexicon)?;
        Ok(Stems { dictionary })
    }

    /// The same, in three threads, while the caller waits. It does the work of a thread that cannot be
    /// started.
    pub fn in_threads<R: Threads + Sync>(
        rt: &R,
        alloc: Global,
        lexicon: Lexicon,
    ) -> Result<Stems, NoMemory>
        requires { IsSane lexicon }
        ensures { IfOk result (λ made. made ≡ lexicon) }
    {
        let dictionary = IndexedLexicon::in_threads(rt, alloc, lexicon)?;
        Ok(Stems { dictionary })
    }

    /// The dictionary.
    pub fn lexicon(&self) -> &Lexicon
        ensures same { result.now ≡ self.now }
        ensures sane { IsSane self.now }
    {
        &self.dictionary.lexicon
    }

    /// Whether every word of so many characters is longer than each form of the dictionary, so that
    /// it has no derivation. It is said only where that is told by the bytes of the longest entry
    /// and the longest texts that rules add.
    pub fn is_too_long(&self, count: usize) -> bool
        ensures { result ≡ true → (d : Derivation) (text : List ℕ) → form_of self.now d ≡ Some text
            → length text < count }
    {
        self.dictionary.is_too_long(count)
    }

    /// Sets in `reached` the places of a word at which a part of a compound may end that begins at the
    /// place `from`, and stands at a place of the compound before another part. Places count
    /// characters from 0. What was set stays, and nothing before `from` changes. Where a place is not
    /// set, no such part ends there, neither one that stands by its flags nor one of a compound rule.
    /// It is told by filters, without a look at entries.
    pub fn reach_ends(&self, word: &[char], from: usize, place: Place, reached: &mut [bool])
        requires long { length reached.old ≡ length word.now }
        requires within { from ≤ length word.now }
        ensures { ReachesEnds self.now place word.now from reached.old reached.new }
    {
        self.dictionary.reach_ends(word, from, place, reached);
    }

    /// All derivations of a word: those that are licensed and whose form is the word, by entry,
    /// then by prefix, by first and by second suffix, none before any. Only rules are looked at
    /// that add a text which begins or ends the word, or what is left of it, and only entries of
    /// the words that are left.
    pub fn derivations(&self, alloc: Global, word: &[char]) -> Result<Vec<Derivation>, NoMemory>
        ensures { IfOk result (λ found. found.items ≡ derivations_of self.now word.now) }
    {
        let mut found = Vec::new(alloc);
        self.dictionary.visit_all(alloc, word, &mut found)?;
        put_in_order(&mut found);
        Ok(found)
    }

    /// Whether a word is forbidden: one of its derivations is that of a forbidden word.
    #[tactic(auto, using(crate::proofs::DerivedLemmas::barred_found))]
    pub fn is_barred(&self, alloc: Global, word: &[char]) -> Result<bool, NoMemory>
        ensures { IfOk result (λ answer. answer ≡ is_barred self.now word.now) }
    {
        self.dictionary.is_barred(alloc, word)
    }

    /// Whether one of the derivations of a spelling stands as a word where a word is written in
    /// this case. It is looked for among entries first, then with one suffix, with two, and last
    /// with a prefix, and no further than to the first.
    #[tactic(auto, using(crate::proofs::DerivedLemmas::alone_found))]
    pub fn is_alone(&self, alloc: Global, case: Case, spelling: &[char]) -> Result<bool, NoMemory>
        ensures { IfOk result
            (λ answer. answer ≡ is_derived (is_alone_in_case case) self.now spelling.now) }
    {
        let test = Alone {
            case,
            lexicon: &self.dictionary.lexicon,
        };
        self.dictionary.one_passes(alloc, spelling, test)
    }
}

/// What `Stems::derivations` gives. A derivation is among them if it is licensed and its form is
/// the word, and otherwise not; and each stands before all after it in the order by entry, prefix,
/// first and second suffix, so that none stands there twice.
pub fn derivations_are()
    ensures members { (lexicon : Lexicon) (word : List ℕ) (d : Derivation) →
        Contains (derivations_of lexicon word) d
        ↔ ((is_licensed lexicon d ≡ true) × (form_of lexicon d ≡ Some word)) }
    ensures rising { (lexicon : Lexicon) (word : List ℕ)
        → AreDerivationsInOrder (derivations_of lexicon word) }
{}

/// Puts derivations in order, and keeps each once.
fn put_in_order(found: &mut Vec<Derivation>)
    ensures order { AreDerivationsInOrder found.new.items }
    ensures members { (d : Derivation) → Contains found.new.items d ↔ Contains found.old.items d }
{
    found.sort_unstable_by(|d, other| compare(d, other));
    found.dedup();
}

/// The order by entry, then by prefix, then by first, then by second suffix, none before any.
fn compare(d: &Derivation, other: &Derivation) -> Ordering
    ensures { result ≡ derivation_cmp d.now other.now }
{
    d.entry
        .cmp(&other.entry)
        .then(d.prefix.cmp(&other.prefix))
        .then(d.first.cmp(&other.first))
        .then(d.second.cmp(&other.second))
}
