//! A dictionary with personal words, ready to be asked, of which others can be made: by other
//! words, or by another dictionary.
#![tactic(auto)]

ghost use Rattle.std.specs.Prelude.{◌≡◌, IfOk, take};
ghost use Rattle.std.specs.Arc.{arc_value};
ghost use Rattle.personal_words.specs.Extended.{extended};
ghost use Rattle.personal_words.specs.Dictionaries.{IsLoadedBase, in_force};
ghost use Rattle.own_dictionary.specs.Bases.{base_in};

mod asking;
mod crossing;
mod loading;

pub use dictionary_swap;
pub use loading::load;
use outside::lists::{Copied, NoMemory};
pub use personal_words;
use personal_words::{OwnList, copied_affixes, extend_with};
use spell_types::{Flag, Lexicon};
use std::alloc::Global;
use std::marker::Model;
use std::sync::Arc;
use word_verdict::Speller;

/// A dictionary with personal words: its base, which was loaded, and the items of a list. Contracts
/// see it as these two; what it is asked goes to the base extended by the list. The base is kept
/// once, as the front of the entries that it is extended to.
#[derive(Drop)]
pub struct OwnDictionary {
    speller: Arc<Speller>,
    own: OwnList,
    /// How many entries the base has.
    entries: usize,
    /// The base's sign of forbidden words.
    forbidden: Option<Flag>,
}

impl Model for OwnDictionary {
    ghost use Rattle.std.specs.Arc.{arc_value};
    ghost use Rattle.personal_words.specs.Dictionaries.{OwnSeen};
    ghost use Rattle.own_dictionary.specs.Bases.{IsExtended, base_in};

    ghost Value = { OwnSeen };

    ghost view = { λ inside. record {
      base = base_in (arc_value inside.speller) inside.entries inside.forbidden;
      own = inside.own;
    } };

    ghost invariant = { λ inside.
        IsExtended (arc_value inside.speller) inside.entries inside.forbidden inside.own };
}

impl OwnDictionary {
    /// The dictionary that the base extended by the list is.
    pub fn new(alloc: Global, base: Lexicon, own: OwnList) -> Result<OwnDictionary, NoMemory>
        requires { IsLoadedBase base }
        ensures { IfOk result (λ made. made ≡ record { base = base; own = own }) }
    {
        let entries = base.entries.len();
        let forbidden = base.affixes.signs.forbidden;
        let speller = speller_of(alloc, base, &own)?;
        Ok(OwnDictionary {
            speller,
            own,
            entries,
            forbidden,
        })
    }

    /// The same base with another list.
    pub fn with_own(&self, alloc: Global, own: OwnList) -> Result<OwnDictionary, NoMemory>
        ensures { IfOk result (λ made. made ≡ record { base = self.now.base; own = own }) }
    {
        let base = self.base(alloc)?;
        OwnDictionary::new(alloc, base, own)
    }

    /// Another base with the same list.
    pub fn with_base(&self, alloc: Global, base: Lexicon) -> Result<OwnDictionary, NoMemory>
        requires { IsLoadedBase base }
        ensures { IfOk result (λ made. made ≡ record { base = base; own = self.now.own }) }
    {
        let own = self.own.copy(alloc)?;
        OwnDictionary::new(alloc, base, own)
    }

    /// What is asked.
    pub fn speller(&self) -> &Arc<Speller>
        ensures { arc_value result.now ≡ in_force self.now }
    {
        &self.speller
    }

    /// The personal words.
    pub fn own(&self) -> &OwnList
        ensures { result.now ≡ self.now.own }
    {
        &self.own
    }

    /// A copy of the base.
    fn base(&self, alloc: Global) -> Result<Lexicon, NoMemory>
        ensures same { IfOk result (λ base. base ≡ self.now.base) }
        ensures base { IfOk result IsLoadedBase }
    {
        let lexicon = self.speller.stems().lexicon();
        let affixes = copied_affixes(alloc, &lexicon.affixes, self.forbidden)?;
        let more = self.own.len();
        let entries = lexicon.entries.copy_front(alloc, self.entries, more)?;
        Ok(Lexicon { affixes, entries })
    }
}

/// The base extended by the list, prepared and shared.
fn speller_of(alloc: Global, base: Lexicon, own: &OwnList) -> Result<Arc<Speller>, NoMemory>
    requires { IsLoadedBase base }
    ensures { IfOk result (λ made. arc_value made ≡ extended base own.now) }
{
    let Lexicon { affixes, entries } = extend_with(alloc, base, own)?;
    let speller = Speller::build(alloc, affixes, entries)?;
    Ok(Arc::new(alloc, speller)?)
}
