//! All forms of a dictionary: the words that its derivations give and that stand alone.
#![tactic(auto)]

ghost use Rattle.std.specs.Prelude.{◌≡◌, ◌↔◌, ◌≤◌, ℕ, List, length, Contains, IfOk, IfErr};
ghost use Rattle.std.specs.List.Sorted.{IsStrictlySortedBy};
ghost use Rattle.spell_types.specs.declared.Lexicon.{Lexicon};
ghost use Rattle.spell_types.specs.Yields.{looked_up, most_characters, Yields};
ghost use Rattle.form_lister.specs.Forms.{by_characters, IsForm, forms_of, IsFaultOf};
ghost use Rattle.form_lister.specs.Found.{AreFound, HasAll};

mod choices;
mod faults;
mod found;
mod walk;

use affix_strip::{Stems, derivations_are};
use choices::RulesByFlag;
pub use faults::FormsFault;
use found::Found;
use spell_types::Chars;
use std::alloc::Global;
use walk::Walk;

/// All forms of a dictionary, rising by their characters, each once. No form is empty or a
/// forbidden word; compounds, case and breaks play no part. Where there are more than so many they
/// are not listed, and then no more of them are kept at a time than that and one.
pub fn forms(alloc: Global, stems: &Stems, limit: u64) -> Result<Vec<Chars>, FormsFault>
    ensures forms { IfOk result (λ forms. forms.items ≡ forms_of stems.now) }
    ensures few { IfOk result (λ forms. length (forms_of stems.now) ≤ limit) }
    ensures fault { IfErr result (IsFaultOf stems.now limit) }
{
    forms_are();
    let found = found_in(alloc, stems, limit)?;
    Ok(found.into_list(alloc)?)
}

/// What the walk over all entries finds.
fn found_in(alloc: Global, stems: &Stems, limit: u64) -> Result<Found, FormsFault>
    ensures found { IfOk result (AreFound stems.now limit) }
    ensures all { IfOk result (HasAll stems.now) }
    ensures fault { IfErr result (IsFaultOf stems.now limit) }
{
    let rules = RulesByFlag::new(alloc, &stems.lexicon().affixes.rules)?;
    let walk = Walk {
        alloc,
        stems,
        rules,
        limit,
    };
    let mut found = Found::new(alloc);
    walk.add_all(&mut found)?;
    Ok(found)
}

/// What `forms` lists. A word is among the forms if it has a character, is no forbidden word, and
/// is the form of a derivation that stands alone, and otherwise not; and each form stands before
/// all after it in the order by characters, so that none stands there twice.
pub fn forms_are()
    ensures members { (lexicon : Lexicon) (word : List ℕ)
        → Contains (forms_of lexicon) word ↔ IsForm lexicon word }
    ensures rising { (lexicon : Lexicon) → IsStrictlySortedBy by_characters (forms_of lexicon) }
{
    derivations_are();
}

/// A dictionary accepts each of its forms as a written word, where the form is not too long to be
/// looked up, and neither a conversion nor a character to ignore changes it.
pub fn forms_are_accepted()
    ensures { (lexicon : Lexicon) (word : List ℕ) → Contains (forms_of lexicon) word
        → length word ≤ most_characters → looked_up lexicon word ≡ word → Yields lexicon word }
{
    derivations_are();
}
