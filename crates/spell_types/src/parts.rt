//! The parts of compounds, and what compounds are made of them.

ghost use Rattle.std.specs.Prelude.{◌↔◌, ℕ, List, IsTrue};
ghost use Rattle.spell_types.specs.declared.Lexicon.{Lexicon};
ghost use Rattle.spell_types.specs.Compounds.{Asked, is_made_up, is_compound, IsMadeUp, IsCompound};
ghost use Rattle.spell_types.specs.Replacements.{has_rep_fault, HasRepFault};
ghost use Rattle.spell_types.specs.Sanity.{AreSaneAffixes};

use crate::{Chars, Derivation, WrittenJoint};

/// Where a part stands in a compound: first, last, or between these two.
#[derive(Clone, Copy, Debug, PartialEq, Eq)]
pub enum Place {
    First,
    Middle,
    Last,
}

/// A part of a compound: a derivation, the text that is its form, and what its neighbours make of
/// it.
#[derive(Debug, Drop)]
pub struct Part {
    pub text: Chars,
    pub d: Derivation,
    /// How many characters the joint before it takes off its front.
    pub off_begin: usize,
    /// The joint behind it. Where nothing stands behind, it takes nothing off and puts nothing.
    pub joint: WrittenJoint,
}

/// What a compound is: parts of the dictionary make it up, and it is no common misspelling, if that
/// is asked. Each part keeps a character of its own, so that the length of a word bounds how many
/// parts it has.
pub fn compounds_have_parts()
    ensures made_up { (a : Asked) (word : List ℕ) → IsTrue (is_made_up a word) ↔ IsMadeUp a word }
    ensures related { (a : Asked) (word : List ℕ) → IsTrue (is_compound a word)
        ↔ IsCompound a word }
    ensures spelled { (lexicon : Lexicon) (word : List ℕ) → AreSaneAffixes lexicon.affixes →
        IsTrue (has_rep_fault lexicon word) ↔ HasRepFault lexicon word }
{}
