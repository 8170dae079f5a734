//! Which parts of compounds may not meet, and how two parts are written together.

ghost use Rattle.std.specs.Prelude.{◌≡◌, ◌↔◌, ℕ, List, Contains, IfOk, IsTrue};
ghost use Rattle.spell_types.specs.Joints.{is_written_joint, joints_of, plain_joint};
ghost use Rattle.spell_types.specs.Joints.{IsWrittenJoint};
ghost use Rattle.spell_types.specs.declared.Lexicon.{Lexicon};
ghost use Rattle.spell_types.specs.declared.derivations.Derivation.{Derivation};
ghost use Rattle.spell_types.specs.declared.joints.WrittenJoint.{WrittenJoint};

use crate::{Chars, Flag};
use lists::{Copied, Items, NoMemory};
use std::alloc::Global;
use std::default::MadeWith;

/// Two parts that may not meet as they are: a row of the option CHECKCOMPOUNDPATTERN of
/// hunspell(5).
#[derive(Debug, Drop)]
pub struct JointPattern {
    /// What the left part ends with.
    pub end: Chars,
    /// Whether the left part is its entry's word instead, as it is: the row has `0` there.
    pub unmodified: bool,
    /// A flag that the left part's entry has, if it is given.
    pub end_flag: Option<Flag>,
    /// What the right part begins with.
    pub begin: Chars,
    /// A flag that the right part's entry has, if it is given.
    pub begin_flag: Option<Flag>,
    /// What is written in place of both texts, if the parts may meet so.
    pub replacement: Option<Chars>,
}

impl Copied for JointPattern {
    fn copy(&self, alloc: Global) -> Result<JointPattern, NoMemory> {
        Ok(JointPattern {
            end: self.end.copy(alloc)?,
            unmodified: self.unmodified,
            end_flag: self.end_flag,
            begin: self.begin.copy(alloc)?,
            begin_flag: self.begin_flag,
            replacement: replacement_of(&self.replacement, alloc)?,
        })
    }
}

fn replacement_of(text: &Option<Chars>, alloc: Global) -> Result<Option<Chars>, NoMemory>
    ensures { IfOk result (λ copy. copy ≡ text.now) }
{
    match text {
        None => Ok(None),
        Some(text) => Ok(Some(text.copy(alloc)?)),
    }
}

/// How two parts of a compound are written together. Numbers are of characters.
#[derive(Debug, Drop)]
pub struct WrittenJoint {
    /// How many are taken off the end of the left part.
    pub off_end: usize,
    /// What is put between the two.
    pub put: Chars,
    /// How many are taken off the front of the right part.
    pub off_begin: usize,
}

impl Copied for WrittenJoint {
    fn copy(&self, alloc: Global) -> Result<WrittenJoint, NoMemory> {
        Ok(WrittenJoint {
            off_end: self.off_end,
            put: self.put.copy(alloc)?,
            off_begin: self.off_begin,
        })
    }
}

/// The joint of two parts as they are, for a collection that fills its unused places.
impl MadeWith<Global> for WrittenJoint {
    ghost is_made_with = { λ made. made ≡ plain_joint };

    fn made_with(alloc: Global) -> WrittenJoint {
        WrittenJoint {
            off_end: 0,
            put: Items::new(alloc),
            off_begin: 0,
        }
    }
}

/// What the written joints of two parts are, where these texts are the forms of these derivations.
pub fn joints_are_written()
    ensures tested { (lexicon : Lexicon) (x : List ℕ) (d : Derivation) (y : List ℕ) (e : Derivation)
        (joint : WrittenJoint)
        → IsTrue (is_written_joint lexicon x d y e joint) ↔ IsWrittenJoint lexicon x d y e joint }
    ensures listed { (lexicon : Lexicon) (x : List ℕ) (d : Derivation) (y : List ℕ) (e : Derivation)
        (joint : WrittenJoint)
        → Contains (joints_of lexicon x d y e) joint ↔ IsWrittenJoint lexicon x d y e joint }
{}
