//! The affix rules of a dictionary.
use crate::{Chars, Flag, FlagSet};
use lists::{Copied, Items, NoMemory};
use std::alloc::Global;

/// The end of a word that a rule changes.
#[derive(Clone, Copy, Debug, PartialEq, Eq)]
pub enum Side {
    Prefix,
    Suffix,
}

/// What a condition asks of one character.
#[derive(Debug, Drop)]
pub enum Piece {
    Any,
    One(char),
    Among(Chars),
    NotAmong(Chars),
}

/// What a rule asks of the end of a word that it changes, from left to right.
pub type Condition = Items<Piece>;

/// A rule of an affix class: the options PFX and SFX of hunspell(5).
#[derive(Debug, Drop)]
pub struct Rule {
    pub side: Side,
    /// The flag of the rule's class.
    pub flag: Flag,
    /// Whether a prefix and a suffix of the class may stand on one word.
    pub cross: bool,
    pub strip: Chars,
    pub add: Chars,
    /// The flags of a word that the rule is attached to.
    pub carried: FlagSet,
    pub condition: Condition,
}

impl Copied for Piece {
    fn copy(&self, alloc: Global) -> Result<Piece, NoMemory> {
        match self {
            Piece::Any => Ok(Piece::Any),
            Piece::One(only) => Ok(Piece::One(*only)),
            Piece::Among(some) => Ok(Piece::Among(some.copy(alloc)?)),
            Piece::NotAmong(some) => Ok(Piece::NotAmong(some.copy(alloc)?)),
        }
    }
}

impl Copied for Rule {
    fn copy(&self, alloc: Global) -> Result<Rule, NoMemory> {
        Ok(Rule {
            side: self.side,
            flag: self.flag,
            cross: self.cross,
            strip: self.strip.copy(alloc)?,
            add: self.add.copy(alloc)?,
            carried: self.carried.copy(alloc)?,
            condition: self.condition.copy(alloc)?,
        })
    }
}
