//! The pieces of a word that are decided.

ghost use Rattle.std.specs.Prelude.{◌≡◌, ◌+◌, ◌≤◌, ◌<◌, Bool, IfSome, OnOk};
ghost use Rattle.break_points.specs.declared.table.Stretch.{Stretch};
ghost use Rattle.break_points.specs.Pieces.{IsTableRight};

use spell_types::lists::NoMemory;
use std::alloc::Global;
use std::collections::BTreeMap;

/// A piece of a word: the characters from a place up to another, both from 0.
#[derive(Clone, Copy)]
pub struct Stretch {
    pub from: usize,
    pub to: usize,
}

impl Stretch {
    /// The first characters of the piece, up to this place of it.
    pub fn before(self, end: usize) -> Stretch
        requires { self.from + end ≤ self.to }
        ensures from { result.from ≡ self.from }
        ensures to { result.to ≡ self.from + end }
    {
        Stretch {
            from: self.from,
            to: self.from + end,
        }
    }

    /// The last characters of the piece, from this place of it on.
    pub fn behind(self, start: usize) -> Stretch
        requires { self.from + start ≤ self.to }
        ensures from { result.from ≡ self.from + start }
        ensures to { result.to ≡ self.to }
    {
        Stretch {
            from: self.from + start,
            to: self.to,
        }
    }
}

/// Which pieces are decided, and how.
#[derive(Drop)]
pub struct Table {
    answers: BTreeMap<(usize, usize), bool>,
}

impl Table {
    /// The table in which no piece stands.
    pub fn new(alloc: Global) -> Table
        ensures { (right : Stretch → Bool) → IsTableRight right result }
    {
        Table {
            answers: BTreeMap::new(alloc),
        }
    }

    /// The answer for a piece, if it is decided.
    pub fn get(&self, piece: Stretch) -> Option<bool>
        ensures { (right : Stretch → Bool) → IsTableRight right self.now
            → IfSome result (λ answer. answer ≡ right piece) }
    {
        self.answers.get(&(piece.from, piece.to)).copied()
    }

    /// Keeps the answer for a piece.
    pub fn put(&mut self, piece: Stretch, answer: bool) -> Result<(), NoMemory>
        ensures { (right : Stretch → Bool) → IsTableRight right self.old → answer ≡ right piece
            → OnOk result (IsTableRight right self.new) }
    {
        self.answers.insert((piece.from, piece.to), answer)?;
        Ok(())
    }
}
