//! The name of a desk.

ghost use Rattle.std.specs.Prelude.{◌≡◌, [], ◌<◌};
ghost use Rattle.board_share.specs.Logs.{head_of_book};

use crate::log::Law;
use crate::note::Note;
use logbook::{Seen, Start, Word};
use mark_types::Judge;
use std::marker::{Brand, Model};
use std::sync::ledger;
use std::sync::ledger::Ledger;

/// Which desk a desk and its eyes are of: a type parameter, for which each call that makes a desk
/// picks `Brand`. The ledger counts the events of all eyes.
pub trait Naming: Ledger {
    ghost use Rattle.logbook.specs.Pages.{Book};
    ghost use Rattle.edit_core.specs.Seen.{Seen};

    /// The book of the desk's events.
    ghost book: { Book };

    /// The board that the desk's history opens with.
    ghost opening: { Seen };
}

impl Naming for Brand {
    ghost use Rattle.board_share.specs.Namings.{no_board, no_book};

    ghost book = { no_book };

    ghost opening = { no_board };
}

/// The name of a desk that is not started yet. It takes no memory, and is made by the caller of the
/// function that has the name as a parameter.
#[derive(Drop)]
pub struct Blank<J: Judge> {
    pub(crate) ledger: ledger::Blank,
    pub(crate) head: Word<Note<J>, u64, Law>,
    pub(crate) seen: Seen<Note<J>, u64, Law>,
}

impl<J: Judge> Model for Blank<J> {
    ghost use Rattle.std.specs.Prelude.{◌≡◌, []};
    ghost use Rattle.board_share.specs.Logs.{head_of_book};
    ghost use Rattle.board_share.specs.Namings.{BlankSeen};

    ghost Value = { BlankSeen };

    ghost view = { λ inside. record {
      ledger = inside.ledger.name;
      parts = inside.ledger.parts;
      book = inside.seen.book;
    } };

    ghost invariant = { λ inside.
        (inside.seen.log ≡ []) × (inside.head ≡ head_of_book inside.seen.book) };
}

impl<J: Judge> Blank<J> {
    /// The name of a desk with so many eyes.
    pub fn new(eyes: u32) -> Blank<J>
        ensures { result.parts ≡ eyes }
    {
        let (seen, mut first, _second) = Seen::open(Start::alone(), 0, 0);
        Blank {
            ledger: ledger::Blank::new(u64::from(eyes)),
            head: Word::tracked(0, &mut first),
            seen,
        }
    }
}
