//! The history of a desk that is closed.

ghost use Rattle.std.specs.Prelude.{◌≡◌};
ghost use Rattle.std.specs.Arc.{arc_value};
ghost use Rattle.edit_core.specs.Runs.{IsRun, entries_of};
ghost use Rattle.edit_core.specs.declared.event.EventKind.TheVariants as kind;
ghost use Rattle.board_share.specs.Eyes.{last_of};

use crate::counts::Totals;
use crate::log::Law;
use crate::note::Note;
use edit_core::Board;
use logbook::Seen;
use mark_types::Judge;
use std::marker::Model;
use std::sync::Arc;

/// The end of a desk, which only closing it makes. Contracts see the whole history of that desk,
/// which no running code can read: it is its last board and how many edits and loads it has.
#[derive(Drop)]
pub struct Closed<J: Judge> {
    pub(crate) board: Arc<Board<J>>,
    pub(crate) opening: Arc<Board<J>>,
    pub(crate) seen: Seen<Note<J>, u64, Law>,
    pub(crate) totals: Totals,
}

impl<J: Judge> Model for Closed<J> {
    ghost use Rattle.std.specs.Arc.{arc_value};
    ghost use Rattle.edit_core.specs.Runs.{Run};
    ghost use Rattle.board_share.specs.Fronts.{IsClosed};

    ghost Value = { Run };

    ghost view = { λ inside. record {
      opening = arc_value inside.opening;
      entries = inside.seen.log;
    } };

    ghost invariant = { λ inside.
        IsClosed (arc_value inside.opening) (arc_value inside.board) inside.seen.log
        inside.totals };
}

impl<J: Judge> Closed<J> {
    /// The last board of the history.
    pub fn board(&self) -> &Arc<Board<J>>
        ensures board { arc_value result.now ≡ last_of self.now }
        ensures run { IsRun self.now }
    {
        &self.board
    }

    /// How many edits the history has.
    pub fn edits(&self) -> u64
        ensures { result ≡ entries_of kind.Edit self.now.entries }
    {
        self.totals.edits
    }

    /// How many dictionaries were loaded in the history.
    pub fn loads(&self) -> u64
        ensures { result ≡ entries_of kind.Load self.now.entries }
    {
        self.totals.loads
    }
}
