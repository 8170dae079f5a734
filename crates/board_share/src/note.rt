//! An entry of the history.

use edit_core::{Board, Event};
use mark_types::Judge;
use std::marker::Model;
use std::snapshot::Snapshot;

/// An entry of the history, as contracts see it. At run time it is the number of the eye through
/// which the event came, and lives no longer than the call that publishes the event.
#[derive(Drop)]
pub struct Note<J: Judge> {
    pub(crate) by: u32,
    pub(crate) event: Snapshot<Event<J>>,
    pub(crate) board: Snapshot<Board<J>>,
}

impl<J: Judge> Model for Note<J> {
    ghost use Rattle.edit_core.specs.Events.{event_of};
    ghost use Rattle.edit_core.specs.Runs.{Entry};

    ghost Value = { Entry };

    ghost view = { λ inside. record {
      by = inside.by;
      event = event_of J.lexicon inside.event.value;
      board = inside.board.value;
    } };
}
