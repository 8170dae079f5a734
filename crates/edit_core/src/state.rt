//! How a paragraph stands, and what is kept of it.

ghost use Rattle.std.specs.Prelude.{◌≡◌};
ghost use Rattle.edit_core.specs.Runs.{is_waiting};
ghost use Rattle.edit_core.specs.Seen.{standing_of};
ghost use Rattle.edit_core.specs.Steps.{reloaded_state};
ghost use Rattle.edit_core.specs.Views.{is_finished, is_parked, shown_alone, shown_in};

use crate::view::Shown;
use mark_types::Judge;
use mark_types::lists::{Copied, NoMemory};
use paragraph_marks::Checked;
use std::alloc::Global;

/// How a paragraph stands on a board.
#[derive(Clone, Copy, Debug, PartialEq, Eq)]
pub enum Standing {
    /// It is to be checked.
    Waiting,
    /// A worker checks it.
    Held { worker: u32 },
    /// It is not to be checked before somebody asks for it.
    Parked,
    /// It is checked, and its marks are there.
    Finished,
}

/// How a paragraph stands on a board, with its check where it is finished.
#[derive(Drop)]
pub enum State<J: Judge> {
    /// It is to be checked.
    Waiting,
    /// A worker checks it.
    Held { worker: u32 },
    /// It is not to be checked before somebody asks for it.
    Parked,
    /// It is checked, and these are its marks.
    Finished(Checked<J>),
}

impl<J: Judge> State<J> {
    /// How the paragraph stands.
    pub fn standing(&self) -> Standing
        ensures { result ≡ standing_of self.now }
    {
        match self {
            State::Waiting => Standing::Waiting,
            State::Held { worker } => Standing::Held { worker: *worker },
            State::Parked => Standing::Parked,
            State::Finished(_) => Standing::Finished,
        }
    }

    /// Whether the paragraph is to be checked.
    pub(crate) fn is_waiting(&self) -> bool
        ensures { result ≡ is_waiting (standing_of self.now) }
    {
        matches!(self, State::Waiting)
    }

    /// Whether the paragraph is finished.
    pub(crate) fn is_finished(&self) -> bool
        ensures { result ≡ is_finished (standing_of self.now) }
    {
        matches!(self, State::Finished(_))
    }

    /// Whether the paragraph is parked.
    pub(crate) fn is_parked(&self) -> bool
        ensures { result ≡ is_parked (standing_of self.now) }
    {
        matches!(self, State::Parked)
    }

    /// What a board shows of the paragraph.
    pub(crate) fn shown(&self) -> Shown<'_>
        ensures { shown_in result ≡ shown_alone J.lexicon self.now }
    {
        match self {
            State::Waiting => Shown::Pending {
                parked: false,
                held_by: None,
            },
            State::Held { worker } => Shown::Pending {
                parked: false,
                held_by: Some(*worker),
            },
            State::Parked => Shown::Pending {
                parked: true,
                held_by: None,
            },
            State::Finished(checked) => Shown::Marks(checked.marks()),
        }
    }

    /// What is kept of the paragraph under another dictionary.
    pub(crate) fn reloaded(&self) -> State<J>
        ensures { result ≡ reloaded_state self.now }
    {
        match self {
            State::Parked => State::Parked,
            _ => State::Waiting,
        }
    }
}

impl<J: Judge + Drop> Copied for State<J> {
    fn copy(&self, _alloc: Global) -> Result<State<J>, NoMemory> {
        match self {
            State::Waiting => Ok(State::Waiting),
            State::Held { worker } => Ok(State::Held { worker: *worker }),
            State::Parked => Ok(State::Parked),
            State::Finished(checked) => Ok(State::Finished(checked.share()?)),
        }
    }
}
