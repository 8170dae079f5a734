//! A list of events, one after another.

ghost use Rattle.std.specs.Prelude.{map, IfOk};
ghost use Rattle.edit_core.specs.Events.{event_of};
ghost use Rattle.edit_core.specs.Runs.{AreFit, IsAnswered, Replays};
ghost use Rattle.edit_core.specs.Steps.{IsFit};

use crate::board::Board;
use crate::event::Event;
use crate::refusal::Refusal;
use mark_types::Judge;
use mark_types::lists::NoMemory;
use std::alloc::Global;

impl<J: Judge + Drop> Board<J> {
    /// The board that events make of this one, each in its turn. A refused event leaves the board.
    /// Each check that is to finish a paragraph has to be fit for the board that is there when its
    /// turn comes.
    pub fn replay(self, alloc: Global, events: Vec<Event<J>>) -> Result<Board<J>, NoMemory>
        requires { AreFit self (map (event_of J.lexicon) events.items) }
        ensures { IfOk result (Replays self (map (event_of J.lexicon) events.items)) }
    {
        let mut board = self;
        for event in events {
            board = board.answered(alloc, event)?;
        }
        Ok(board)
    }

    /// The board that an event makes of this one, or this one, where it is refused.
    fn answered(self, alloc: Global, event: Event<J>) -> Result<Board<J>, NoMemory>
        requires { IsFit self (event_of J.lexicon event) }
        ensures { IfOk result (IsAnswered self (event_of J.lexicon event)) }
    {
        match self.next(alloc, event) {
            Ok(next) => Ok(next),
            Err(Refusal::NoMemory) => Err(NoMemory),
            Err(_) => Ok(self),
        }
    }
}
