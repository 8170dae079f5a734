//! A worker that goes on until its bell is closed.

ghost use Rattle.std.specs.Prelude.{◌≡◌, IfErr};
ghost use Rattle.board_share.specs.Eyes.{CountsChecks, IsLater};
ghost use Rattle.check_workers.specs.Ends.{IsTurnFault, IsWorkEnd};

use crate::bell::Bell;
use crate::ends::{CheckEnd, WorkEnd};
use crate::worker::Worker;
use board_share::{ClaimFault, Desk, Naming};
use mark_types::Judge;
use outside::Gate;
use std::alloc::Global;
use std::sync::Wait;

/// What came of one turn of a worker.
enum Turn {
    /// A paragraph was claimed.
    Worked,
    /// None waits.
    Idle,
}

impl<J: Judge + Drop, D: Naming, R: Wait + Drop> Worker<'_, J, D, Desk<J, D, R>> {
    /// Claims, checks and finishes one paragraph after another, until the bell is closed. It waits
    /// for the bell where no paragraph waits. A check that is not wanted any more is dropped. What
    /// it claimed and finished stays so, however it ends.
    pub fn work<G: Gate>(&mut self, rt: &impl Wait, alloc: Global, gate: &G, bell: &Bell) -> WorkEnd
        ensures number { self.new.number ≡ self.old.number }
        ensures later { IsLater self.old.eye self.new.eye }
        ensures counts { CountsChecks self.old.eye self.new.eye }
        ensures end { IsWorkEnd self.old.eye self.new.eye result }
    {
        for _ in rt.forever() {
            let Some(count) = bell.hear(rt) else {
                return WorkEnd::Closed;
            };
            match self.turn(rt, alloc, gate) {
                Ok(Turn::Worked) => {}
                Ok(Turn::Idle) => bell.wait(rt, count),
                Err(ClaimFault::Spent { point }) => return WorkEnd::Spent { point },
                Err(ClaimFault::NoMemory) => return WorkEnd::NoMemory,
            }
        }
        unreachable!()
    }

    /// Claims, checks and finishes a paragraph, if one waits.
    fn turn<G: Gate>(&mut self, rt: &impl Wait, alloc: Global, gate: &G) -> Result<Turn, ClaimFault>
        ensures number { self.new.number ≡ self.old.number }
        ensures later { IsLater self.old.eye self.new.eye }
        ensures counts { CountsChecks self.old.eye self.new.eye }
        ensures short { IfErr result (IsTurnFault self.old.eye self.new.eye) }
    {
        let Some(claim) = self.claim(rt, alloc)? else {
            return Ok(Turn::Idle);
        };
        match self.check_claim(alloc, gate, &claim) {
            Ok(checked) => {
                self.conclude(rt, alloc, &claim, checked)?;
                Ok(Turn::Worked)
            }
            Err(CheckEnd::Stopped(_)) => Ok(Turn::Worked),
            Err(CheckEnd::NoMemory) => Err(ClaimFault::NoMemory),
        }
    }
}
