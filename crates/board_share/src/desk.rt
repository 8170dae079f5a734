//! A desk.

ghost use Rattle.std.specs.Prelude.{◌≡◌, ◌<◌, ◌≤◌, map, OnErr, OnOk, IfErr, IfOk, IfSome};
ghost use Rattle.std.specs.Prelude.{IfNone, IsPermutation, IsSome};
ghost use Rattle.std.specs.Arc.{arc_value};
ghost use Rattle.std.specs.List.{range_with_len};
ghost use Rattle.mark_types.specs.lists.Answers.{IsDueOr};
ghost use Rattle.edit_core.specs.Events.{event_of};
ghost use Rattle.edit_core.specs.Seen.{IsOpening};
ghost use Rattle.edit_core.specs.Steps.{first_refusal};
ghost use Rattle.edit_core.specs.declared.event.EventKind.TheVariants as kind;
ghost use Rattle.edit_core.specs.declared.refusal.Refusal.TheVariants.{NoMemory as OutOfMemory};
ghost use Rattle.board_share.specs.Endings.{IsTheirs};
ghost use Rattle.board_share.specs.Events.{IsClaimFault, IsClaimed, IsPublished, MayPublish};
ghost use Rattle.board_share.specs.Events.{NoneWaits};
ghost use Rattle.board_share.specs.Eyes.{CountsNothing, CountsOne, IsLater, counted, fresh_eye};
ghost use Rattle.board_share.specs.Eyes.{last_of};
ghost use Rattle.board_share.specs.Namings.{IsNamed};

use crate::blank::{Blank, Naming};
use crate::claim::{Claim, ClaimFault};
use crate::closed::Closed;
use crate::eye::Eye;
use crate::scribe::Scribe;
use crate::told::Told;
use edit_core::{Board, Event, Refusal};
use mark_types::Judge;
use mark_types::lists::NoMemory;
use std::alloc::Global;
use std::sync::{Mutex, Wait};

/// One history, to which many callers add events, one at a time. It shows the last board of the
/// history to its eyes, which wait for nobody.
#[derive(Drop)]
pub struct Desk<J: Judge + Drop, D: Naming, R: Wait + Drop> {
    scribe: Mutex<Scribe<J, D, R>>,
}

impl<J: Judge + Drop, D: Naming, R: Wait + Drop> Desk<J, D, R> {
    /// A desk whose history opens with a board, and its eyes, numbered from 0. The name is one that
    /// no desk has, for as many eyes. `rt` is kept, since the end of a desk waits for its readers.
    pub fn start(
        rt: R,
        alloc: Global,
        opening: Board<J>,
        eyes: u32,
        blank: Blank<J>,
    ) -> Result<(Desk<J, D, R>, Vec<Eye<J, D>>), NoMemory>
        requires eyes { (0 < eyes) × (eyes ≤ 64) }
        requires opens { IsOpening opening }
        requires named { IsNamed blank opening D.name D.parts D.book D.opening }
        requires parts { blank.parts ≡ eyes }
        ensures { IfOk result
            (λ made. made.1.items ≡ map (fresh_eye opening) (range_with_len 0 eyes)) }
    {
        let (scribe, eyes) = Scribe::start(rt, alloc, opening, eyes, blank)?;
        let desk = Desk {
            scribe: Mutex::new(scribe),
        };
        Ok((desk, eyes))
    }

    /// Publishes an event, if the last board of the history does not refuse it. The eye then knows
    /// the history with that event, or up to the board that refused it. A check that is finished is
    /// one of a paragraph of a board that the eye knows.
    pub fn publish(
        &self,
        rt: &impl Wait,
        alloc: Global,
        eye: &mut Eye<J, D>,
        event: Event<J>,
    ) -> Result<Told, Refusal>
        requires { MayPublish eye.old.run (event_of J.lexicon event) }
        ensures later { IsLater eye.old eye.new }
        ensures published { IfOk result
            (IsPublished (event_of J.lexicon event) eye.old eye.new) }
        ensures counted { OnOk result (CountsOne (event_of J.lexicon event) eye.old eye.new) }
        ensures refused { IfErr result
            (IsDueOr OutOfMemory
            (first_refusal (last_of eye.new.run) (event_of J.lexicon event))) }
        ensures kept { OnErr result (CountsNothing eye.old eye.new) }
    {
        self.scribe.lock(rt).publish(alloc, eye, event)
    }

    /// Claims the first paragraph that waits on the last board of the history, for a worker; none
    /// where none waits.
    pub fn claim(
        &self,
        rt: &impl Wait,
        alloc: Global,
        eye: &mut Eye<J, D>,
        worker: u32,
    ) -> Result<Option<Claim<J>>, ClaimFault>
        ensures later { IsLater eye.old eye.new }
        ensures claimed { IfOk result
            (λ claimed. IfSome claimed (IsClaimed J.lexicon worker eye.old eye.new)) }
        ensures counted { IfOk result
            (λ claimed. IsSome claimed → eye.new.counts ≡ counted kind.Claim eye.old.counts) }
        ensures none { IfOk result
            (λ claimed. IfNone claimed
            (NoneWaits (last_of eye.new.run) × CountsNothing eye.old eye.new)) }
        ensures refused { IfErr result (IsClaimFault (last_of eye.new.run)) }
        ensures kept { OnErr result (CountsNothing eye.old eye.new) }
    {
        self.scribe.lock(rt).claim(alloc, eye, worker)
    }

    /// The end of the history, which takes all eyes of the desk, in any order.
    pub fn close(self, rt: &impl Wait, eyes: Vec<Eye<J, D>>) -> Closed<J>
        requires { IsPermutation (range_with_len 0 D.parts) (map (λ eye. eye.number) eyes.items) }
        ensures { IsTheirs eyes.items result }
    {
        let Desk { scribe } = self;
        scribe.into_inner().close(rt, eyes)
    }
}
