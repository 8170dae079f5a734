//! How a check is finished.

ghost use Rattle.std.specs.Prelude.{◌≡◌, false, IfErr, IfOk, OnErr, OnOk};
ghost use Rattle.std.specs.Arc.{arc_value};
ghost use Rattle.outside.specs.lists.Answers.{IsDueOr};
ghost use Rattle.board_share.specs.edit_core.Events.{AFinish};
ghost use Rattle.board_share.specs.edit_core.Steps.{first_refusal};
ghost use Rattle.board_share.specs.edit_core.declared.refusal.Refusal.TheVariants.{NoMemory as OutOfMemory};
ghost use Rattle.board_share.specs.Events.{IsPublished};
ghost use Rattle.board_share.specs.Eyes.{CountsNothing, CountsOne, IsLater, last_of};
ghost use Rattle.check_workers.specs.Ends.{IsCutShort, IsPassedOver, refusal_of_claim};
ghost use Rattle.board_share.specs.Eyes.{CountsChecks};
ghost use Rattle.check_workers.specs.Knowing.{KnowsClaim};
ghost use Rattle.board_share.specs.Settled.{is_open_for};

use crate::laws::finishes_close;
use board_share::edit_core::{Event, Refusal};
use board_share::{Claim, ClaimFault, Desk, Eye, Naming, Told};
use mark_types::Judge;
use paragraph_marks::Checked;
use std::alloc::Global;
use std::sync::Wait;

/// Finishes a claim whose board an eye knows with a check of its text, under a worker's number.
pub(crate) fn finish_through<J: Judge + Drop, D: Naming, W: Wait + Drop>(
    rt: &impl Wait,
    alloc: Global,
    desk: &Desk<J, D, W>,
    eye: &mut Eye<J, D>,
    worker: u32,
    claim: &Claim<J>,
    checked: Checked<J>,
) -> Result<Told, Refusal>
    requires known { KnowsClaim J.lexicon eye.old.run claim.now }
    requires text { checked.text ≡ arc_value claim.now.text }
    requires lexicon { J.lexicon checked.judge ≡ J.lexicon (arc_value claim.now.judge) }
    ensures later { IsLater eye.old eye.new }
    ensures published { IfOk result
        (IsPublished
        (AFinish worker claim.now.id claim.now.rev claim.now.dict checked.text
        (J.lexicon checked.judge)) eye.old eye.new) }
    ensures counted { OnOk result
        (CountsOne
        (AFinish worker claim.now.id claim.now.rev claim.now.dict checked.text
        (J.lexicon checked.judge)) eye.old eye.new) }
    ensures refused { IfErr result
        (IsDueOr OutOfMemory
        (first_refusal (last_of eye.new.run)
        (AFinish worker claim.now.id claim.now.rev claim.now.dict checked.text
        (J.lexicon checked.judge)))) }
    ensures kept { OnErr result (CountsNothing eye.old eye.new) }
{
    let event = Event::Finish {
        worker,
        id: claim.id,
        rev: claim.rev,
        dict: claim.dict,
        checked,
    };
    desk.publish(rt, alloc, eye, event)
}

/// Finishes a claim, where its check is still wanted. Behind it no such check could be finished.
pub(crate) fn finish_if_wanted<J: Judge + Drop, D: Naming, W: Wait + Drop>(
    rt: &impl Wait,
    alloc: Global,
    desk: &Desk<J, D, W>,
    eye: &mut Eye<J, D>,
    worker: u32,
    claim: &Claim<J>,
    checked: Checked<J>,
) -> Result<(), ClaimFault>
    requires known { KnowsClaim J.lexicon eye.old.run claim.now }
    requires text { checked.text ≡ arc_value claim.now.text }
    requires lexicon { J.lexicon checked.judge ≡ J.lexicon (arc_value claim.now.judge) }
    ensures later { IsLater eye.old eye.new }
    ensures counts { CountsChecks eye.old eye.new }
    ensures closed { OnOk result
        (is_open_for claim.now.id claim.now.rev claim.now.dict (last_of eye.new.run) ≡ false) }
    ensures short { IfErr result (IsCutShort (last_of eye.new.run)) }
{
    finishes_close();
    let finished = finish_through(rt, alloc, desk, eye, worker, claim, checked);
    // What an eye knows is a history, which its point shows.
    let _point = eye.known();
    match finished {
        Ok(_told) => Ok(()),
        Err(refusal) => pass_over(refusal),
    }
}

/// Passes over a refusal of a finish, unless no other finish could come either.
fn pass_over(refusal: Refusal) -> Result<(), ClaimFault>
    ensures passed { OnOk result (IsPassedOver refusal) }
    ensures short { IfErr result (λ fault. refusal ≡ refusal_of_claim fault) }
{
    match refusal {
        Refusal::Spent { point } => Err(ClaimFault::Spent { point }),
        Refusal::NoMemory => Err(ClaimFault::NoMemory),
        _not_wanted => Ok(()),
    }
}
