//! A worker.

ghost use Rattle.std.specs.Prelude.{◌≡◌, IfErr, IfNone, IfOk, IfSome, IsSome, OnErr, OnOk};
ghost use Rattle.std.specs.Arc.{arc_value};
ghost use Rattle.outside.specs.lists.Answers.{IsDueOr};
ghost use Rattle.board_share.specs.edit_core.Events.{AFinish};
ghost use Rattle.board_share.specs.edit_core.Steps.{first_refusal};
ghost use Rattle.board_share.specs.edit_core.declared.event.EventKind.TheVariants as kind;
ghost use Rattle.board_share.specs.edit_core.declared.refusal.Refusal.TheVariants.{NoMemory as OutOfMemory};
ghost use Rattle.board_share.specs.Events.{IsClaimFault, IsClaimed, IsPublished, NoneWaits};
ghost use Rattle.board_share.specs.Eyes.{CountsNothing, CountsOne, IsLater, counted, last_of};
ghost use Rattle.check_workers.specs.Ends.{IsCheckEnd, IsCutShort};
ghost use Rattle.board_share.specs.Eyes.{CountsChecks};
ghost use Rattle.check_workers.specs.Knowing.{KnowsClaim};

use crate::checks::check_through;
use crate::ends::CheckEnd;
use crate::finishing::{finish_if_wanted, finish_through};
use crate::keeping::Kept;
use crate::laws::claims_are_known;
use board_share::edit_core::Refusal;
use board_share::{Claim, ClaimFault, Desk, Eye, Naming, Told};
use mark_types::Judge;
use outside::Gate;
use paragraph_marks::Checked;
use std::alloc::Global;
use std::marker::Model;
use std::sync::Wait;

/// One caller of a desk that checks what waits, with a number of its own choice, which its claims
/// and finishes name. The desk counts what is published by the eye, whose number is another one.
/// It remembers verdicts by the dictionary of the claim that it checked last. `K` is the type of
/// the desk, so that what only looks says nothing of a lock. Contracts see the number and the eye.
#[derive(Drop)]
pub struct Worker<'a, J: Judge + Drop, D: Naming, K> {
    desk: &'a K,
    eye: Eye<J, D>,
    number: u32,
    kept: Option<Kept<J>>,
}

impl<'a, J: Judge + Drop, D: Naming, K> Model for Worker<'a, J, D, K> {
    ghost use Rattle.check_workers.specs.Knowing.{KnowsKept, WorkerSeen};

    ghost Value = { WorkerSeen };

    ghost view = { λ inside. record { number = inside.number; eye = inside.eye } };

    ghost invariant = { λ inside. KnowsKept J.lexicon inside.eye.run inside.kept };
}

impl<'a, J: Judge + Drop, D: Naming, K> Worker<'a, J, D, K> {
    /// A worker over an eye of the desk.
    pub fn new(desk: &'a K, eye: Eye<J, D>, number: u32) -> Worker<'a, J, D, K>
        ensures eye { result.eye ≡ eye }
        ensures number { result.number ≡ number }
    {
        Worker {
            desk,
            eye,
            number,
            kept: None,
        }
    }

    /// Its eye, as the end of the desk wants it.
    pub fn into_eye(self) -> Eye<J, D>
        ensures { result ≡ self.entry.eye }
    {
        let Worker { eye, .. } = self;
        eye
    }

    /// Checks a claim whose board its eye knows, as it does of its own claims. It looks before and
    /// behind the gate, and then each time that 32 words are judged and words are left. It waits
    /// for nobody but the gate.
    pub fn check_claim<G: Gate>(
        &mut self,
        alloc: Global,
        gate: &G,
        claim: &Claim<J>,
    ) -> Result<Checked<J>, CheckEnd>
        requires { KnowsClaim J.lexicon self.old.eye.run claim.now }
        ensures number { self.new.number ≡ self.old.number }
        ensures later { IsLater self.old.eye self.new.eye }
        ensures counts { CountsNothing self.old.eye self.new.eye }
        ensures known { KnowsClaim J.lexicon self.new.eye.run claim.now }
        ensures checked { IfOk result (λ checked. checked ≡ record {
          judge = arc_value claim.now.judge;
          text = arc_value claim.now.text;
        }) }
        ensures stopped { IfErr result (IsCheckEnd (last_of self.new.eye.run) claim.now) }
    {
        check_through(
            &mut self.eye,
            &mut self.kept,
            alloc,
            gate,
            self.number,
            claim,
        )
    }
}

impl<J: Judge + Drop, D: Naming, R: Wait + Drop> Worker<'_, J, D, Desk<J, D, R>> {
    /// Claims the first paragraph that waits on the last board of the desk; none where none waits.
    /// Its eye then knows the claim's board.
    pub fn claim(&mut self, rt: &impl Wait, alloc: Global) -> Result<Option<Claim<J>>, ClaimFault>
        ensures number { self.new.number ≡ self.old.number }
        ensures later { IsLater self.old.eye self.new.eye }
        ensures claimed { IfOk result
            (λ claimed. IfSome claimed
            (IsClaimed J.lexicon self.old.number self.old.eye self.new.eye)) }
        ensures known { IfOk result
            (λ claimed. IfSome claimed (KnowsClaim J.lexicon self.new.eye.run)) }
        ensures counted { IfOk result
            (λ claimed. IsSome claimed
            → self.new.eye.counts ≡ counted kind.Claim self.old.eye.counts) }
        ensures none { IfOk result
            (λ claimed. IfNone claimed
            (NoneWaits (last_of self.new.eye.run) × CountsNothing self.old.eye self.new.eye)) }
        ensures refused { IfErr result (IsClaimFault (last_of self.new.eye.run)) }
        ensures kept { OnErr result (CountsNothing self.old.eye self.new.eye) }
    {
        claim_through(rt, alloc, self.desk, &mut self.eye, self.number)
    }

    /// Finishes a claim whose board its eye knows with a check of its text, if the last board of
    /// the desk does not refuse it. A check that is refused is dropped.
    pub fn finish(
        &mut self,
        rt: &impl Wait,
        alloc: Global,
        claim: &Claim<J>,
        checked: Checked<J>,
    ) -> Result<Told, Refusal>
        requires known { KnowsClaim J.lexicon self.old.eye.run claim.now }
        requires text { checked.text ≡ arc_value claim.now.text }
        requires lexicon { J.lexicon checked.judge ≡ J.lexicon (arc_value claim.now.judge) }
        ensures number { self.new.number ≡ self.old.number }
        ensures later { IsLater self.old.eye self.new.eye }
        ensures published { IfOk result
            (IsPublished
            (AFinish self.old.number claim.now.id claim.now.rev claim.now.dict checked.text
            (J.lexicon checked.judge)) self.old.eye self.new.eye) }
        ensures counted { OnOk result
            (CountsOne
            (AFinish self.old.number claim.now.id claim.now.rev claim.now.dict checked.text
            (J.lexicon checked.judge)) self.old.eye self.new.eye) }
        ensures refused { IfErr result
            (IsDueOr OutOfMemory
            (first_refusal (last_of self.new.eye.run)
            (AFinish self.old.number claim.now.id claim.now.rev claim.now.dict checked.text
            (J.lexicon checked.judge)))) }
        ensures kept { OnErr result (CountsNothing self.old.eye self.new.eye) }
    {
        finish_through(
            rt,
            alloc,
            self.desk,
            &mut self.eye,
            self.number,
            claim,
            checked,
        )
    }

    /// Finishes a claim as `finish` does, and passes over a refusal that ends no other check.
    pub(crate) fn conclude(
        &mut self,
        rt: &impl Wait,
        alloc: Global,
        claim: &Claim<J>,
        checked: Checked<J>,
    ) -> Result<(), ClaimFault>
        requires known { KnowsClaim J.lexicon self.old.eye.run claim.now }
        requires text { checked.text ≡ arc_value claim.now.text }
        requires lexicon { J.lexicon checked.judge ≡ J.lexicon (arc_value claim.now.judge) }
        ensures number { self.new.number ≡ self.old.number }
        ensures later { IsLater self.old.eye self.new.eye }
        ensures counts { CountsChecks self.old.eye self.new.eye }
        ensures short { IfErr result (IsCutShort (last_of self.new.eye.run)) }
    {
        finish_if_wanted(
            rt,
            alloc,
            self.desk,
            &mut self.eye,
            self.number,
            claim,
            checked,
        )
    }
}

/// Claims a paragraph through an eye, which then knows the claim's board.
fn claim_through<J: Judge + Drop, D: Naming, W: Wait + Drop>(
    rt: &impl Wait,
    alloc: Global,
    desk: &Desk<J, D, W>,
    eye: &mut Eye<J, D>,
    worker: u32,
) -> Result<Option<Claim<J>>, ClaimFault>
    ensures later { IsLater eye.old eye.new }
    ensures claimed { IfOk result
        (λ claimed. IfSome claimed (IsClaimed J.lexicon worker eye.old eye.new)) }
    ensures known { IfOk result (λ claimed. IfSome claimed (KnowsClaim J.lexicon eye.new.run)) }
    ensures counted { IfOk result
        (λ claimed. IsSome claimed → eye.new.counts ≡ counted kind.Claim eye.old.counts) }
    ensures none { IfOk result
        (λ claimed. IfNone claimed
        (NoneWaits (last_of eye.new.run) × CountsNothing eye.old eye.new)) }
    ensures refused { IfErr result (IsClaimFault (last_of eye.new.run)) }
    ensures kept { OnErr result (CountsNothing eye.old eye.new) }
{
    claims_are_known::<J>();
    let claimed = desk.claim(rt, alloc, eye, worker);
    // What an eye knows is a history, which its point shows.
    let _point = eye.known();
    claimed
}
