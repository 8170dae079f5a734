//! A front of the history, with the board that it ends with.

ghost use Rattle.std.specs.Prelude.{◌≡◌, ◌<◌, ◌^◌, ◌++◌, ◌∷◌, [], length, position, true, false};
ghost use Rattle.std.specs.Prelude.{Some, IfErr, IfOk, IfSome, OnOk};
ghost use Rattle.std.specs.Arc.{arc_value};
ghost use mathlib.Core.List.{IsPrefix};
ghost use Rattle.mark_types.specs.lists.Answers.{IsDueOr};
ghost use Rattle.edit_core.specs.Events.{AClaim, event_of};
ghost use Rattle.edit_core.specs.Runs.{IsRun, is_waiting, last_board};
ghost use Rattle.edit_core.specs.Seen.{IsOpening};
ghost use Rattle.edit_core.specs.Steps.{Step, first_refusal};
ghost use Rattle.edit_core.specs.declared.refusal.Refusal.TheVariants.{NoMemory as OutOfMemory};
ghost use Rattle.board_share.specs.Events.{IsFirstOf, MayPublish};
ghost use Rattle.board_share.specs.Fronts.{AreTotals};
ghost use Rattle.board_share.specs.Logs.{head_of_book};

use crate::blank::Naming;
use crate::claim::Claim;
use crate::closed::Closed;
use crate::counts::Totals;
use crate::laws::{known_checks_are_fit, waiting_is_free};
use crate::log::{Law, append};
use crate::note::Note;
use edit_core::{Board, Event, Refusal, fronts_are_runs, runs_go_on};
use left_right::Absorb;
use logbook::{Seen, Word};
use mark_types::Judge;
use mark_types::lists::NoMemory;
use std::alloc::{AllocError, Global};
use std::marker::{Model, PhantomData};
use std::sync::Arc;

/// A front of a desk's history: how many entries it has, and the board that it ends with. Contracts
/// see it as its entries.
#[derive(Drop)]
pub struct Front<J: Judge, D: Naming> {
    count: u64,
    seen: Seen<Note<J>, u64, Law>,
    board: Arc<Board<J>>,
    of: PhantomData<D>,
}

impl<J: Judge, D: Naming> Model for Front<J, D> {
    ghost use Rattle.std.specs.Prelude.{List};
    ghost use Rattle.std.specs.Arc.{arc_value};
    ghost use Rattle.edit_core.specs.Runs.{Entry};
    ghost use Rattle.board_share.specs.Fronts.{IsFrontOfBook};

    ghost Value = { List Entry };

    ghost view = { λ inside. inside.seen.log };

    ghost invariant = { λ inside.
        IsFrontOfBook D.book D.opening inside.count inside.seen.book inside.seen.log
        (arc_value inside.board) };
}

impl<J: Judge + Drop, D: Naming> Front<J, D> {
    /// The front without an entry, which ends with the opening board.
    pub(crate) fn opening(seen: Seen<Note<J>, u64, Law>, board: Arc<Board<J>>) -> Front<J, D>
        requires none { seen.log ≡ [] }
        requires book { seen.book ≡ D.book }
        requires opens { IsOpening D.opening }
        requires board { arc_value board ≡ D.opening }
        ensures { result ≡ [] }
    {
        fronts_are_runs();
        // A board is valid, which its versions show.
        let _versions = board.versions();
        Front {
            count: 0,
            seen,
            board,
            of: PhantomData,
        }
    }

    /// How many entries it has.
    pub(crate) fn count(&self) -> u64
        ensures count { result ≡ length self.now }
    {
        self.count
    }

    /// The board that it ends with.
    pub(crate) fn board(&self) -> &Arc<Board<J>>
        ensures board { arc_value result.now ≡ last_board D.opening self.now }
        ensures run { IsRun (record { opening = D.opening; entries = self.now }) }
    {
        &self.board
    }

    /// An equal front.
    pub(crate) fn again(&self) -> Result<Front<J, D>, NoMemory>
        ensures { IfOk result (λ front. front ≡ self.now) }
    {
        Ok(self.beside(Arc::try_clone(&self.board)?))
    }

    /// The same front, with another owner of its board.
    pub(crate) fn beside(&self, board: Arc<Board<J>>) -> Front<J, D>
        requires { arc_value board ≡ last_board D.opening self.now }
        ensures { result ≡ self.now }
    {
        Front {
            count: self.count,
            seen: self.seen.again(),
            board,
            of: PhantomData,
        }
    }

    /// Whether another front is longer. Of two fronts the longer goes on from the other.
    pub(crate) fn is_behind(&self, other: &Front<J, D>) -> bool
        ensures behind { result ≡ true → IsPrefix self.now other.now }
        ensures ahead { result ≡ false → IsPrefix other.now self.now }
    {
        let mut both = self.seen.again();
        both.learn(&other.seen);
        self.count < other.count
    }

    /// Goes on to another front, if that is longer. It stays as it is where the other's board can't
    /// be shared.
    #[tactic(auto, using(crate::proofs::Prefixes::prefix_self))]
    pub(crate) fn follow(&mut self, other: &Front<J, D>) -> Result<(), NoMemory>
        ensures begins { IsPrefix self.old self.new }
        ensures whole { OnOk result (IsPrefix other.now self.new) }
    {
        if !self.is_behind(other) {
            return Ok(());
        }
        *self = other.again()?;
        Ok(())
    }

    /// The board that an event makes of the one that it ends with.
    pub(crate) fn next(&self, alloc: Global, event: Event<J>) -> Result<Board<J>, Refusal>
        requires { MayPublish (record { opening = D.opening; entries = self.now })
            (event_of J.lexicon event) }
        ensures stepped { IfOk result
            (Step (last_board D.opening self.now) (event_of J.lexicon event)) }
        ensures refused { IfErr result
            (IsDueOr OutOfMemory
            (first_refusal (last_board D.opening self.now) (event_of J.lexicon event))) }
    {
        known_checks_are_fit();
        self.board.next(alloc, event)
    }

    /// What a worker is told that claims the paragraph at a place, the first that waits.
    pub(crate) fn claim(&self, place: usize) -> Result<Claim<J>, NoMemory>
        requires { position is_waiting (last_board D.opening self.now).standings ≡ Some place }
        ensures { IfOk result (IsFirstOf J.lexicon (last_board D.opening self.now)) }
    {
        // A board is valid, which its versions show.
        let versions = self.board.versions();
        match self.board.para(place) {
            None => unreachable!(),
            Some(view) => Ok(Claim {
                id: view.id,
                rev: view.rev,
                dict: versions.dict,
                text: Arc::try_clone(view.text)?,
                judge: Arc::try_clone(self.board.judge())?,
            }),
        }
    }

    /// The board on which a worker holds the paragraph at a place, the first that waits. A worker
    /// is refused it for want of memory alone.
    pub(crate) fn claimed(
        &self,
        alloc: Global,
        worker: u32,
        claim: &Claim<J>,
        place: usize,
    ) -> Result<Board<J>, Refusal>
        requires goes_on { (last_board D.opening self.now).point < 2 ^ 62 }
        requires first { position is_waiting (last_board D.opening self.now).standings
            ≡ Some place }
        requires claim { IsFirstOf J.lexicon (last_board D.opening self.now) claim.now }
        ensures stepped { IfOk result
            (Step (last_board D.opening self.now)
            (AClaim worker claim.now.id claim.now.rev)) }
        ensures refused { IfErr result (λ refusal. refusal ≡ OutOfMemory) }
    {
        waiting_is_free();
        // A board is valid, which its versions show.
        let _versions = self.board.versions();
        let event = Event::Claim {
            worker,
            id: claim.id,
            rev: claim.rev,
        };
        self.board.next_near(alloc, event, place)
    }

    /// The history that ends with this front.
    pub(crate) fn close(self, opening: Arc<Board<J>>, totals: Totals) -> Closed<J>
        requires opening { arc_value opening ≡ D.opening }
        requires totals { AreTotals self totals }
        ensures whole { result ≡ record { opening = D.opening; entries = self } }
        ensures run { IsRun result }
    {
        let Front { seen, board, .. } = self;
        Closed {
            board,
            opening,
            seen,
            totals,
        }
    }

    /// The front with one entry more, if none stands behind it yet, and the board of that entry.
    pub(crate) fn with_next(
        &self,
        head: &Word<Note<J>, u64, Law>,
        note: &Note<J>,
        board: Arc<Board<J>>,
    ) -> Option<Front<J, D>>
        requires head { head.now ≡ head_of_book D.book }
        requires step { Step (last_board D.opening self.now) note.now.event note.now.board }
        requires board { arc_value board ≡ note.now.board }
        ensures longer { IfSome result (λ front. front ≡ self.now ++ note.now ∷ []) }
        ensures last { IfSome result (λ front. last_board D.opening front ≡ note.now.board) }
    {
        fronts_are_runs();
        runs_go_on();
        let mut seen = self.seen.again();
        let count = self.count;
        if !append(head, &mut seen, count, note) {
            return None;
        }
        Some(Front {
            count: count + 1,
            seen,
            board,
            of: PhantomData,
        })
    }
}

/// What is shown is replaced by what is shown next.
impl<J: Judge + Drop, D: Naming> Absorb<Front<J, D>> for Front<J, D> {
    type State = ();

    ghost state = { λ _. tt };

    ghost applied = { λ state _. state };

    fn absorb_first(
        &mut self,
        operation: &Front<J, D>,
        _other: &Front<J, D>,
    ) -> Result<(), AllocError> {
        match operation.again() {
            Err(NoMemory) => Err(AllocError),
            Ok(next) => {
                *self = next;
                Ok(())
            }
        }
    }

    fn absorb_second(
        &mut self,
        operation: Front<J, D>,
        _other: &Front<J, D>,
    ) -> Result<(), Front<J, D>> {
        *self = operation;
        Ok(())
    }
}
