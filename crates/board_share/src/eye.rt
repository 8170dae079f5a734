//! An eye.

ghost use Rattle.std.specs.Prelude.{◌≡◌, ◌+◌, ◌++◌, ◌∷◌, [], true, IfErr, IfOk, OnOk};
ghost use Rattle.std.specs.Arc.{arc_value};
ghost use mathlib.Core.List.{IsPrefix};
ghost use Rattle.mark_types.specs.lists.Answers.{IsDueOr};
ghost use Rattle.edit_core.specs.Events.{event_of, kind_of};
ghost use Rattle.edit_core.specs.Runs.{IsRun};
ghost use Rattle.edit_core.specs.Steps.{Step, first_refusal};
ghost use Rattle.edit_core.specs.Views.{progress_of};
ghost use Rattle.edit_core.specs.declared.refusal.Refusal.TheVariants.{NoMemory as OutOfMemory};
ghost use Rattle.board_share.specs.Endings.{IsSeenIn};
ghost use Rattle.board_share.specs.Events.{MayPublish};
ghost use Rattle.board_share.specs.Eyes.{CountsNothing, IsLater, counted, entries_in};
ghost use Rattle.board_share.specs.Eyes.{fresh_eye, last_of};

use crate::blank::Naming;
use crate::counts::Counts;
use crate::front::Front;
use crate::laws::counts_stay_true;
use crate::note::Note;
use edit_core::{Board, Event, EventKind, Progress, Refusal};
use left_right::ReadHandle;
use mark_types::Judge;
use mark_types::lists::NoMemory;
use std::alloc::Global;
use std::marker::Model;
use std::sync::Arc;
use std::sync::ledger::{Book, Share};

/// One reader of a desk's boards, and one caller's pass to publish events. It knows the history up
/// to the last board that its owner saw or was told of. Contracts see its number, that history, and
/// how many of its events came through this eye.
#[derive(Drop)]
pub struct Eye<J: Judge + Drop, D: Naming> {
    number: u32,
    front: Front<J, D>,
    counts: Counts,
    reader: ReadHandle<Front<J, D>>,
    share: Share<D>,
}

impl<J: Judge + Drop, D: Naming> Model for Eye<J, D> {
    ghost use Rattle.board_share.specs.Eyes.{EyeSeen};
    ghost use Rattle.board_share.specs.Fronts.{IsEye};

    ghost Value = { EyeSeen };

    ghost view = { λ inside. record {
      number = inside.number;
      run = record { opening = D.opening; entries = inside.front };
      counts = inside.counts;
    } };

    ghost invariant = { λ inside.
        IsEye inside.number inside.front inside.counts inside.share.parts inside.share.amount };
}

impl<J: Judge + Drop, D: Naming> Eye<J, D> {
    /// The board that is shown now, or one that this eye knows already and that is later. It waits
    /// for nobody. Want of memory is that the board can't be shared.
    pub fn look(&mut self) -> Result<Arc<Board<J>>, NoMemory>
        ensures later { IsLater self.old self.new }
        ensures counts { CountsNothing self.old self.new }
        ensures board { IfOk result (λ board. arc_value board ≡ last_of self.new.run) }
    {
        self.enter()?;
        Ok(Arc::try_clone(self.front.board())?)
    }

    /// How far the board is that a look would give. It waits for nobody and takes no memory.
    pub fn progress(&mut self) -> Progress
        ensures later { IsLater self.old self.new }
        ensures counts { CountsNothing self.old self.new }
        ensures progress { result ≡ progress_of (last_of self.new.run) }
    {
        let _as_before = self.enter();
        self.front.board().progress()
    }

    /// The point of the last board that this eye knows. It looks at nothing that is shared.
    pub fn known(&self) -> u64
        ensures point { result ≡ (last_of self.now.run).point }
        ensures run { IsRun self.now.run }
    {
        self.front.board().versions().point
    }

    /// Its number. The eyes of a desk are numbered from 0.
    pub fn number(&self) -> u32
        ensures { result ≡ self.now.number }
    {
        self.number
    }

    /// How many events came through this eye and were published.
    pub fn counts(&self) -> Counts
        ensures { result ≡ self.now.counts }
    {
        self.counts
    }

    /// An eye that knows the opening board alone.
    pub(crate) fn fresh(
        number: u32,
        front: Front<J, D>,
        reader: ReadHandle<Front<J, D>>,
        share: Share<D>,
    ) -> Eye<J, D>
        requires opening { front ≡ [] }
        requires part { share.parts ≡ 1 }
        requires amount { share.amount ≡ 0 }
        ensures { result ≡ fresh_eye D.opening number }
    {
        Eye {
            number,
            front,
            counts: Counts::none(),
            reader,
            share,
        }
    }

    /// Goes on to a front of the desk. Want of memory is told where the front's board can't be
    /// shared, or where the eye knows more; the eye stays as it is then.
    pub(crate) fn meet(&mut self, front: &Front<J, D>) -> Result<(), NoMemory>
        ensures later { IsLater self.old self.new }
        ensures counts { CountsNothing self.old self.new }
        ensures met { OnOk result
            (self.new.run ≡ record { opening = D.opening; entries = front.now }) }
    {
        counts_stay_true();
        self.front.follow(front)?;
        if self.front.count() > front.count() {
            return Err(NoMemory);
        }
        Ok(())
    }

    /// The board that an event makes of the last one that this eye knows.
    pub(crate) fn next(&self, alloc: Global, event: Event<J>) -> Result<Board<J>, Refusal>
        requires { MayPublish self.now.run (event_of J.lexicon event) }
        ensures stepped { IfOk result (Step (last_of self.now.run) (event_of J.lexicon event)) }
        ensures refused { IfErr result
            (IsDueOr OutOfMemory
            (first_refusal (last_of self.now.run) (event_of J.lexicon event))) }
    {
        self.front.next(alloc, event)
    }

    /// Takes in a front with one event more, which came through this eye, and counts the event.
    pub(crate) fn take_in(
        &mut self,
        book: &mut Book<D>,
        front: Front<J, D>,
        note: &Note<J>,
        kind: EventKind,
    )
        requires next { front ≡ self.old.run.entries ++ note.now ∷ [] }
        requires own { note.now.by ≡ self.old.number }
        requires kind { kind ≡ kind_of note.now.event }
        ensures number { self.new.number ≡ self.old.number }
        ensures opening { self.new.run.opening ≡ self.old.run.opening }
        ensures entries { self.new.run.entries ≡ front }
        ensures counts { self.new.counts ≡ counted kind self.old.counts }
        ensures book { book.new.total ≡ book.old.total + 1 }
    {
        counts_stay_true();
        // There are no more entries than a u64 counts.
        let _most = front.count();
        self.counts = self.counts.counted(kind);
        self.front = front;
        book.add(&mut self.share, 1);
    }

    /// Whether a front begins with what this eye knows.
    pub(crate) fn begins(&self, front: &Front<J, D>) -> bool
        ensures { result ≡ true
            → IsSeenIn (record { opening = D.opening; entries = front.now }) self.now }
    {
        counts_stay_true();
        !front.is_behind(&self.front)
    }

    /// Its share of the ledger.
    pub(crate) fn into_share(self) -> Share<D>
        ensures part { result.parts ≡ 1 }
        ensures amount { result.amount ≡ entries_in self.counts }
    {
        let Eye { share, .. } = self;
        share
    }

    /// Goes on to what is shown. It stays as it is where the desk is gone, or where the board can't
    /// be shared.
    fn enter(&mut self) -> Result<(), NoMemory>
        ensures later { IsLater self.old self.new }
        ensures counts { CountsNothing self.old self.new }
    {
        counts_stay_true();
        entered(&mut self.front, &mut self.reader)
    }
}

/// Goes on from a front to the one that is shown.
fn entered<J: Judge + Drop, D: Naming>(
    front: &mut Front<J, D>,
    reader: &mut ReadHandle<Front<J, D>>,
) -> Result<(), NoMemory>
    ensures { IsPrefix front.old front.new }
{
    match reader.enter() {
        None => Ok(()),
        Some(shown) => front.follow(&shown),
    }
}
