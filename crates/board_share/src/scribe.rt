//! What stands under a desk's lock.

ghost use Rattle.std.specs.Prelude.{◌≡◌, ◌<◌, ◌≤◌, ◌++◌, ◌∷◌, [], length, map, true, OnErr, OnOk};
ghost use Rattle.std.specs.Prelude.{IfErr, IfOk, IfSome, IfNone, IsPermutation, IsSome};
ghost use Rattle.std.specs.Arc.{arc_value};
ghost use Rattle.std.specs.List.{AllByRecursion, range_with_len, sum_by};
ghost use Rattle.mark_types.specs.lists.Answers.{IsDueOr};
ghost use Rattle.edit_core.specs.Events.{event_of, kind_of};
ghost use Rattle.edit_core.specs.Runs.{last_board};
ghost use Rattle.edit_core.specs.Seen.{IsOpening};
ghost use Rattle.edit_core.specs.Steps.{Step, first_refusal};
ghost use Rattle.edit_core.specs.declared.event.EventKind.TheVariants as kind;
ghost use Rattle.edit_core.specs.declared.refusal.Refusal.TheVariants.{NoMemory as OutOfMemory};
ghost use Rattle.board_share.specs.Endings.{IsSeenIn, IsTheirs};
ghost use Rattle.board_share.specs.Events.{IsClaimFault, IsClaimed, IsPublished, MayPublish};
ghost use Rattle.board_share.specs.Events.{NoneWaits, id_made_by};
ghost use Rattle.board_share.specs.Eyes.{CountsNothing, CountsOne, IsLater, counted, entries_in};
ghost use Rattle.board_share.specs.Eyes.{fresh_eye, last_of};
ghost use Rattle.board_share.specs.Logs.{head_of_book};
ghost use Rattle.board_share.specs.Namings.{IsNamed};

use crate::blank::{Blank, Naming};
use crate::claim::{Claim, ClaimFault};
use crate::closed::Closed;
use crate::counts::Totals;
use crate::eye::Eye;
use crate::front::Front;
use crate::laws::all_events_are_theirs;
use crate::log::Law;
use crate::note::Note;
use crate::told::Told;
use edit_core::paragraph_text::Edit;
use edit_core::{Board, Event, EventKind, Refusal, entries_add_up};
use left_right::{Absorb, WriteHandle};
use logbook::Word;
use mark_types::Judge;
use mark_types::lists::NoMemory;
use std::alloc::Global;
use std::marker::Model;
use std::snapshot::Snapshot;
use std::sync::ledger::{Book, Share};
use std::sync::{Arc, Wait};

/// How many events a history has at most.
const LAST_POINT: u64 = 1 << 62;

/// The history's last board, and the writer that shows it. Contracts see the whole history.
#[derive(Drop)]
pub struct Scribe<J: Judge + Drop, D: Naming, R: Wait + Drop>
where
    Front<J, D>: Absorb<Front<J, D>, State = ()>,
{
    head: Word<Note<J>, u64, Law>,
    front: Front<J, D>,
    opening: Arc<Board<J>>,
    shown: WriteHandle<Front<J, D>, Front<J, D>, R>,
    book: Book<D>,
    rest: Share<D>,
    totals: Totals,
}

impl<J: Judge + Drop, D: Naming, R: Wait + Drop> Model for Scribe<J, D, R>
where
    Front<J, D>: Absorb<Front<J, D>, State = ()>,
{
    ghost use Rattle.std.specs.Prelude.{List};
    ghost use Rattle.std.specs.Arc.{arc_value};
    ghost use Rattle.edit_core.specs.Runs.{Entry};
    ghost use Rattle.board_share.specs.Fronts.{IsScribe};

    ghost Value = { List Entry };

    ghost view = { λ inside. inside.front };

    ghost invariant = { λ inside.
        IsScribe inside.front D.book inside.head D.opening (arc_value inside.opening)
        inside.book.total inside.rest.parts inside.rest.amount inside.totals };
}

impl<J: Judge + Drop, D: Naming, R: Wait + Drop> Scribe<J, D, R> {
    /// A history without an event, and its eyes, numbered from 0.
    pub(crate) fn start(
        rt: R,
        alloc: Global,
        opening: Board<J>,
        eyes: u32,
        blank: Blank<J>,
    ) -> Result<(Scribe<J, D, R>, Vec<Eye<J, D>>), NoMemory>
        requires eyes { (0 < eyes) × (eyes ≤ 64) }
        requires opens { IsOpening opening }
        requires named { IsNamed blank opening D.name D.parts D.book D.opening }
        requires parts { blank.parts ≡ eyes }
        ensures eyes { IfOk result
            (λ made. made.1.items ≡ map (fresh_eye opening) (range_with_len 0 eyes)) }
        ensures none { IfOk result (λ made. made.0 ≡ []) }
    {
        let opening = Arc::new(alloc, opening)?;
        let Blank { ledger, head, seen } = blank;
        let (book, mut rest) = ledger.open::<D>();
        let front = Front::opening(seen, Arc::try_clone(&opening)?);
        let mut shown = WriteHandle::new(alloc, rt, front.again()?, front.again()?, eyes as usize)?;
        // The writer's list has room from now on, so that showing takes no memory.
        show(&mut shown, front.again()?);
        let eyes = fresh_eyes(alloc, &front, &shown, &mut rest, eyes)?;
        let scribe = Scribe {
            head,
            front,
            opening,
            shown,
            book,
            rest,
            totals: Totals::none(),
        };
        Ok((scribe, eyes))
    }

    /// The end of the history, which takes all its eyes.
    pub(crate) fn close(self, rt: &impl Wait, eyes: Vec<Eye<J, D>>) -> Closed<J>
        requires { IsPermutation (range_with_len 0 D.parts) (map (λ eye. eye.number) eyes.items) }
        ensures { IsTheirs eyes.items result }
    {
        all_events_are_theirs();
        let Scribe {
            head: _,
            front,
            opening,
            shown: _,
            mut book,
            rest,
            totals,
        } = self;
        wait_unless_seen(rt, &front, &eyes);
        let mut all = merged(rest, eyes);
        book.audit(&mut all);
        front.close(opening, totals)
    }

    /// Publishes an event through an eye.
    pub(crate) fn publish(
        &mut self,
        alloc: Global,
        eye: &mut Eye<J, D>,
        event: Event<J>,
    ) -> Result<Told, Refusal>
        requires { MayPublish eye.old.run (event_of J.lexicon event) }
        ensures later { IsLater eye.old eye.new }
        ensures published { IfOk result
            (IsPublished (event_of J.lexicon event) eye.old eye.new) }
        ensures counted { OnOk result (CountsOne (event_of J.lexicon event) eye.old eye.new) }
        ensures refused { IfErr result
            (IsDueOr OutOfMemory
            (first_refusal (last_of eye.new.run) (event_of J.lexicon event))) }
        ensures kept { OnErr result (CountsNothing eye.old eye.new) }
    {
        eye.meet(&self.front)?;
        let made = made_by(&event, self.front.board().versions().next_id);
        let kind = event.kind();
        let asked = Snapshot::of(&event);
        let board = eye.next(alloc, event)?;
        let versions = board.versions();
        self.append(alloc, eye, asked, kind, board)?;
        Ok(Told {
            point: versions.point,
            text: versions.text,
            dict: versions.dict,
            made,
        })
    }

    /// Claims the first paragraph that waits for a worker, through an eye.
    pub(crate) fn claim(
        &mut self,
        alloc: Global,
        eye: &mut Eye<J, D>,
        worker: u32,
    ) -> Result<Option<Claim<J>>, ClaimFault>
        ensures later { IsLater eye.old eye.new }
        ensures claimed { IfOk result
            (λ claimed. IfSome claimed (IsClaimed J.lexicon worker eye.old eye.new)) }
        ensures counted { IfOk result
            (λ claimed. IsSome claimed → eye.new.counts ≡ counted kind.Claim eye.old.counts) }
        ensures none { IfOk result (λ claimed. IfNone claimed
            (NoneWaits (last_of eye.new.run) × CountsNothing eye.old eye.new)) }
        ensures refused { IfErr result (IsClaimFault (last_of eye.new.run)) }
        ensures kept { OnErr result (CountsNothing eye.old eye.new) }
    {
        eye.meet(&self.front)?;
        let Some(place) = self.front.board().first_waiting() else {
            return Ok(None);
        };
        let point = self.front.board().versions().point;
        if point >= LAST_POINT {
            return Err(ClaimFault::Spent { point });
        }
        let claim = self.front.claim(place)?;
        let board = match self.front.claimed(alloc, worker, &claim, place) {
            Ok(board) => board,
            Err(_no_memory) => return Err(ClaimFault::NoMemory),
        };
        let asked = Snapshot::of(&Event::Claim {
            worker,
            id: claim.id,
            rev: claim.rev,
        });
        self.append(alloc, eye, asked, EventKind::Claim, board)?;
        Ok(Some(claim))
    }

    /// Adds an event to the history, which made a board of the last one, and shows that board. All
    /// memory is taken first.
    fn append(
        &mut self,
        alloc: Global,
        eye: &mut Eye<J, D>,
        asked: Snapshot<Event<J>>,
        kind: EventKind,
        board: Board<J>,
    ) -> Result<(), NoMemory>
        requires met { eye.old.run.entries ≡ self.old }
        requires step { Step (last_board D.opening self.old) (event_of J.lexicon asked.value)
            board }
        requires kind { kind ≡ kind_of (event_of J.lexicon asked.value) }
        ensures number { eye.new.number ≡ eye.old.number }
        ensures opening { eye.new.run.opening ≡ eye.old.run.opening }
        ensures added { OnOk result (eye.new.run.entries ≡ eye.old.run.entries
            ++ record {
              by = eye.old.number;
              event = event_of J.lexicon asked.value;
              board = board;
            } ∷ []) }
        ensures counted { OnOk result (eye.new.counts ≡ counted kind eye.old.counts) }
        ensures kept { OnErr result (eye.new ≡ eye.old) }
    {
        entries_add_up();
        let board = Arc::new(alloc, board)?;
        let known = Arc::try_clone(&board)?;
        let shown = Arc::try_clone(&board)?;
        let note = Note {
            by: eye.number(),
            event: asked,
            board: Snapshot::of(&*board),
        };
        let Some(front) = self.front.with_next(&self.head, &note, board) else {
            return Err(NoMemory);
        };
        // There are no more entries than a u64 counts.
        let _most = front.count();
        let shown = front.beside(shown);
        eye.take_in(&mut self.book, front.beside(known), &note, kind);
        self.totals = self.totals.counted(kind);
        self.front = front;
        show(&mut self.shown, shown);
        Ok(())
    }
}

/// The id of the paragraph that an event puts in, if this is the next one.
fn made_by<J: Judge>(event: &Event<J>, next_id: u64) -> Option<u64>
    ensures { result ≡ id_made_by next_id (event_of J.lexicon event.now) }
{
    match event {
        Event::Edit {
            edit: Edit::Insert { .. },
            ..
        } => Some(next_id),
        _ => None,
    }
}

/// So many eyes that know a front without an entry, each with a part of the ledger.
fn fresh_eyes<J: Judge + Drop, D: Naming, R: Wait + Drop>(
    alloc: Global,
    front: &Front<J, D>,
    shown: &WriteHandle<Front<J, D>, Front<J, D>, R>,
    rest: &mut Share<D>,
    count: u32,
) -> Result<Vec<Eye<J, D>>, NoMemory>
    requires opening { front.now ≡ [] }
    requires parts { rest.old.parts ≡ count }
    requires amount { rest.old.amount ≡ 0 }
    ensures eyes { IfOk result
        (λ eyes. eyes.items ≡ map (fresh_eye D.opening) (range_with_len 0 count)) }
    ensures none_left { OnOk result ((rest.new.parts ≡ 0) × (rest.new.amount ≡ 0)) }
{
    let mut eyes = Vec::new(alloc);
    for number in 0..count {
        let share = rest.split_off(1, 0);
        eyes.push(Eye::fresh(number, front.again()?, shown.handle()?, share))?;
    }
    Ok(eyes)
}

/// Waits for ever, unless a front begins with what each of these eyes knows. It does, since each
/// eye learns from the desk alone, but no type says so.
fn wait_unless_seen<J: Judge + Drop, D: Naming>(
    rt: &impl Wait,
    front: &Front<J, D>,
    eyes: &[Eye<J, D>],
)
    ensures { AllByRecursion (IsSeenIn (record { opening = D.opening; entries = front.now }))
        eyes.now }
{
    if all_seen(front, eyes) {
        return;
    }
    for _ in rt.forever() {}
    unreachable!()
}

/// Whether a front begins with what each of these eyes knows.
fn all_seen<J: Judge + Drop, D: Naming>(front: &Front<J, D>, eyes: &[Eye<J, D>]) -> bool
    ensures { result ≡ true
        → AllByRecursion (IsSeenIn (record { opening = D.opening; entries = front.now })) eyes.now }
{
    for eye in eyes {
        if !eye.begins(front) {
            return false;
        }
    }
    true
}

/// The shares of these eyes together, beside one without a part.
fn merged<J: Judge + Drop, D: Naming>(rest: Share<D>, eyes: Vec<Eye<J, D>>) -> Share<D>
    requires { (rest.parts ≡ 0) × (rest.amount ≡ 0) }
    ensures parts { result.parts ≡ length eyes.items }
    ensures amount { result.amount ≡ sum_by (λ eye. entries_in eye.counts) eyes.items }
{
    let mut all = rest;
    for eye in eyes {
        all.merge(eye.into_share());
    }
    all
}

/// Shows a front to all readers. Where its place in the writer's list can't be had, readers see it
/// with the next one.
fn show<J: Judge + Drop, D: Naming, R: Wait + Drop>(
    shown: &mut WriteHandle<Front<J, D>, Front<J, D>, R>,
    front: Front<J, D>,
) {
    if shown.append(front).is_ok() {
        let _later = shown.publish();
    }
}
