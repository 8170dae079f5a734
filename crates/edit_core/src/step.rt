//! What an event makes of a board.

ghost use Rattle.std.specs.Prelude.{◌≡◌, ◌+◌, ◌<◌, ◌^◌, ◌==◌, ℕ, true, Option, None, Some, length};
ghost use Rattle.std.specs.Prelude.{map, set, slice_get, IfOk, IfErr, IfSome, OnOk, OnErr, IfNone};
ghost use Rattle.std.specs.Arc.{arc_value};
ghost use Rattle.std.specs.Option.{option_map};
ghost use Rattle.mark_types.specs.lists.Answers.{IsDueOr};
ghost use Rattle.paragraph_text.specs.Paragraphs.{Paragraph};
ghost use Rattle.paragraph_text.specs.Edits.{edit_refusal, next_id_after};
ghost use Rattle.edit_core.specs.Seen.{IsCheckOfParagraph, standing_of};
ghost use Rattle.edit_core.specs.Events.{event_of};
ghost use Rattle.edit_core.specs.Steps.{Edits, IsFit, IsFitCheck, IsBoardFoundAt, Loads, MayClaim};
ghost use Rattle.edit_core.specs.Steps.{MayFinish, Moves, Step, claim_refusal, finish_refusal};
ghost use Rattle.edit_core.specs.Steps.{first_refusal, found, gone_or, is_open, not_parked};
ghost use Rattle.edit_core.specs.Steps.{not_waiting, outdated, refusal_of, reloaded_state, settled};
ghost use Rattle.edit_core.specs.Steps.{unless};
ghost use Rattle.edit_core.specs.declared.refusal.Refusal.TheVariants.{Behind, Gone};
ghost use Rattle.edit_core.specs.declared.refusal.Refusal.TheVariants.{NoMemory as OutOfMemory};
ghost use Rattle.edit_core.specs.declared.state.Standing.TheVariants.{Finished, Held, Parked};
ghost use Rattle.edit_core.specs.declared.state.Standing.TheVariants.{Waiting};

use crate::board::Board;
use crate::event::Event;
use crate::refusal::Refusal;
use crate::state::{Standing, State};
use mark_types::Judge;
use mark_types::lists::{Copied, NoMemory};
use paragraph_marks::Checked;
use paragraph_text::{Edit, apply_near, kept_beside};
use shared_items::SharedItems;
use std::alloc::Global;
use std::sync::Arc;

/// How many events a history has at most.
const LAST_POINT: u64 = 1 << 62;

/// Where a paragraph stands on a board, with its rev and how it stands.
#[derive(Clone, Copy, Debug)]
struct FoundParagraph {
    place: usize,
    rev: u64,
    standing: Standing,
}

impl<J: Judge + Drop> Board<J> {
    /// The board that an event makes of this one, which stays as it is. A check that is finished is
    /// one of the paragraph's text by the dictionary in force, if its rev and its dictionary
    /// version are the board's. The paragraph that the event names is looked for near the place
    /// that has the number of its id.
    pub fn next(&self, alloc: Global, event: Event<J>) -> Result<Board<J>, Refusal>
        requires { IsFit self.now (event_of J.lexicon event) }
        ensures stepped { IfOk result (Step self.now (event_of J.lexicon event)) }
        ensures refused { IfErr result
            (IsDueOr OutOfMemory (first_refusal self.now (event_of J.lexicon event))) }
    {
        let near = event.likely_place();
        self.next_near(alloc, event, near)
    }

    /// The same board. The paragraph that the event names is looked for at the place `near` first;
    /// where it stands there no other is looked at.
    pub fn next_near(
        &self,
        alloc: Global,
        event: Event<J>,
        near: usize,
    ) -> Result<Board<J>, Refusal>
        requires { IsFit self.now (event_of J.lexicon event) }
        ensures stepped { IfOk result (Step self.now (event_of J.lexicon event)) }
        ensures refused { IfErr result
            (IsDueOr OutOfMemory (first_refusal self.now (event_of J.lexicon event))) }
    {
        if self.point >= LAST_POINT {
            return Err(Refusal::Spent { point: self.point });
        }
        match event {
            Event::Edit { session: _, edit } => self.board_after_edit(alloc, &edit, near),
            Event::Load { judge } => Ok(self.board_after_load(alloc, judge)?),
            Event::Claim { worker, id, rev } => self.board_after_claim(
                alloc, worker, id, rev, near,
            ),
            Event::Finish {
                worker: _,
                id,
                rev,
                dict,
                checked,
            } => self.board_after_finish(alloc, id, rev, dict, checked, near),
            Event::Park { session: _, id } => self.board_after_park(alloc, id, near),
            Event::Ask { session: _, id } => self.board_after_ask(alloc, id, near),
        }
    }

    /// The board behind an edit.
    fn board_after_edit(&self, alloc: Global, edit: &Edit, near: usize) -> Result<Board<J>, Refusal>
        requires { self.now.point < 2 ^ 62 }
        ensures made { IfOk result (Edits self.now edit.now) }
        ensures refused { IfErr result
            (IsDueOr OutOfMemory
            (option_map refusal_of (edit_refusal self.now.paragraphs edit.now))) }
    {
        let text = self.text + 1;
        let paragraphs = apply_near(alloc, &self.paragraphs, text, self.next_id, edit, near)?;
        Ok(Board {
            point: self.point + 1,
            text,
            dict: self.dict,
            judge: Arc::try_clone(&self.judge)?,
            paragraphs,
            states: kept_beside(
                alloc,
                &self.paragraphs,
                edit,
                near,
                &self.states,
                State::Waiting,
            )?,
            next_id: next_id_after(self.next_id, edit),
        })
    }

    /// The board under another dictionary.
    fn board_after_load(&self, alloc: Global, judge: Arc<J>) -> Result<Board<J>, NoMemory>
        requires { self.now.point < 2 ^ 62 }
        ensures { IfOk result (Loads self.now (J.lexicon (arc_value judge))) }
    {
        Ok(Board {
            point: self.point + 1,
            text: self.text,
            dict: self.dict + 1,
            judge,
            paragraphs: self.paragraphs.copy(alloc)?,
            states: reloaded_states(alloc, &self.states)?,
            next_id: self.next_id,
        })
    }

    /// The board on which a worker holds a paragraph.
    fn board_after_claim(
        &self,
        alloc: Global,
        worker: u32,
        id: u64,
        rev: u64,
        near: usize,
    ) -> Result<Board<J>, Refusal>
        requires { self.now.point < 2 ^ 62 }
        ensures made { IfOk result (Moves self.now id (MayClaim rev) (Held worker)) }
        ensures refused { IfErr result
            (IsDueOr OutOfMemory (gone_or id self.now (claim_refusal rev))) }
    {
        let found = self.current(id, near)?;
        found.check_rev(rev)?;
        found.check_waiting()?;
        Ok(self.with_state(alloc, found.place, State::Held { worker })?)
    }

    /// The board on which a paragraph is finished.
    fn board_after_finish(
        &self,
        alloc: Global,
        id: u64,
        rev: u64,
        dict: u64,
        checked: Checked<J>,
        near: usize,
    ) -> Result<Board<J>, Refusal>
        requires goes_on { self.now.point < 2 ^ 62 }
        requires fit { IsFitCheck self.now id rev dict checked.text (J.lexicon checked.judge) }
        ensures made { IfOk result
            (Moves self.now id (MayFinish self.now rev dict checked.text (J.lexicon checked.judge))
            Finished) }
        ensures refused { IfErr result
            (IsDueOr OutOfMemory (gone_or id self.now (finish_refusal self.now rev dict))) }
    {
        let found = self.current(id, near)?;
        found.check_rev(rev)?;
        self.check_dict(dict)?;
        found.check_open()?;
        Ok(self.with_state(alloc, found.place, State::Finished(checked))?)
    }

    /// The board on which a paragraph is parked.
    fn board_after_park(&self, alloc: Global, id: u64, near: usize) -> Result<Board<J>, Refusal>
        requires { self.now.point < 2 ^ 62 }
        ensures made { IfOk result (Moves self.now id (λ _ stands. is_open stands ≡ true) Parked) }
        ensures refused { IfErr result
            (IsDueOr OutOfMemory
            (gone_or id self.now (λ paragraph stands. settled paragraph.rev stands))) }
    {
        let found = self.current(id, near)?;
        found.check_open()?;
        Ok(self.with_state(alloc, found.place, State::Parked)?)
    }

    /// The board on which a parked paragraph waits again.
    fn board_after_ask(&self, alloc: Global, id: u64, near: usize) -> Result<Board<J>, Refusal>
        requires { self.now.point < 2 ^ 62 }
        ensures made { IfOk result (Moves self.now id (λ _ stands. stands ≡ Parked) Waiting) }
        ensures refused { IfErr result
            (IsDueOr OutOfMemory
            (gone_or id self.now (λ paragraph stands. not_parked paragraph.rev stands))) }
    {
        let found = self.current(id, near)?;
        found.check_parked()?;
        Ok(self.with_state(alloc, found.place, State::Waiting)?)
    }

    /// Where the paragraph with an id stands, or that it is gone. It is looked for at a place
    /// first.
    fn current(&self, id: u64, near: usize) -> Result<FoundParagraph, Refusal>
        ensures found { IfOk result (λ row. IsBoardFoundAt self.now id row.place row.rev row.standing) }
        ensures inside { IfOk result (λ row. row.place < length self.now.standings) }
        ensures gone { IfErr result (λ refusal. refusal ≡ Gone id) }
        ensures none { OnErr result (found id self.now ≡ None) }
    {
        match self.found(id, near) {
            None => Err(Refusal::Gone { id }),
            Some(found) => Ok(found),
        }
    }

    /// Where the paragraph with an id stands.
    fn found(&self, id: u64, near: usize) -> Option<FoundParagraph>
        ensures none { IfNone result (found id self.now ≡ None) }
        ensures found { IfSome result
            (λ row. IsBoardFoundAt self.now id row.place row.rev row.standing) }
        ensures inside { IfSome result (λ row. row.place < length self.now.standings) }
    {
        match self.paragraphs.place_near(id, near) {
            None => None,
            Some(place) => match self.paragraphs.get(place) {
                None => None,
                Some(para) => match self.states.get(place) {
                    None => None,
                    Some(state) => Some(FoundParagraph {
                        place,
                        rev: para.rev,
                        standing: state.standing(),
                    }),
                },
            },
        }
    }

    /// Whether a dictionary version is the one in force.
    fn check_dict(&self, dict: u64) -> Result<(), Refusal>
        ensures in_force { OnOk result (self.now.dict_version ≡ dict) }
        ensures passed { OnOk result (outdated self.now dict ≡ None) }
        ensures refused { IfErr result (λ refusal. outdated self.now dict ≡ Some refusal) }
    {
        if self.dict == dict {
            Ok(())
        } else {
            Err(Refusal::Reloaded { dict: self.dict })
        }
    }

    /// The next board, on which the paragraph with a place has another state.
    fn with_state(&self, alloc: Global, place: usize, state: State<J>) -> Result<Board<J>, NoMemory>
        requires goes_on { self.now.point < 2 ^ 62 }
        requires inside { place < length self.now.standings }
        requires theirs { (paragraph : Paragraph) → slice_get self.now.paragraphs place
            ≡ Some paragraph
            → IsCheckOfParagraph J.lexicon self.now.lexicon paragraph state }
        ensures { IfOk result (λ after. after ≡ record self.now {
          point = self.now.point + 1;
          standings = set self.now.standings place (standing_of state);
        }) }
    {
        let point = self.point + 1;
        Ok(Board {
            point,
            text: self.text,
            dict: self.dict,
            judge: Arc::try_clone(&self.judge)?,
            paragraphs: self.paragraphs.copy(alloc)?,
            states: self.states.replaced(alloc, place, state)?,
            next_id: self.next_id,
        })
    }
}

impl FoundParagraph {
    /// Whether the paragraph has a rev.
    fn check_rev(&self, rev: u64) -> Result<(), Refusal>
        ensures current { OnOk result (self.now.rev ≡ rev) }
        ensures passed { OnOk result (unless (self.now.rev == rev) (Behind self.now.rev) ≡ None) }
        ensures refused { IfErr result
            (λ refusal. unless (self.now.rev == rev) (Behind self.now.rev) ≡ Some refusal) }
    {
        if self.rev == rev {
            Ok(())
        } else {
            Err(Refusal::Behind { rev: self.rev })
        }
    }

    /// Whether the paragraph waits.
    fn check_waiting(&self) -> Result<(), Refusal>
        ensures waits { OnOk result (self.now.standing ≡ Waiting) }
        ensures passed { OnOk result (not_waiting self.now.rev self.now.standing ≡ None) }
        ensures refused { IfErr result
            (λ refusal. not_waiting self.now.rev self.now.standing ≡ Some refusal) }
    {
        match self.standing {
            Standing::Held { worker } => Err(Refusal::Taken { by: worker }),
            _ => self.check_open(),
        }
    }

    /// Whether the paragraph is neither finished nor parked.
    fn check_open(&self) -> Result<(), Refusal>
        ensures free { OnOk result (is_open self.now.standing ≡ true) }
        ensures passed { OnOk result (settled self.now.rev self.now.standing ≡ None) }
        ensures refused { IfErr result
            (λ refusal. settled self.now.rev self.now.standing ≡ Some refusal) }
    {
        match self.standing {
            Standing::Waiting | Standing::Held { .. } => Ok(()),
            Standing::Finished => Err(Refusal::Finished { rev: self.rev }),
            Standing::Parked => Err(Refusal::Parked { rev: self.rev }),
        }
    }

    /// Whether the paragraph is parked.
    fn check_parked(&self) -> Result<(), Refusal>
        ensures parked { OnOk result (self.now.standing ≡ Parked) }
        ensures passed { OnOk result (not_parked self.now.rev self.now.standing ≡ None) }
        ensures refused { IfErr result
            (λ refusal. not_parked self.now.rev self.now.standing ≡ Some refusal) }
    {
        match self.standing {
            Standing::Parked => Ok(()),
            _ => Err(Refusal::NotParked { rev: self.rev }),
        }
    }
}

/// The next id behind an edit.
fn next_id_after(next_id: u64, edit: &Edit) -> u64
    requires { next_id < 2 ^ 63 }
    ensures { result ≡ next_id_after next_id edit.now }
{
    match edit {
        Edit::Insert { .. } => next_id + 1,
        _ => next_id,
    }
}

/// The states under another dictionary: all paragraphs wait but those that are parked.
fn reloaded_states<J: Judge + Drop>(
    alloc: Global,
    states: &SharedItems<State<J>>,
) -> Result<SharedItems<State<J>>, NoMemory>
    ensures { IfOk result (λ made. made ≡ map reloaded_state states.now) }
{
    let mut made = Vec::with_capacity(alloc, states.len())?;
    for state in states {
        made.push(state.reloaded())?;
    }
    SharedItems::from_vec(alloc, made)
}
