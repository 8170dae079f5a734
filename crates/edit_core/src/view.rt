//! What a board shows.

ghost use Rattle.std.specs.Prelude.{◌≡◌, ◌+◌, ◌≤◌, ℕ, List, None, Some, length, position};
ghost use Rattle.std.specs.Prelude.{slice_get, IfNone, IfSome};
ghost use Rattle.std.specs.List.{AllByRecursion, count_by};
ghost use Rattle.mark_types.specs.spell_types.declared.Lexicon.{Lexicon};
ghost use Rattle.paragraph_marks.specs.Paragraphs.{marks_in};
ghost use Rattle.edit_core.specs.Runs.{is_waiting};
ghost use Rattle.edit_core.specs.Seen.{IsValidBoard, standing_of};
ghost use Rattle.edit_core.specs.Steps.{place_of};
ghost use Rattle.edit_core.specs.Views.{ShowsParagraph, is_finished, is_parked, marks_numbered};
ghost use Rattle.edit_core.specs.Views.{progress_of};
ghost use Rattle.edit_core.specs.Views.{shown_in, versions_of};
ghost use Rattle.edit_core.specs.declared.state.Standing.TheVariants.{Waiting};

use crate::board::Board;
use crate::state::State;
use mark_types::text_lines::Text;
use mark_types::{Judge, Marks, marks_are_local};
use shared_items::SharedItems;
use std::sync::Arc;

/// What a board shows of one paragraph.
#[derive(Clone, Copy, Debug)]
pub struct ParaView<'a> {
    /// Its id, which no other paragraph has or had.
    pub id: u64,
    /// The text version that last touched it.
    pub rev: u64,
    /// Its text.
    pub text: &'a Arc<Text>,
    /// Its marks, or why there are none.
    pub shown: Shown<'a>,
}

/// The marks of a paragraph, or why they are not there.
#[derive(Clone, Copy, Debug)]
pub enum Shown<'a> {
    /// The paragraph is finished, and these are its marks by the dictionary in force.
    Marks(&'a Marks),
    /// It is not finished: whether it is parked, and which worker holds it.
    Pending { parked: bool, held_by: Option<u32> },
}

/// How far a board is: its point, its versions, and how many paragraphs there are, finished and
/// parked ones among them.
#[derive(Clone, Copy, Debug, PartialEq, Eq)]
pub struct Progress {
    pub point: u64,
    pub text: u64,
    pub dict: u64,
    pub paragraphs: u64,
    pub finished: u64,
    pub parked: u64,
}

/// Where a board stands in its history: its point, its versions, the id of the next paragraph that
/// is put in, and how many paragraphs there are.
#[derive(Clone, Copy, Debug, PartialEq, Eq)]
pub struct Versions {
    pub point: u64,
    pub text: u64,
    pub dict: u64,
    pub next_id: u64,
    pub paragraphs: u64,
}

impl<J: Judge> Board<J> {
    /// What the board shows of the paragraph with a place, from 0; none past the end. Its marks are
    /// those that it has among the marks of all texts of the board together.
    pub fn para(&self, place: usize) -> Option<ParaView<'_>>
        ensures none { IfNone result (length self.now.paragraphs ≤ place) }
        ensures some { IfSome result (ShowsParagraph self.now place) }
    {
        shown_marks_are_local();
        match self.paragraphs.get(place) {
            None => None,
            Some(para) => match self.states.get(place) {
                None => None,
                Some(state) => Some(ParaView {
                    id: para.id,
                    rev: para.rev,
                    text: &para.text,
                    shown: state.shown(),
                }),
            },
        }
    }

    /// The place of the paragraph with an id, from 0, and what the board shows of it; none where no
    /// paragraph has the id. It looks first at the place `near`, and goes over the ids only where
    /// another paragraph stands there.
    pub fn para_near(&self, id: u64, near: usize) -> Option<(usize, ParaView<'_>)>
        ensures none { IfNone result (place_of id self.now.paragraphs ≡ None) }
        ensures at { IfSome result (λ found. place_of id self.now.paragraphs ≡ Some found.0) }
        ensures some { IfSome result (λ found. ShowsParagraph self.now found.0 found.1) }
    {
        match self.paragraphs.place_near(id, near) {
            None => None,
            Some(place) => match self.para(place) {
                None => None,
                Some(view) => Some((place, view)),
            },
        }
    }

    /// The place of the first paragraph that waits, from 0; none where none waits. It goes no
    /// further than that place.
    pub fn first_waiting(&self) -> Option<usize>
        ensures first { result ≡ position is_waiting self.now.standings }
        ensures waits { IfSome result (λ place. slice_get self.now.standings place ≡ Some Waiting) }
        ensures none { IfNone result
            (AllByRecursion (λ stands. ¬ (stands ≡ Waiting)) self.now.standings) }
    {
        first_waiting_among(&self.states)
    }

    /// Where the board stands in its history. It takes no memory, and looks at no paragraph.
    pub fn versions(&self) -> Versions
        ensures versions { result ≡ versions_of self.now }
        ensures valid { IsValidBoard self.now }
    {
        Versions {
            point: self.point,
            text: self.text,
            dict: self.dict,
            next_id: self.next_id,
            paragraphs: self.paragraphs.len() as u64,
        }
    }

    /// How far the board is. It takes no memory.
    pub fn progress(&self) -> Progress
        ensures { result ≡ progress_of self.now }
    {
        Progress {
            point: self.point,
            text: self.text,
            dict: self.dict,
            paragraphs: self.paragraphs.len() as u64,
            finished: finished_among(&self.states) as u64,
            parked: parked_among(&self.states) as u64,
        }
    }
}

/// How many of these states are finished.
fn finished_among<J: Judge>(states: &SharedItems<State<J>>) -> usize
    ensures { result ≡ count_by (λ state. is_finished (standing_of state)) states.now }
{
    // There are no more of them than a usize counts.
    let _count = states.len();
    states.iter().filter(|state| state.is_finished()).count()
}

/// How many of these states are parked.
fn parked_among<J: Judge>(states: &SharedItems<State<J>>) -> usize
    ensures { result ≡ count_by (λ state. is_parked (standing_of state)) states.now }
{
    // There are no more of them than a usize counts.
    let _count = states.len();
    states.iter().filter(|state| state.is_parked()).count()
}

/// The place of the first of these states that waits.
fn first_waiting_among<J: Judge>(states: &SharedItems<State<J>>) -> Option<usize>
    ensures { result ≡ position (λ state. is_waiting (standing_of state)) states.now }
{
    // There are no more places than a usize counts.
    let _count = states.len();
    states.iter().position(|state| state.is_waiting())
}

/// The marks that a paragraph has among those of all texts together are the marks of its text
/// alone.
pub fn shown_marks_are_local()
    ensures { (lexicon : Lexicon) (texts : List (List ℕ)) (place : ℕ) (text : List ℕ)
        → slice_get texts place ≡ Some text
        → marks_numbered lexicon texts (place + 1) ≡ marks_in lexicon text }
{
    marks_are_local();
}
