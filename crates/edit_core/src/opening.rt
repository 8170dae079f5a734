//! The board that a history opens with.

ghost use Rattle.std.specs.Prelude.{◌≡◌, ◌≤◌, ◌==◌, None, Some, length, map, position, IfOk, IfErr};
ghost use Rattle.std.specs.Prelude.{OnOk};
ghost use Rattle.std.specs.Arc.{arc_value};
ghost use Rattle.std.specs.List.{AllByRecursion};
ghost use Rattle.mark_types.specs.lists.Answers.{IsDueOr};
ghost use Rattle.paragraph_text.specs.Paragraphs.{HasNoBreak};
ghost use Rattle.edit_core.specs.Seen.{opening_fault, opening_of, text_fault, opening_too_long};
ghost use Rattle.edit_core.specs.declared.opening.OpeningFault.TheVariants.{NoMemory as OutOfMemory};
ghost use Rattle.edit_core.specs.declared.state.State.TheVariants.{Waiting as OfWaiting};
ghost use Rattle.paragraph_text.specs.declared.limits.TheConstants.{MOST_BYTES, MOST_PARAGRAPHS};

use crate::board::Board;
use crate::state::State;
use mark_types::Judge;
use mark_types::lists::NoMemory;
use mark_types::text_lines::Text;
use paragraph_text::{MOST_BYTES, MOST_PARAGRAPHS, Paragraphs, openings_are_valid};
use shared_items::SharedItems;
use std::alloc::{AllocError, Global};
use std::sync::Arc;

/// Why texts are no opening board: that there are too many, or what is wrong with the first that is
/// not right.
#[derive(Clone, Copy, Debug, PartialEq, Eq)]
pub enum OpeningFault {
    /// There are so many texts, more than 20,000.
    Full { count: u64 },
    /// The text at this place, from 0, has a line feed, the first at this byte.
    HasBreak { place: u64, at: u64 },
    /// The text at this place, from 0, has no line feed, and so many bytes, more than 65,536.
    TooLong { place: u64, would: u64 },
    /// Memory for the board could not be had.
    NoMemory,
}

impl From<NoMemory> for OpeningFault {
    ghost from_gives = { λ _ fault. fault ≡ OutOfMemory };

    fn from(_wanting: NoMemory) -> OpeningFault {
        OpeningFault::NoMemory
    }
}

impl<J: Judge + Drop> Board<J> {
    /// The board that a history opens with: the texts in their order, with ids from 0 on, which all
    /// wait. Its point, its versions and all revs are 0.
    pub fn opening(alloc: Global, judge: Arc<J>, texts: Vec<Text>) -> Result<Board<J>, OpeningFault>
        ensures opened { IfOk result
            (λ board. board ≡ opening_of (J.lexicon (arc_value judge)) texts.items) }
        ensures right { IfOk result (λ board. opening_fault texts.items ≡ None) }
        ensures refused { IfErr result (IsDueOr OutOfMemory (opening_fault texts.items)) }
    {
        check_texts(&texts)?;
        openings_are_valid();
        let count = texts.len();
        let states = waiting(alloc, &texts)?;
        Ok(Board {
            point: 0,
            text: 0,
            dict: 0,
            judge,
            paragraphs: Paragraphs::from_texts(alloc, texts)?,
            states,
            next_id: count as u64,
        })
    }
}

/// As many states as texts, of paragraphs that wait.
fn waiting<J: Judge + Drop>(
    alloc: Global,
    texts: &[Text],
) -> Result<SharedItems<State<J>>, NoMemory>
    ensures { IfOk result (λ states. states ≡ map (λ _. OfWaiting) texts.now) }
{
    let mut states = Vec::with_capacity(alloc, texts.len())?;
    for _text in texts {
        states.push(State::Waiting)?;
    }
    SharedItems::from_vec(alloc, states)
}

/// Whether texts may open a history.
fn check_texts(texts: &[Text]) -> Result<(), OpeningFault>
    ensures right { OnOk result (opening_fault texts.now ≡ None) }
    ensures few { OnOk result (length texts.now ≤ MOST_PARAGRAPHS) }
    ensures each { OnOk result
        (AllByRecursion (λ text. (length text ≤ MOST_BYTES) × HasNoBreak text) texts.now) }
    ensures refused { IfErr result (λ fault. opening_fault texts.now ≡ Some fault) }
{
    if texts.len() > MOST_PARAGRAPHS {
        return Err(OpeningFault::Full {
            count: texts.len() as u64,
        });
    }
    for (place, text) in texts.iter().enumerate() {
        check_text(place as u64, text.as_str())?;
    }
    Ok(())
}

/// Whether a text may be a paragraph.
fn check_text(place: u64, text: &str) -> Result<(), OpeningFault>
    ensures right { OnOk result (text_fault place text.now ≡ None) }
    ensures short { OnOk result (length text.now ≤ MOST_BYTES) }
    ensures whole { OnOk result (HasNoBreak text.now) }
    ensures refused { IfErr result (λ fault. text_fault place text.now ≡ Some fault) }
{
    match first_break(text) {
        Some(at) => Err(OpeningFault::HasBreak {
            place,
            at: at as u64,
        }),
        None => check_length(place, text.len()),
    }
}

/// The place of a text's first line feed.
fn first_break(text: &str) -> Option<usize>
    ensures { result ≡ position (λ byte. byte == 10) text.now }
{
    text.as_bytes().iter().position(|byte| *byte == b'\n')
}

/// Whether a paragraph may have so many bytes.
fn check_length(place: u64, size: usize) -> Result<(), OpeningFault>
    ensures short { OnOk result (size ≤ MOST_BYTES) }
    ensures right { OnOk result (opening_too_long place size ≡ None) }
    ensures refused { IfErr result (λ fault. opening_too_long place size ≡ Some fault) }
{
    if size <= MOST_BYTES {
        Ok(())
    } else {
        Err(OpeningFault::TooLong {
            place,
            would: size as u64,
        })
    }
}
