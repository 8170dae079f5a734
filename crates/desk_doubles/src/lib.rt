//! What tests of boards and desks share: the judge by which all of them go, boards, edits and sessions.
#![tactic(auto)]

ghost use Rattle.std.specs.Prelude.{IfSome};
ghost use Rattle.board_share.specs.edit_core.Seen.{IsOpening};

mod numbers;
mod sessions;

use board_share::edit_core::Board;
use board_share::paragraph_text::Edit;
use mark_types::text_lines::Text;
pub use numbers::Numbers;
pub use sessions::{DeskSession, judge_of};
use std::alloc::Global;
use std::sync::Arc;

/// A board that opens with these paragraphs; none where memory is wanting.
pub fn opening_of(alloc: Global, texts: &[&str]) -> Option<Board<Numbers>>
    ensures { IfSome result IsOpening }
{
    let mut paragraphs = Vec::new(alloc);
    for text in texts {
        paragraphs.push(Text::from_str(alloc, text).ok()?).ok()?;
    }
    let judge = Arc::new(alloc, Numbers::new()).ok()?;
    Board::opening(alloc, judge, paragraphs).ok()
}

/// An edit that inserts a paragraph at the end; none where memory is wanting.
pub fn inserted(alloc: Global, text: &str) -> Option<Edit> {
    let text = Text::from_str(alloc, text).ok()?;
    Some(Edit::Insert { before: None, text })
}

/// An edit that puts a text in place of the first byte of a paragraph; none where memory is wanting.
pub fn replaced(alloc: Global, id: u64, rev: u64, text: &str) -> Option<Edit> {
    let text = Text::from_str(alloc, text).ok()?;
    Some(Edit::Replace {
        id,
        rev,
        from: 0,
        to: 1,
        text,
    })
}

/// The part of a text with this place, from 0, between these signs; empty where there is none.
pub fn part_at(text: &str, sign: char, place: usize) -> &str {
    text.split(sign).nth(place).unwrap_or("")
}
