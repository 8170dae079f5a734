//! The marks of a board.

use anyhow::Context;
use board_share::edit_core::Board;
use paragraph_marks::{Plain, check};
use std::alloc::Global;
use std::sync::Arc;
use word_verdict::Speller;

/// How many bytes a paragraph has at most.
const MOST_BYTES: usize = 65_536;

/// Prints the versions of a board, and each word of it that its dictionary does not know: the
/// number of the paragraph from 1, and the word's place in bytes from 0, its end exclusive.
pub(super) fn print_marks(
    rt: &impl Print,
    alloc: Global,
    board: &Board<Speller>,
) -> anyhow::Result<()> {
    let versions = board.versions();
    println!(rt; "text {} dict {}", versions.text, versions.dict)?;
    for place in 0..versions.paragraphs as usize {
        if let Some(view) = board.para(place) {
            print_paragraph(rt, alloc, board, place, view.text.as_str())?;
        }
    }
    Ok(())
}

fn print_paragraph(
    rt: &impl Print,
    alloc: Global,
    board: &Board<Speller>,
    place: usize,
    text: &str,
) -> anyhow::Result<()> {
    if text.len() > MOST_BYTES {
        return Ok(());
    }
    let mut asker = Plain::new(Arc::try_clone(board.judge())?);
    let marks = check(alloc, &mut asker, text)
        .ok()
        .context("no memory for marks")?;
    for mark in marks.as_slice() {
        println!(rt;
            "{} {} {} {}",
            place.saturating_add(1),
            mark.from,
            mark.to,
            mark.word.as_str()
        )?;
    }
    Ok(())
}
