//! What a desk opens with.

ghost use Rattle.std.specs.Prelude.{IfOk};
ghost use Rattle.board_share.specs.edit_core.Seen.{IsOpening};

use anyhow::Context;
use board_share::edit_core::Board;
use mark_types::Judge;
use mark_types::text_lines::Text;
use outside::Files;
use own_dictionary::load;
use std::alloc::Global;
use std::sync::Arc;
use word_verdict::Speller;

/// The dictionary of two files.
pub(crate) fn speller_of<F: Files>(
    alloc: Global,
    files: &mut F,
    aff: &str,
    dic: &str,
) -> anyhow::Result<Arc<Speller>> {
    let speller = load(alloc, files, aff, dic).ok().context("no dictionary")?;
    Ok(Arc::new(alloc, speller)?)
}

/// A board of the lines of a text.
pub(crate) fn opening_of<J: Judge + Drop>(
    alloc: Global,
    judge: Arc<J>,
    text: &str,
) -> anyhow::Result<Board<J>>
    ensures { IfOk result IsOpening }
{
    let mut paragraphs = Vec::new(alloc);
    for line in text.lines() {
        let text = Text::from_str(alloc, line).ok().context("no memory")?;
        paragraphs.push(text)?;
    }
    Board::opening(alloc, judge, paragraphs)
        .ok()
        .context("no board")
}
