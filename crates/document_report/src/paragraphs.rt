//! The paragraphs of a document: its bytes are found to be UTF-8 once, and gone over once for their
//! lines.

ghost use Rattle.std.specs.Prelude.{◌≡◌, ◌≤◌, All, IfOk, OnOk, length};
ghost use Rattle.std.specs.List.{list_any};
ghost use Rattle.mark_types.specs.lists.Answers.{GivesDue};
ghost use Rattle.mark_types.specs.text_lines.Lines.{bad_line, line_texts};
ghost use Rattle.mark_types.specs.text_lines.Texts.{texts_in};
ghost use Rattle.document_report.specs.Documents.{MayComeOfDocuments, is_long_paragraph};
ghost use Rattle.document_report.specs.Documents.{texts_unless_bad};
ghost use Rattle.document_report.specs.Documents.{texts_unless_long, unless_many};
ghost use Rattle.document_report.specs.Texts.{lent};
ghost use Rattle.paragraph_text.specs.declared.limits.TheConstants.{MOST_PARAGRAPHS, MOST_BYTES};

use crate::fault::DocumentFault;
use mark_types::text_lines::{first_line, text_of_file};
use paragraph_text::{MOST_BYTES, MOST_PARAGRAPHS};
use std::alloc::Global;

/// The text of a document, behind a byte order mark.
pub fn text_of(document: &[u8]) -> Result<&str, DocumentFault>
    ensures { GivesDue MayComeOfDocuments (λ text. texts_in text.now)
        (texts_unless_bad (bad_line document.now) (line_texts document.now)) result }
{
    text_of_file(document).map_err(|line| DocumentFault::NotUtf8 { line })
}

/// The paragraphs of a text, which are its lines, if they are not too many.
#[tactic(auto, unfolding(crate::specs::Documents::unless_many))]
pub fn paragraphs_in<'a>(alloc: Global, text: &'a str) -> Result<Vec<&'a str>, DocumentFault>
    ensures due { GivesDue MayComeOfDocuments (λ paragraphs. lent paragraphs.items)
        (unless_many (texts_in text.now)) result }
    ensures few { IfOk result (λ paragraphs. length paragraphs.items ≤ MOST_PARAGRAPHS) }
{
    let mut paragraphs = Vec::new(alloc);
    let mut rest = text;
    while !rest.is_empty() {
        if paragraphs.len() == MOST_PARAGRAPHS {
            return Err(DocumentFault::TooManyParagraphs {
                limit: MOST_PARAGRAPHS as u64,
            });
        }
        let (line, behind) = first_line(rest);
        paragraphs.push(line)?;
        rest = behind;
    }
    Ok(paragraphs)
}

/// Whether no paragraph is too long.
#[tactic(auto, unfolding(crate::specs::Documents::texts_unless_long))]
pub fn check_lengths(paragraphs: &[&str]) -> Result<(), DocumentFault>
    ensures due { GivesDue MayComeOfDocuments (λ _. lent paragraphs.now)
        (texts_unless_long (lent paragraphs.now)) result }
    ensures short { OnOk result
        (All (λ paragraph. length paragraph.now ≤ MOST_BYTES) paragraphs.now) }
{
    if has_long(paragraphs) {
        return Err(DocumentFault::LongParagraph {
            limit: MOST_BYTES as u64,
        });
    }
    Ok(())
}

fn has_long(paragraphs: &[&str]) -> bool
    ensures { result ≡ list_any (λ paragraph. is_long_paragraph paragraph.now) paragraphs.now }
{
    paragraphs
        .iter()
        .any(|paragraph| paragraph.len() > MOST_BYTES)
}
