//! A document by a dictionary, to the report on it.
//!
//! A document is bytes in UTF-8, of which each line is a paragraph. At most 20,000 paragraphs are
//! read, each of at most 65,536 bytes.
#![tactic(auto)]

ghost use Rattle.std.specs.Prelude.{◌≡◌};
ghost use Rattle.std.specs.Arc.{arc_value};
ghost use Rattle.mark_types.specs.lists.Answers.{GivesDue};
ghost use Rattle.document_report.specs.Documents.{MayComeOfDocuments, document_due};
ghost use Rattle.document_report.specs.Given.{printed_by, printed_as};

mod counting;
mod fault;
mod paragraphs;
mod printing;
mod sharing;

pub use fault::DocumentFault;
use mark_types::Judge;
use paragraphs::{check_lengths, paragraphs_in, text_of};
use printing::print;
pub use printing::{Output, Report};
use std::alloc::Global;
use std::sync::Arc;
use std::thread::Threads;

/// What is to be printed of a document, by the judge's dictionary; or what is wrong first: a line
/// that is not UTF-8, then the number of the paragraphs, then the length of one.
///
/// Two workers or more share the paragraphs, each in a thread, and the caller's waits for them. It does
/// the work of a thread that cannot be started, and all of it where there are fewer workers.
#[tactic(auto, unfolding(crate::specs::Documents::document_due))]
pub fn report<R: Threads + Sync, J: Judge + Drop + Send + Sync>(
    rt: &R,
    alloc: Global,
    judge: &Arc<J>,
    workers: u64,
    output: Output,
    document: &[u8],
) -> Result<Report, DocumentFault>
    ensures due { GivesDue MayComeOfDocuments printed_by
        (document_due (printed_as output) (J.lexicon (arc_value judge.now)) document.now)
        result }
{
    let text = text_of(document)?;
    let paragraphs = paragraphs_in(alloc, text)?;
    check_lengths(&paragraphs)?;
    Ok(print(rt, alloc, judge, workers, output, &paragraphs)?)
}
