//! Prints the marks of a document.

ghost use Rattle.std.specs.Prelude.{◌≡◌, ◌≤◌, ◌++◌, All, IfOk, OnOk, length, map};
ghost use Rattle.std.specs.Arc.{arc_value};
ghost use Rattle.std.specs.List.{flat_map};
ghost use Rattle.std.specs.Str.{chars};
ghost use Rattle.std.specs.String.{string_bytes};
ghost use Rattle.mark_types.specs.Marks.{located_words, marks_of};
ghost use Rattle.document_report.specs.Given.{lines_if_listed, printed_by, printed_as};
ghost use Rattle.document_report.specs.Reports.{count_line, line_of_mark, number_line};
ghost use Rattle.document_report.specs.Reports.{summary_lines};
ghost use Rattle.document_report.specs.Texts.{lent};
ghost use Rattle.paragraph_text.specs.declared.limits.TheConstants.{MOST_PARAGRAPHS, MOST_BYTES};

use crate::counting::DocumentPart;
use crate::sharing::count_in_threads;
use mark_types::lists::NoMemory;
use mark_types::{Judge, marks_are_local};
use std::alloc::{AllocError, Global};
use std::sync::Arc;
use std::thread::Threads;

/// The lines that are to be printed, and how many marks and words they tell of.
#[derive(Drop)]
pub struct Report {
    pub text: String,
    pub marks: u64,
    pub words: u64,
}

/// What is to be printed of a document.
#[derive(Clone, Copy)]
pub enum Output {
    /// A line `P S E WORD` for each mark, with its paragraph from 1 and its bytes in the paragraph
    /// from 0, and a last line `M of W`: how many of how many words are marked.
    Marks,
    /// The lines `entries E`, `words W` and `marks M`: how many entries the dictionary has, which
    /// is told, and how many words and marks there are.
    Summary { entries: u32 },
}

/// What is to be printed of these paragraphs, which so many workers share.
pub fn print<R: Threads + Sync, J: Judge + Drop + Send + Sync>(
    rt: &R,
    alloc: Global,
    judge: &Arc<J>,
    workers: u64,
    output: Output,
    paragraphs: &[&str],
) -> Result<Report, NoMemory>
    requires few { length paragraphs.now ≤ MOST_PARAGRAPHS }
    requires short { All (λ paragraph. length paragraph.now ≤ MOST_BYTES) paragraphs.now }
    ensures printed { IfOk result
        (λ report. printed_by report ≡ printed_as output (J.lexicon (arc_value judge.now))
        (map chars (lent paragraphs.now))) }
{
    let mut report = count_all(rt, alloc, judge, workers, output, paragraphs)?;
    match output {
        Output::Marks => push_count_line(&mut report.text, report.marks, report.words)?,
        Output::Summary { entries } => push_summary(
            &mut report.text,
            entries,
            report.words,
            report.marks,
        )?,
    }
    Ok(report)
}

/// How many marks and words these paragraphs have, and the lines of the marks, if these are to be
/// printed.
fn count_all<R: Threads + Sync, J: Judge + Drop + Send + Sync>(
    rt: &R,
    alloc: Global,
    judge: &Arc<J>,
    workers: u64,
    output: Output,
    paragraphs: &[&str],
) -> Result<Report, NoMemory>
    requires few { length paragraphs.now ≤ MOST_PARAGRAPHS }
    requires short { All (λ paragraph. length paragraph.now ≤ MOST_BYTES) paragraphs.now }
    ensures text { IfOk result (λ report. string_bytes report.text
        ≡ lines_if_listed output
        (flat_map line_of_mark
        (marks_of (J.lexicon (arc_value judge.now)) (map chars (lent paragraphs.now))))) }
    ensures marks { IfOk result
        (λ report. report.marks
        ≡ length (marks_of (J.lexicon (arc_value judge.now)) (map chars (lent paragraphs.now)))) }
    ensures words { IfOk result (λ report. report.words
        ≡ length (located_words (J.lexicon (arc_value judge.now)).affixes.wordchars
        (map chars (lent paragraphs.now)))) }
{
    marks_are_local();
    let part = DocumentPart {
        first: 1,
        paragraphs,
    };
    count_in_threads(rt, alloc, judge, workers, output, part)
}

fn push_count_line(text: &mut String, marks: u64, words: u64) -> Result<(), AllocError>
    ensures { OnOk result
        (string_bytes text.new ≡ string_bytes text.old ++ count_line marks words) }
{
    write!(text, "{marks} of {words}\n")
}

fn push_summary(text: &mut String, entries: u32, words: u64, marks: u64) -> Result<(), AllocError>
    ensures { OnOk result
        (string_bytes text.new ≡ string_bytes text.old ++ summary_lines entries words marks) }
{
    push_number_line(text, "entries", u64::from(entries))?;
    push_number_line(text, "words", words)?;
    push_number_line(text, "marks", marks)
}

fn push_number_line(text: &mut String, name: &str, number: u64) -> Result<(), AllocError>
    ensures { OnOk result
        (string_bytes text.new ≡ string_bytes text.old ++ number_line name.now number) }
{
    write!(text, "{name} {number}\n")
}
