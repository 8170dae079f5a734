//! Counts the words and the marks of paragraphs, and lists the marks.

ghost use Rattle.std.specs.Prelude.{◌≡◌, ◌+◌, ◌<◌, ◌≤◌, ◌^◌, ◌∷◌, [], ◌++◌, IfOk, OnOk, length};
ghost use Rattle.std.specs.Arc.{arc_value};
ghost use Rattle.std.specs.Str.{chars};
ghost use Rattle.std.specs.String.{string_bytes};
ghost use Rattle.mark_types.specs.Marks.{marks_of};
ghost use Rattle.mark_types.specs.Words.{words_of};
ghost use Rattle.document_report.specs.Given.{lines_if_listed};
ghost use Rattle.document_report.specs.Parts.{IsPartCounted, IsLimited};
ghost use Rattle.document_report.specs.Reports.{mark_lines, mark_line, paragraph_lines};
ghost use Rattle.paragraph_text.specs.declared.limits.TheConstants.{MOST_BYTES};

use crate::printing::{Output, Report};
use mark_types::lists::NoMemory;
use mark_types::{Asker, Judge, Mark, marks_are_local};
use paragraph_marks::check_counted;
use std::alloc::{AllocError, Global};
use std::sync::Arc;
use verdict_cache::Cached;

/// How many verdicts a thread remembers.
pub const VERDICTS: usize = 4_096;

/// Paragraphs that stand one after another in a document, and the number of the first of them.
#[derive(Clone, Copy)]
pub struct DocumentPart<'a> {
    pub first: u64,
    pub paragraphs: &'a [&'a str],
}

/// Counts a part by the judge alone.
pub fn count_alone<J: Judge + Drop>(
    alloc: Global,
    judge: &Arc<J>,
    output: Output,
    part: DocumentPart<'_>,
) -> Result<Report, NoMemory>
    requires { IsLimited part }
    ensures { IfOk result (IsPartCounted output (J.lexicon (arc_value judge.now)) part.entry) }
{
    let mut asker = Cached::new(alloc, Arc::try_clone(judge)?, VERDICTS)?;
    count(alloc, &mut asker, output, part)
}

/// Counts the words and the marks of a part, and lists the marks, if they are to be listed.
pub fn count<K: Asker>(
    alloc: Global,
    asker: &mut K,
    output: Output,
    part: DocumentPart<'_>,
) -> Result<Report, NoMemory>
    requires { IsLimited part }
    ensures counted { IfOk result (IsPartCounted output (K.lexicon asker.old) part.entry) }
    ensures same { K.lexicon asker.new ≡ K.lexicon asker.old }
{
    marks_are_local();
    let mut report = Report::new(alloc);
    for (place, paragraph) in part.paragraphs.iter().enumerate() {
        report.add(alloc, asker, output, part.first + place as u64, paragraph)?;
    }
    Ok(report)
}

impl Report {
    /// The report on no paragraphs.
    pub fn new(alloc: Global) -> Report
        ensures text { string_bytes result.text ≡ [] }
        ensures marks { result.marks ≡ 0 }
        ensures words { result.words ≡ 0 }
    {
        Report {
            text: String::new(alloc),
            marks: 0,
            words: 0,
        }
    }

    /// Adds the marks and the words of the paragraph with this number.
    fn add<K: Asker>(
        &mut self,
        alloc: Global,
        asker: &mut K,
        output: Output,
        number: u64,
        paragraph: &str,
    ) -> Result<(), NoMemory>
        requires short { length paragraph.now ≤ MOST_BYTES }
        requires room { self.old.words + MOST_BYTES < 2 ^ 64 }
        requires fewer { self.old.marks ≤ self.old.words }
        ensures text { OnOk result (string_bytes self.new.text
            ≡ string_bytes self.old.text
            ++ lines_if_listed output (paragraph_lines (K.lexicon asker.old) number (chars paragraph.now))) }
        ensures marks { OnOk result
            (self.new.marks ≡ self.old.marks
            + length (marks_of (K.lexicon asker.old) (chars paragraph.now ∷ []))) }
        ensures words { OnOk result
            (self.new.words ≡ self.old.words
            + length (words_of (K.lexicon asker.old).affixes.wordchars (chars paragraph.now))) }
        ensures grown { OnOk result (self.new.words ≤ self.old.words + MOST_BYTES) }
        ensures fewer { OnOk result (self.new.marks ≤ self.new.words) }
        ensures same { K.lexicon asker.new ≡ K.lexicon asker.old }
    {
        let counted = check_counted(alloc, asker, paragraph)?;
        self.marks += counted.marks.len() as u64;
        self.words += u64::from(counted.words);
        push_listed(&mut self.text, output, number, counted.marks.as_slice())?;
        Ok(())
    }

    /// Adds what is counted and listed of paragraphs that stand behind these.
    pub fn append(&mut self, later: &Report) -> Result<(), NoMemory>
        requires room { self.old.words + later.now.words < 2 ^ 64 }
        requires fewer { self.old.marks ≤ self.old.words }
        requires later_fewer { later.now.marks ≤ later.now.words }
        ensures text { OnOk result (string_bytes self.new.text
            ≡ string_bytes self.old.text ++ string_bytes later.now.text) }
        ensures marks { OnOk result (self.new.marks ≡ self.old.marks + later.now.marks) }
        ensures words { OnOk result (self.new.words ≡ self.old.words + later.now.words) }
    {
        self.text.push_str(&later.text)?;
        self.marks += later.marks;
        self.words += later.words;
        Ok(())
    }
}

/// Adds the lines of the marks of the paragraph with this number, if lines of marks are to be
/// printed.
fn push_listed(
    text: &mut String,
    output: Output,
    number: u64,
    marks: &[Mark],
) -> Result<(), AllocError>
    ensures { OnOk result
        (string_bytes text.new ≡ string_bytes text.old
        ++ lines_if_listed output (mark_lines number marks.now)) }
{
    match output {
        Output::Marks => push_marks(text, number, marks),
        Output::Summary { .. } => Ok(()),
    }
}

fn push_marks(text: &mut String, number: u64, marks: &[Mark]) -> Result<(), AllocError>
    ensures { OnOk result
        (string_bytes text.new ≡ string_bytes text.old ++ mark_lines number marks.now) }
{
    for mark in marks {
        push_mark(text, number, mark)?;
    }
    Ok(())
}

fn push_mark(text: &mut String, number: u64, mark: &Mark) -> Result<(), AllocError>
    ensures { OnOk result (string_bytes text.new
        ≡ string_bytes text.old ++ mark_line number mark.now.from mark.now.to mark.now.word) }
{
    let from = mark.from;
    let to = mark.to;
    let word = mark.word.as_str();
    write!(text, "{number} {from} {to} {word}\n")
}
