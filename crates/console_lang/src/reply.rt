//! The replies of the console.

ghost use Rattle.std.specs.Prelude.{◌≡◌, ◌++◌, IfOk, OnOk};
ghost use Rattle.std.specs.List.{flat_map};
ghost use Rattle.std.specs.String.{string_bytes};
ghost use Rattle.console_lang.specs.Replies.{reply_text, number_line, fault_line, reply_mark_line};
ghost use Rattle.console_lang.specs.Replies.{cause_line};
ghost use Rattle.console_lang.specs.Replies.{shown_paragraph_lines, paragraphs_from};

use aff_lines::AffWhy;
use dic_reader::DicWhy;
use mark_types::lists::{Copied, NoMemory};
use mark_types::text_lines::Text;
use mark_types::{Mark, Marks};
use personal_words::OwnLineWhy;
use std::alloc::{AllocError, Global};

/// A paragraph as `show` shows it.
#[derive(Debug, Drop)]
pub enum ShownPara {
    /// It is not checked yet, or not to be checked.
    Pending,
    /// Its marks.
    Finished(Marks),
}

impl Copied for ShownPara {
    fn copy(&self, alloc: Global) -> Result<ShownPara, NoMemory> {
        match self {
            ShownPara::Pending => Ok(ShownPara::Pending),
            ShownPara::Finished(marks) => Ok(ShownPara::Finished(marks.copy(alloc)?)),
        }
    }
}

/// What the console answers to a command. Lines count from 1, and so do the places of paragraphs.
#[derive(Debug, Drop)]
pub enum Reply {
    /// The command is done; the version of the text.
    Done {
        text: u64,
    },
    /// A dictionary is loaded; its version.
    Dict {
        dict: u64,
    },
    /// The versions of text and dictionary, and all paragraphs.
    Shown {
        text: u64,
        dict: u64,
        paragraphs: mark_types::lists::Items<ShownPara>,
    },
    /// The line is no command.
    NoCommand,
    /// There is no such place; how many paragraphs there are.
    NoPlace {
        count: u64,
    },
    /// The paragraph is not there any more.
    NoGone,
    /// The paragraph has changed; how often it has.
    NoBehind {
        rev: u64,
    },
    /// The paragraph has no such bytes; how many it has.
    NoBadSpan {
        length: u64,
    },
    /// The paragraph would be too long; how many bytes it would have.
    NoTooLong {
        would: u64,
    },
    /// There is no room for one more paragraph; how many there are.
    NoFull {
        count: u64,
    },
    /// The paragraph is checked already.
    NoFinished,
    /// The paragraph is not to be checked as it is.
    NoParked,
    /// The paragraph is to be checked as it is.
    NoNotParked,
    /// A file of the dictionary is not there.
    NoMissing,
    /// The first fault of the .aff file.
    NoAff {
        line: u64,
        why: AffWhy,
    },
    /// The first fault of the .dic file.
    NoDic {
        line: u64,
        why: DicWhy,
    },
    /// What is wrong with a line of personal words.
    NoOwn {
        why: OwnLineWhy,
    },
    /// The files failed.
    NoFiles,
    /// A file of the dictionary is larger than is allowed.
    NoLarge,
}

/// The lines of a reply, each with the line feed that ends it.
pub fn write_reply(alloc: Global, reply: &Reply) -> Result<Text, NoMemory>
    ensures { IfOk result (λ written. written ≡ reply_text reply.now) }
{
    let mut written = String::new(alloc);
    push_reply(&mut written, reply)?;
    Text::from_str(alloc, written.as_str())
}

#[tactic(auto, unfolding(crate::specs::Replies::reply_text))]
fn push_reply(written: &mut String, reply: &Reply) -> Result<(), AllocError>
    ensures { OnOk result
        (string_bytes written.new ≡ string_bytes written.old ++ reply_text reply.now) }
{
    match *reply {
        Reply::Done { text } => push_number(written, "ok", text),
        Reply::Dict { dict } => push_number(written, "dict", dict),
        Reply::Shown {
            text,
            dict,
            ref paragraphs,
        } => {
            write!(written, "text {text} dict {dict}\n")?;
            push_paragraphs(written, paragraphs)?;
            written.push_str(".\n")
        }
        Reply::NoCommand => written.push_str("no Command\n"),
        Reply::NoPlace { count } => push_number(written, "no Place", count),
        Reply::NoGone => written.push_str("no Gone\n"),
        Reply::NoBehind { rev } => push_number(written, "no Behind", rev),
        Reply::NoBadSpan { length } => push_number(written, "no BadSpan", length),
        Reply::NoTooLong { would } => push_number(written, "no TooLong", would),
        Reply::NoFull { count } => push_number(written, "no Full", count),
        Reply::NoFinished => written.push_str("no Finished\n"),
        Reply::NoParked => written.push_str("no Parked\n"),
        Reply::NoNotParked => written.push_str("no NotParked\n"),
        Reply::NoMissing => written.push_str("no Missing\n"),
        Reply::NoAff { line, why } => push_fault(written, "no aff", line, why.name()),
        Reply::NoDic { line, why } => push_fault(written, "no dic", line, why.name()),
        Reply::NoOwn { why } => push_cause(written, "no own", why.name()),
        Reply::NoFiles => written.push_str("no Files\n"),
        Reply::NoLarge => written.push_str("no Large 16777216\n"),
    }
}

/// Adds a line of words and a number.
fn push_number(written: &mut String, words: &str, number: u64) -> Result<(), AllocError>
    ensures { OnOk result
        (string_bytes written.new ≡ string_bytes written.old ++ number_line words.now number) }
{
    write!(written, "{words} {number}\n")
}

/// Adds the line of a fault of a file.
fn push_fault(written: &mut String, words: &str, line: u64, why: &str) -> Result<(), AllocError>
    ensures { OnOk result
        (string_bytes written.new ≡ string_bytes written.old ++ fault_line words.now line why.now) }
{
    write!(written, "{words} {line} {why}\n")
}

/// Adds a line of words and a cause.
fn push_cause(written: &mut String, words: &str, why: &str) -> Result<(), AllocError>
    ensures { OnOk result
        (string_bytes written.new ≡ string_bytes written.old ++ cause_line words.now why.now) }
{
    write!(written, "{words} {why}\n")
}

/// Adds the lines of all paragraphs.
fn push_paragraphs(written: &mut String, paragraphs: &[ShownPara]) -> Result<(), AllocError>
    ensures { OnOk result
        (string_bytes written.new ≡ string_bytes written.old ++ paragraphs_from 1 paragraphs.now) }
{
    for (place, paragraph) in paragraphs.iter().enumerate() {
        push_paragraph(written, place as u64 + 1, paragraph)?;
    }
    Ok(())
}

/// Adds the lines of the paragraph with this number.
fn push_paragraph(
    written: &mut String,
    number: u64,
    paragraph: &ShownPara,
) -> Result<(), AllocError>
    ensures { OnOk result
        (string_bytes written.new ≡ string_bytes written.old
        ++ shown_paragraph_lines number paragraph.now) }
{
    match paragraph {
        ShownPara::Pending => write!(written, "{number} ?\n"),
        ShownPara::Finished(marks) => push_marks(written, number, marks),
    }
}

fn push_marks(written: &mut String, number: u64, marks: &[Mark]) -> Result<(), AllocError>
    ensures { OnOk result
        (string_bytes written.new ≡ string_bytes written.old
        ++ flat_map (reply_mark_line number) marks.now) }
{
    for mark in marks {
        push_mark(written, number, mark)?;
    }
    Ok(())
}

fn push_mark(written: &mut String, number: u64, mark: &Mark) -> Result<(), AllocError>
    ensures { OnOk result
        (string_bytes written.new ≡ string_bytes written.old ++ reply_mark_line number mark.now) }
{
    let Mark { from, to, .. } = *mark;
    let word = mark.word.as_str();
    write!(written, "{number} {from} {to} {word}\n")
}
