//! The answers to the words of a line.

ghost use Rattle.std.specs.Prelude.{◌≡◌, ◌+◌, ◌<◌, ◌^◌, ◌++◌, codes, drop, length, IfOk, OnOk};
ghost use Rattle.std.specs.List.{flat_map};
ghost use Rattle.std.specs.Str.{chars};
ghost use Rattle.std.specs.String.{string_bytes};
ghost use Rattle.mark_types.specs.Words.{words_of};
ghost use Rattle.spell_types.specs.Conditions.{is_one_of};
ghost use Rattle.pipe_mode.specs.Answers.{answer_behind, bad_line_answer, begins_with, line_answer};
ghost use Rattle.pipe_mode.specs.Answers.{passed_over, text_answer, words_answer};

use crate::words::PipeSpeller;
use mark_types::lists::NoMemory;
use mark_types::text_lines::Text;
use std::alloc::{AllocError, Global};
use word_cutter::{Rest, next_word};

/// Whether a line begins with one of these characters, which are ASCII.
pub(crate) fn begins_with(some: &[u8], line: &[u8]) -> bool
    ensures { result ≡ begins_with some.now line.now }
{
    match line {
        [first, ..] => is_one_of(some, *first),
        [] => false,
    }
}

fn is_one_of(some: &[u8], byte: u8) -> bool
    ensures { result ≡ is_one_of some.now byte }
{
    some.iter().any(|other| *other == byte)
}

/// The answer to a line that is no command, by its words.
pub(crate) fn text_answer(
    alloc: Global,
    speller: &PipeSpeller<'_>,
    terse: bool,
    number: u64,
    line: &[u8],
) -> Result<Text, NoMemory>
    requires { length line.now < 2 ^ 32 }
    ensures { IfOk result (λ answer. answer ≡ text_answer speller.now terse number line.now) }
{
    let mut answer = String::new(alloc);
    push_line_answer(alloc, speller, terse, number, line, &mut answer)?;
    answer.push('\n')?;
    Text::from_str(alloc, answer.as_str())
}

/// Adds the answers to the words of a line, or that it is not UTF-8.
fn push_line_answer(
    alloc: Global,
    speller: &PipeSpeller<'_>,
    terse: bool,
    number: u64,
    line: &[u8],
    answer: &mut String,
) -> Result<(), NoMemory>
    requires { length line.now < 2 ^ 32 }
    ensures { OnOk result (string_bytes answer.new
        ≡ string_bytes answer.old ++ line_answer speller.now terse number line.now) }
{
    match std::str::from_utf8(line) {
        Ok(text) => push_answers(alloc, speller, terse, text, answer),
        Err(_) => Ok(push_bad_line(answer, number)?),
    }
}

fn push_bad_line(answer: &mut String, number: u64) -> Result<(), AllocError>
    ensures { OnOk result (string_bytes answer.new ≡ string_bytes answer.old ++ bad_line_answer number) }
{
    write!(answer, "bad {number}\n")
}

/// Adds the answers to the words of a line.
#[tactic(auto, unfolding(crate::specs::Answers::words_answer))]
fn push_answers(
    alloc: Global,
    speller: &PipeSpeller<'_>,
    terse: bool,
    line: &str,
    answer: &mut String,
) -> Result<(), NoMemory>
    requires { length line.now < 2 ^ 32 }
    ensures { OnOk result (string_bytes answer.new
        ≡ string_bytes answer.old ++ words_answer speller.now terse line.now) }
{
    let text = looked_at(line);
    let before = (line.len() - text.len()) as u32;
    push_answers_behind(alloc, speller, terse, before, text, answer)
}

/// What of a line is looked at for words: all but a `^` at its front.
fn looked_at(line: &str) -> &str
    ensures text { result.now ≡ drop (passed_over line.now) line.now }
    ensures before { passed_over line.now + length result.now ≡ length line.now }
{
    match line.strip_prefix('^') {
        Some(text) => text,
        None => line,
    }
}

/// Adds the answers to the words of a text that stands behind so many bytes of its line.
fn push_answers_behind(
    alloc: Global,
    speller: &PipeSpeller<'_>,
    terse: bool,
    before: u32,
    text: &str,
    answer: &mut String,
) -> Result<(), NoMemory>
    requires { before + length text.now < 2 ^ 32 }
    ensures { OnOk result (string_bytes answer.new
        ≡ string_bytes answer.old ++ flat_map (answer_behind speller.now terse before)
        (words_of speller.now.affixes.wordchars (chars text.now))) }
{
    let mut word = Vec::new(alloc);
    let mut rest = Rest::of(text);
    while let Some(found) = next_word(speller.wordchars(), rest, &mut word)? {
        let at = u64::from(before) + u64::from(found.from);
        speller.push_answer(alloc, terse, at, &word, answer)?;
        rest = found.rest;
    }
    Ok(())
}
