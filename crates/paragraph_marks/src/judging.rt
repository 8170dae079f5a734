//! Judges the words of a paragraph one after another.

ghost use Rattle.std.specs.Prelude.{◌≡◌, ◌+◌, ◌<◌, ◌≤◌, ◌^◌, [], ◌∷◌, ◌++◌, IfNone, IfOk, IfSome};
ghost use Rattle.std.specs.Prelude.{OnOk, encode_utf8_all, drop, take, length, if◌then◌else◌};
ghost use Rattle.std.specs.Str.{chars};
ghost use Rattle.std.specs.String.{string_bytes};
ghost use Rattle.mark_types.specs.Words.{words_of};
ghost use Rattle.word_cutter.specs.Runs.{IsBehind, found_word, words_after};
ghost use Rattle.paragraph_marks.specs.Judging.{IsNextJudged};
ghost use Rattle.paragraph_marks.specs.Paragraphs.{mark_at, marks_among, marks_in};

use mark_types::lists::{Items, NoMemory};
use mark_types::text_lines::Text;
use mark_types::{Asker, Mark, Marks, marks_are_local, words_stand_in_their_text};
use std::alloc::{AllocError, Global};
use word_cutter::{FoundWord, Rest, next_word};

/// The marks of a paragraph, and how many words it has.
#[derive(Debug, Drop)]
pub struct CountedMarks {
    /// They rise.
    pub marks: Marks,
    pub words: u32,
}

/// What is left of a paragraph behind words that were judged, and how many these were.
#[derive(Clone, Copy)]
pub struct Passed<'a> {
    pub left: Rest<'a>,
    pub words: u32,
}

/// A word of a paragraph that was judged.
#[derive(Clone, Copy)]
struct JudgedWord<'a> {
    /// Where it stands, and what is left behind it.
    found: FoundWord<'a>,
    /// Whether the dictionary generates it.
    is_known: bool,
}

/// The marks of a paragraph, rising: the words that the asker's dictionary does not generate. A
/// text without such a word needs no memory for its marks.
pub fn check<K: Asker>(alloc: Global, asker: &mut K, text: &str) -> Result<Marks, NoMemory>
    requires small { length text.now < 2 ^ 32 }
    ensures marks { IfOk result (λ marks. marks ≡ marks_in (K.lexicon asker.old) (chars text.now)) }
    ensures same { K.lexicon asker.new ≡ K.lexicon asker.old }
{
    let counted = check_counted(alloc, asker, text)?;
    Ok(counted.marks)
}

/// The marks of a paragraph, as `check` gives them, and how many words it has.
pub fn check_counted<K: Asker>(
    alloc: Global,
    asker: &mut K,
    text: &str,
) -> Result<CountedMarks, NoMemory>
    requires small { length text.now < 2 ^ 32 }
    ensures marks { IfOk result
        (λ counted. counted.marks ≡ marks_in (K.lexicon asker.old) (chars text.now)) }
    ensures words { IfOk result
        (λ counted. counted.words
        ≡ length (words_of (K.lexicon asker.old).affixes.wordchars (chars text.now))) }
    ensures few { IfOk result (λ counted. counted.words ≤ length text.now) }
    ensures fewer { IfOk result (λ counted. length counted.marks ≤ counted.words) }
    ensures same { K.lexicon asker.new ≡ K.lexicon asker.old }
{
    marks_are_local();
    words_stand_in_their_text();
    let mut marks = Vec::new(alloc);
    // A text has fewer words than bytes, or as many, so all are judged.
    let passed = judge_words(alloc, asker, Rest::of(text), u32::MAX, &mut marks)?;
    Ok(CountedMarks {
        marks: Items::from_vec(marks),
        words: passed.words,
    })
}

/// Adds the marks of so many next words of a paragraph, or of all that are left, and gives what is
/// left behind them.
pub fn judge_words<'a, K: Asker>(
    alloc: Global,
    asker: &mut K,
    rest: Rest<'a>,
    words: u32,
    marks: &mut Vec<Mark>,
) -> Result<Passed<'a>, NoMemory>
    requires small { rest.at + length rest.text.now < 2 ^ 32 }
    ensures left { IfOk result
        (λ passed. words_after (K.lexicon asker.old).affixes.wordchars passed.left
        ≡ drop words (words_after (K.lexicon asker.old).affixes.wordchars rest.entry)) }
    ensures marks { OnOk result (marks.new.items
        ≡ marks.old.items ++ marks_among (K.lexicon asker.old)
        (take words (words_after (K.lexicon asker.old).affixes.wordchars rest.entry))) }
    ensures count { IfOk result (λ passed. passed.words
        ≡ length (take words (words_after (K.lexicon asker.old).affixes.wordchars rest.entry))) }
    ensures few { IfOk result (λ passed. rest.entry.at + passed.words ≤ passed.left.at) }
    ensures behind { IfOk result (λ passed. IsBehind rest.entry passed.left) }
    ensures same { K.lexicon asker.new ≡ K.lexicon asker.old }
{
    let mut word = Vec::new(alloc);
    let mut left = rest;
    let mut count = words;
    while count > 0 {
        let Some(judged) = next_judged(alloc, asker, left, &mut word)? else {
            return Ok(Passed {
                left,
                words: words - count,
            });
        };
        add_mark(alloc, marks, &judged, &word)?;
        left = judged.found.rest;
        count -= 1;
    }
    Ok(Passed { left, words })
}

/// Judges the first word of what is left of a paragraph. Its characters are put where those of
/// another word stood, so that a walk over a paragraph decodes it once, and needs no more memory
/// than its longest word.
fn next_judged<'a, K: Asker>(
    alloc: Global,
    asker: &mut K,
    rest: Rest<'a>,
    word: &mut Vec<char>,
) -> Result<Option<JudgedWord<'a>>, NoMemory>
    requires small { rest.at + length rest.text.now < 2 ^ 32 }
    ensures none { IfOk result
        (λ judged. IfNone judged
        (words_after (K.lexicon asker.old).affixes.wordchars rest.entry ≡ [])) }
    ensures next { IfOk result
        (λ judged. IfSome judged (IsNextJudged (K.lexicon asker.old) rest.entry word.new.items)) }
    ensures same { K.lexicon asker.new ≡ K.lexicon asker.old }
{
    match next_word(asker.wordchars(), rest, word)? {
        None => Ok(None),
        Some(found) => {
            let is_known = asker.verdict(alloc, word)?;
            Ok(Some(JudgedWord { found, is_known }))
        }
    }
}

/// Adds the mark of a judged word, which has these characters, if the dictionary does not generate
/// it.
fn add_mark(
    alloc: Global,
    marks: &mut Vec<Mark>,
    judged: &JudgedWord<'_>,
    word: &[char],
) -> Result<(), NoMemory>
    ensures { OnOk result
        (marks.new.items ≡ marks.old.items
        ++ (if judged.now.is_known then [] else mark_at (found_word word.now judged.now.found)
        ∷ [])) }
{
    if !judged.is_known {
        let mut text = String::new(alloc);
        push_characters(&mut text, word)?;
        marks.push(Mark {
            from: judged.found.from,
            to: judged.found.to,
            word: Text::from_str(alloc, &text)?,
        })?;
    }
    Ok(())
}

fn push_characters(text: &mut String, characters: &[char]) -> Result<(), AllocError>
    ensures { OnOk result
        (string_bytes text.new ≡ string_bytes text.old ++ encode_utf8_all characters.now) }
{
    for c in characters {
        text.push(*c)?;
    }
    Ok(())
}
