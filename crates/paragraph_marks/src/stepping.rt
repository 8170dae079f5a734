//! A paragraph that is checked some words at a time.

ghost use Rattle.std.specs.Prelude.{◌≡◌, ◌<◌, ◌^◌, ◌≤◌, [], ◌++◌, true, not, IfErr, IfOk, OnErr};
ghost use Rattle.std.specs.Prelude.{OnOk, drop, length};
ghost use Rattle.std.specs.Arc.{arc_value};
ghost use Rattle.std.specs.Str.{IsUtf8, chars};
ghost use Rattle.mark_types.specs.Words.{words_of};
ghost use Rattle.word_cutter.specs.Runs.{has_some};
ghost use Rattle.paragraph_marks.specs.Paragraphs.{marks_in};
ghost use Rattle.paragraph_marks.specs.Stepping.{IsProgress, left_of};

use crate::judging::judge_words;
use mark_types::lists::{Items, NoMemory};
use mark_types::text_lines::Text;
use mark_types::{Asker, Judge, Mark, Marks, marks_are_local, words_stand_in_their_text};
use std::alloc::Global;
use std::marker::Model;
use std::sync::Arc;
use word_cutter::{Rest, has_word};

/// A judge, a text and its marks by the judge's dictionary, all shared. Contracts see the judge and
/// the text, which the marks follow from.
#[derive(Drop)]
pub struct Checked<J: Judge> {
    judge: Arc<J>,
    text: Arc<Text>,
    marks: Arc<Marks>,
}

impl<J: Judge> Model for Checked<J> {
    ghost use Rattle.std.specs.Prelude.{◌≡◌};
    ghost use Rattle.std.specs.Arc.{arc_value};
    ghost use Rattle.std.specs.Str.{chars};
    ghost use Rattle.paragraph_marks.specs.Paragraphs.{CheckedBy, marks_in};

    ghost Value = { CheckedBy J };

    ghost view = { λ inside.
        record { judge = arc_value inside.judge; text = arc_value inside.text } };

    ghost invariant = { λ inside. arc_value inside.marks ≡ marks_in (J.lexicon (arc_value inside.judge))
        (chars (arc_value inside.text)) };
}

impl<J: Judge> Checked<J> {
    /// The marks of the text, rising.
    pub fn marks(&self) -> &Marks
        ensures { result.now ≡ marks_in (J.lexicon self.now.judge) (chars self.now.text) }
    {
        &self.marks
    }
}

impl<J: Judge + Drop> Checked<J> {
    /// An equal value, over the same judge, text and marks in memory.
    pub fn share(&self) -> Result<Checked<J>, NoMemory>
        ensures { IfOk result (λ shared. shared ≡ self.now) }
    {
        Ok(Checked {
            judge: Arc::try_clone(&self.judge)?,
            text: Arc::try_clone(&self.text)?,
            marks: Arc::try_clone(&self.marks)?,
        })
    }
}

/// A text that is checked by a judge, some words at a time. Contracts see the judge, the text and
/// the words that are left.
#[derive(Drop)]
pub struct Checking<J: Judge> {
    judge: Arc<J>,
    text: Arc<Text>,
    progress: TextProgress,
}

/// How far a text is checked.
#[derive(Drop)]
enum TextProgress {
    /// Words are left.
    Going(SoFar),
    /// No word is left, and these are the marks.
    Finished(Arc<Marks>),
}

/// What is checked of a text so far, and where checking goes on.
#[derive(Drop)]
struct SoFar {
    /// The marks of the words before.
    marks: Vec<Mark>,
    /// The byte from which words are left, from 0, and the character before it.
    at: u32,
    before: char,
}

impl<J: Judge> Model for Checking<J> {
    ghost use Rattle.std.specs.Arc.{arc_value};
    ghost use Rattle.paragraph_marks.specs.Paragraphs.{LeftBy};

    ghost Value = { LeftBy J };

    ghost use Rattle.paragraph_marks.specs.Stepping.{IsProgress, left_of};

    ghost view = { λ inside. record {
      judge = arc_value inside.judge;
      text = arc_value inside.text;
      left = left_of (J.lexicon (arc_value inside.judge)) (arc_value inside.text) inside.progress;
    } };

    ghost invariant = { λ inside. IsProgress (J.lexicon (arc_value inside.judge)) (arc_value inside.text)
        inside.progress };
}

impl<J: Judge + Drop> Checking<J> {
    /// Nothing of the text is checked.
    pub fn start(alloc: Global, judge: Arc<J>, text: Arc<Text>) -> Result<Checking<J>, NoMemory>
        requires { length (arc_value text) < 2 ^ 32 }
        ensures judge { IfOk result (λ checking. checking.judge ≡ arc_value judge) }
        ensures text { IfOk result (λ checking. checking.text ≡ arc_value text) }
        ensures left { IfOk result (λ checking. checking.left
            ≡ words_of (J.lexicon (arc_value judge)).affixes.wordchars (chars (arc_value text))) }
    {
        let progress = begin(alloc, &*judge, text.as_str())?;
        Ok(Checking {
            judge,
            text,
            progress,
        })
    }

    /// Judges so many next words, or all that are left, and tells whether none is left. Where
    /// memory is wanting, it is as it was before the step.
    pub fn step<K: Asker>(
        &mut self,
        alloc: Global,
        asker: &mut K,
        words: u32,
    ) -> Result<bool, NoMemory>
        requires { K.lexicon asker.old ≡ J.lexicon self.old.judge }
        ensures left { OnOk result
            (self.new ≡ record self.old { left = drop words self.old.left }) }
        ensures ended { IfOk result (λ ended. ended ≡ not (has_some self.new.left)) }
        ensures err { OnErr result (self.new ≡ self.old) }
        ensures same { K.lexicon asker.new ≡ K.lexicon asker.old }
    {
        step_over(alloc, asker, self.text.as_str(), &mut self.progress, words)
    }

    /// What was checked, where no word is left; else itself.
    #[tactic(auto, unfolding(crate::specs::Stepping::left_of, crate::specs::Stepping::IsProgress))]
    pub fn done(self) -> Result<Checked<J>, Checking<J>>
        ensures checked { IfOk result
            (λ checked. checked ≡ record { judge = self.judge; text = self.text }) }
        ensures none { IfOk result (λ checked. self.left ≡ []) }
        ensures same { IfErr result (λ checking. checking ≡ self) }
        ensures some { IfErr result (λ checking. has_some self.left ≡ true) }
    {
        let Checking {
            judge,
            text,
            progress,
        } = self;
        match progress {
            TextProgress::Finished(marks) => Ok(Checked { judge, text, marks }),
            TextProgress::Going(so_far) => Err(Checking {
                judge,
                text,
                progress: TextProgress::Going(so_far),
            }),
        }
    }
}

/// How far a text is checked at first.
#[tactic(auto, unfolding(crate::specs::Stepping::left_of, crate::specs::Stepping::IsProgress))]
fn begin<J: Judge>(alloc: Global, judge: &J, text: &str) -> Result<TextProgress, NoMemory>
    requires { length text.now < 2 ^ 32 }
    ensures is { IfOk result (IsProgress (J.lexicon judge.now) text.now) }
    ensures left { IfOk result (λ progress. left_of (J.lexicon judge.now) text.now progress
        ≡ words_of (J.lexicon judge.now).affixes.wordchars (chars text.now)) }
{
    marks_are_local();
    words_stand_in_their_text();
    let rest = Rest::of(text);
    if has_word(judge.wordchars(), rest) {
        return Ok(TextProgress::Going(SoFar {
            marks: Vec::new(alloc),
            at: rest.at,
            before: rest.before,
        }));
    }
    Ok(TextProgress::Finished(Arc::new(alloc, Items::new(alloc))?))
}

/// Judges so many next words of a text, or all that are left, and tells whether none is left.
#[tactic(auto, unfolding(crate::specs::Stepping::left_of, crate::specs::Stepping::IsProgress))]
fn step_over<K: Asker>(
    alloc: Global,
    asker: &mut K,
    text: &str,
    progress: &mut TextProgress,
    words: u32,
) -> Result<bool, NoMemory>
    requires is { IsProgress (K.lexicon asker.old) text.now progress.old }
    ensures is { IsProgress (K.lexicon asker.old) text.now progress.new }
    ensures left { OnOk result
        (left_of (K.lexicon asker.old) text.now progress.new
        ≡ drop words (left_of (K.lexicon asker.old) text.now progress.old)) }
    ensures ended { IfOk result
        (λ ended. ended ≡ not (has_some (left_of (K.lexicon asker.old) text.now progress.new))) }
    ensures err { OnErr result
        (left_of (K.lexicon asker.old) text.now progress.new ≡ left_of (K.lexicon asker.old)
        text.now progress.old) }
    ensures same { K.lexicon asker.new ≡ K.lexicon asker.old }
{
    let TextProgress::Going(so_far) = progress else {
        return Ok(true);
    };
    let mut marks = Vec::new(alloc);
    let rest = so_far.rest(text);
    let passed = judge_words(alloc, asker, rest, words, &mut marks)?;
    if has_word(asker.wordchars(), passed.left) {
        so_far.add(marks, passed.left)?;
        return Ok(false);
    }
    let all = joined(alloc, &so_far.marks, marks)?;
    *progress = TextProgress::Finished(Arc::new(alloc, all)?);
    Ok(true)
}

impl SoFar {
    /// What is left of the text.
    fn rest<'a>(&self, text: &'a str) -> Rest<'a>
        requires within { self.now.at ≤ length text.now }
        requires place { IsUtf8 (drop self.now.at text.now) }
        ensures text { result.text.now ≡ drop self.now.at text.now }
        ensures at { result.at ≡ self.now.at }
        ensures before { result.before ≡ self.now.before }
    {
        Rest {
            text: &text[self.at as usize..],
            at: self.at,
            before: self.before,
        }
    }

    /// Adds marks, and goes on with what is left behind their words.
    fn add(&mut self, mut marks: Vec<Mark>, left: Rest<'_>) -> Result<(), NoMemory>
        ensures marks { OnOk result (self.new.marks.items ≡ self.old.marks.items ++ marks.items) }
        ensures at { OnOk result (self.new.at ≡ left.entry.at) }
        ensures before { OnOk result (self.new.before ≡ left.entry.before) }
        ensures err_marks { OnErr result (self.new.marks.items ≡ self.old.marks.items) }
        ensures err_at { OnErr result (self.new.at ≡ self.old.at) }
        ensures err_before { OnErr result (self.new.before ≡ self.old.before) }
    {
        self.marks.append(&mut marks)?;
        self.at = left.at;
        self.before = left.before;
        Ok(())
    }
}

/// The earlier and the later marks in one list.
fn joined(alloc: Global, earlier: &[Mark], later: Vec<Mark>) -> Result<Marks, NoMemory>
    ensures { IfOk result (λ marks. marks ≡ earlier.now ++ later.items) }
{
    if earlier.is_empty() {
        return Ok(Items::from_vec(later));
    }
    let mut marks = Items::new(alloc);
    marks.extend_from_slice(alloc, earlier)?;
    marks.extend_from_slice(alloc, &later)?;
    Ok(marks)
}
