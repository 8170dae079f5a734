//! What each call does, before its answer is made a number.

ghost use Rattle.std.specs.Prelude.{◌≡◌, ◌<◌, ◌^◌, ℕ, length, Option, Some, None, Ok, IfOk, IfErr};
ghost use Rattle.mark_types.specs.lists.Answers.{GivesDue};
ghost use Rattle.affedit_c.specs.Marks.{encoding_of};
ghost use Rattle.affedit_c.specs.Faults.{MayComeOfCalls, dictionary_read, list_read};
ghost use Rattle.affedit_c.specs.Answers.{OpenAnswers, ShareAnswers, WordAnswers, MarkAnswers};
ghost use Rattle.affedit_c.specs.Answers.{MarkInAnswers};
ghost use Rattle.affedit_c.specs.Answers.{CharacterAnswers, AddAnswers, ListAnswers};

use crate::answers::Answer;
use crate::faults::{Fault, Refusal};
use crate::fronts::{AsTheyAre, write_front};
use crate::handle::Dictionary;
use crate::kept::KeptDictionary;
use crate::marking::{MarkSpan, encoding_of};
use crate::reading::read_lexicon;
use personal_words::{OwnLineFault, OwnLineWhy};
use positions::{Encoding, OffsetWalk};
use std::alloc::Global;

/// How many bytes a text may have.
const MOST_TEXT: usize = 4_294_967_295;

/// Opens the dictionary of these bytes. What the handle had before goes.
#[tactic(auto, unfolding(crate::specs::Answers::OpenAnswers))]
pub fn open(
    alloc: Global,
    aff: &[u8],
    dic: &[u8],
    dictionary: &mut Dictionary,
    fault: &mut Fault,
) -> Answer
    ensures { OpenAnswers (dictionary_read aff.now dic.now) dictionary.old.held.value
        dictionary.new.held.value fault.old fault.new result }
{
    match opened(alloc, aff, dic) {
        Ok(kept) => {
            *dictionary = Dictionary::of(kept);
            Answer::Done
        }
        Err(Refusal::Refused(told)) => {
            *fault = told;
            Answer::Faulty
        }
        Err(Refusal::NoMemory) => Answer::NoMemory,
    }
}

/// The dictionary of these bytes, ready to be asked.
#[tactic(auto, unfolding(crate::specs::Faults::dictionary_read))]
fn opened(alloc: Global, aff: &[u8], dic: &[u8]) -> Result<Box<KeptDictionary>, Refusal>
    ensures { GivesDue MayComeOfCalls (λ kept. kept.value)
        (dictionary_read aff.now dic.now) result }
{
    let base = read_lexicon(alloc, aff, dic)?;
    Ok(KeptDictionary::new(alloc, base)?)
}

/// Lets another handle have what a handle has.
#[tactic(auto, unfolding(crate::specs::Answers::ShareAnswers))]
pub fn share(alloc: Global, dictionary: &mut Dictionary, other: &mut Dictionary) -> Answer
    ensures answer { ShareAnswers dictionary.old.held.value other.old.held.value
        other.new.held.value result }
    ensures same { dictionary.new.held.value ≡ dictionary.old.held.value }
{
    let Some(mut kept) = dictionary.take(alloc) else {
        return Answer::Closed;
    };
    let answer = match kept.share(alloc) {
        Ok(shared) => {
            *other = Dictionary::of(shared);
            Answer::Done
        }
        Err(_) => Answer::NoMemory,
    };
    *dictionary = Dictionary::of(kept);
    answer
}

/// Asks a word.
#[tactic(auto, unfolding(crate::specs::Answers::WordAnswers))]
pub fn ask(alloc: Global, dictionary: &mut Dictionary, word: &[u8]) -> Answer
    ensures answer { WordAnswers dictionary.old.held.value word.now result }
    ensures same { dictionary.new.held.value ≡ dictionary.old.held.value }
{
    let Some(mut kept) = dictionary.take(alloc) else {
        return Answer::Closed;
    };
    let answer = ask_kept(alloc, &mut kept, word);
    *dictionary = Dictionary::of(kept);
    answer
}

#[tactic(auto, unfolding(crate::specs::Answers::WordAnswers))]
fn ask_kept(alloc: Global, kept: &mut KeptDictionary, word: &[u8]) -> Answer
    ensures answer { WordAnswers (Some kept.old) word.now result }
    ensures same { kept.new ≡ kept.old }
{
    let Ok(word) = str::from_utf8(word) else {
        return Answer::NotUtf8;
    };
    match kept.knows(alloc, word) {
        Ok(true) => Answer::Known,
        Ok(false) => Answer::Unknown,
        Err(_) => Answer::NoMemory,
    }
}

/// Gives the marks of a text, as many as there is room for, and how many there are in all.
#[tactic(auto, unfolding(crate::specs::Answers::MarkAnswers))]
pub fn mark(
    alloc: Global,
    dictionary: &mut Dictionary,
    text: &[u8],
    marks: &mut [MarkSpan],
    count: &mut usize,
) -> Answer
    ensures answer { MarkAnswers dictionary.old.held.value text.now marks.old marks.new count.old
        count.new result }
    ensures same { dictionary.new.held.value ≡ dictionary.old.held.value }
{
    let Some(mut kept) = dictionary.take(alloc) else {
        return Answer::Closed;
    };
    let answer = mark_kept(alloc, &mut kept, text, marks, count);
    *dictionary = Dictionary::of(kept);
    answer
}

#[tactic(auto, unfolding(crate::specs::Answers::MarkAnswers))]
fn mark_kept(
    alloc: Global,
    kept: &mut KeptDictionary,
    text: &[u8],
    marks: &mut [MarkSpan],
    count: &mut usize,
) -> Answer
    ensures answer { MarkAnswers (Some kept.old) text.now marks.old marks.new count.old count.new
        result }
    ensures same { kept.new ≡ kept.old }
{
    if text.len() > MOST_TEXT {
        return Answer::TooLong;
    }
    let Ok(text) = str::from_utf8(text) else {
        return Answer::NotUtf8;
    };
    let Ok(found) = kept.marks(alloc, text) else {
        return Answer::NoMemory;
    };
    write_front(&found, &mut AsTheyAre, marks);
    *count = found.len();
    Answer::Done
}

/// Gives the marks of a text from one on, with places in units of a kind.
#[tactic(auto, unfolding(crate::specs::Answers::MarkInAnswers))]
pub fn mark_in(
    alloc: Global,
    dictionary: &mut Dictionary,
    text: &[u8],
    unit: u32,
    first: usize,
    marks: &mut [MarkSpan],
    count: &mut usize,
) -> Answer
    ensures answer { MarkInAnswers dictionary.old.held.value text.now unit first marks.old marks.new
        count.old count.new result }
    ensures same { dictionary.new.held.value ≡ dictionary.old.held.value }
{
    let Some(mut kept) = dictionary.take(alloc) else {
        return Answer::Closed;
    };
    let answer = match encoding_of(unit) {
        Some(encoding) => mark_kept_in(alloc, &mut kept, text, encoding, first, marks, count),
        None => Answer::BadUnit,
    };
    *dictionary = Dictionary::of(kept);
    answer
}

#[tactic(auto, unfolding(crate::specs::Answers::MarkInAnswers))]
fn mark_kept_in(
    alloc: Global,
    kept: &mut KeptDictionary,
    text: &[u8],
    encoding: Encoding,
    first: usize,
    marks: &mut [MarkSpan],
    count: &mut usize,
) -> Answer
    ensures answer { (unit : ℕ) → encoding_of unit ≡ Some encoding → MarkInAnswers (Some kept.old)
        text.now unit first marks.old marks.new count.old count.new result }
    ensures same { kept.new ≡ kept.old }
{
    if text.len() > MOST_TEXT {
        return Answer::TooLong;
    }
    let Ok(text) = str::from_utf8(text) else {
        return Answer::NotUtf8;
    };
    let Ok(found) = kept.marks(alloc, text) else {
        return Answer::NoMemory;
    };
    let all = found.len();
    write_front(
        &found[first.min(all)..],
        &mut OffsetWalk::new(encoding, text),
        marks,
    );
    *count = all;
    Answer::Done
}

/// Gives the characters of WORDCHARS, as many as there is room for, and how many there are in all.
#[tactic(auto, unfolding(crate::specs::Answers::CharacterAnswers))]
pub fn list_characters(
    alloc: Global,
    dictionary: &mut Dictionary,
    characters: &mut [u32],
    count: &mut usize,
) -> Answer
    ensures answer { CharacterAnswers dictionary.old.held.value characters.old characters.new
        count.old count.new result }
    ensures same { dictionary.new.held.value ≡ dictionary.old.held.value }
{
    let Some(kept) = dictionary.take(alloc) else {
        return Answer::Closed;
    };
    let listed = kept.word_characters();
    write_front(listed, &mut AsTheyAre, characters);
    *count = listed.len();
    *dictionary = Dictionary::of(kept);
    Answer::Done
}

/// Adds a line to the personal words.
#[tactic(auto, unfolding(crate::specs::Answers::AddAnswers))]
pub fn add(alloc: Global, dictionary: &mut Dictionary, line: &[u8]) -> Answer
    ensures { AddAnswers dictionary.old.held.value line.now dictionary.new.held.value result }
{
    let Some(mut kept) = dictionary.take(alloc) else {
        return Answer::Closed;
    };
    let answer = add_kept(alloc, &mut kept, line);
    *dictionary = Dictionary::of(kept);
    answer
}

#[tactic(auto, unfolding(crate::specs::Answers::AddAnswers))]
fn add_kept(alloc: Global, kept: &mut KeptDictionary, line: &[u8]) -> Answer
    ensures { AddAnswers (Some kept.old) line.now (Some kept.new) result }
{
    let Ok(line) = str::from_utf8(line) else {
        return Answer::NotUtf8;
    };
    match kept.add(alloc, line) {
        Ok(true) => Answer::Done,
        Ok(false) => Answer::Blank,
        Err(OwnLineFault::Why(OwnLineWhy::EmptyWord)) => Answer::EmptyWord,
        Err(OwnLineFault::Why(OwnLineWhy::TooMany)) => Answer::TooMany,
        Err(OwnLineFault::NoMemory) => Answer::NoMemory,
    }
}

/// Takes the personal words of a list in place of those that there are.
#[tactic(auto, unfolding(crate::specs::Answers::ListAnswers))]
pub fn take_list(
    alloc: Global,
    dictionary: &mut Dictionary,
    list: &[u8],
    fault: &mut Fault,
) -> Answer
    ensures { ListAnswers (list_read list.now) dictionary.old.held.value dictionary.new.held.value
        fault.old fault.new result }
{
    let Some(mut kept) = dictionary.take(alloc) else {
        return Answer::Closed;
    };
    let answer = take_kept_list(alloc, &mut kept, list, fault);
    *dictionary = Dictionary::of(kept);
    answer
}

#[tactic(auto, unfolding(crate::specs::Answers::ListAnswers))]
fn take_kept_list(
    alloc: Global,
    kept: &mut KeptDictionary,
    list: &[u8],
    fault: &mut Fault,
) -> Answer
    ensures { ListAnswers (list_read list.now) (Some kept.old) (Some kept.new) fault.old fault.new
        result }
{
    match kept.take_list(alloc, list) {
        Ok(()) => Answer::Done,
        Err(Refusal::Refused(told)) => {
            *fault = told;
            Answer::Faulty
        }
        Err(Refusal::NoMemory) => Answer::NoMemory,
    }
}
