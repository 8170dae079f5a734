//! Affedit for C: a dictionary from the bytes of its files, and what it says of words.
//!
//! Each function is declared in `include/affedit.h`, with what it takes, returns and frees.
#![tactic(auto)]

ghost use Rattle.std.specs.Prelude.{◌≡◌, length, None};
ghost use Rattle.affedit_c.specs.Answers.{SaysAnswer, OpenAnswers, ShareAnswers, WordAnswers};
ghost use Rattle.affedit_c.specs.Answers.{MarkAnswers, MarkInAnswers, CharacterAnswers};
ghost use Rattle.affedit_c.specs.Answers.{AddAnswers, ListAnswers};
ghost use Rattle.affedit_c.specs.Causes.{sentence_of};
ghost use Rattle.affedit_c.specs.Faults.{dictionary_read, list_read};
ghost use Rattle.affedit_c.specs.Fronts.{array_with};
ghost use Rattle.affedit_c.specs.declared.TheConstants.{VERSION};

mod answers;
mod calls;
mod causes;
mod crossing;
mod faults;
mod fronts;
mod handle;
mod held;
mod kept;
mod marking;
mod reading;
mod remembering;

use causes::sentence_of;
use faults::Fault;
use fronts::{AsTheyAre, write_front};
use handle::Dictionary;
use marking::MarkSpan;
use std::alloc::Global;

/// The version of this library.
const VERSION: u32 = 1_000_000;

/// The version of this library as one number: the major version by 1,000,000, the minor one by 1,000,
/// and the patch.
#[unsafe(no_mangle)]
pub extern "C" fn affedit_version() -> u32
    ensures { result ≡ VERSION }
{
    VERSION
}

/// Opens the dictionary that the bytes of an .aff file and of a .dic file are. Where they have a
/// fault it is told, and the handle keeps what it had.
#[unsafe(no_mangle)]
pub extern "C" fn affedit_open(
    alloc: Global,
    aff: &[u8],
    dic: &[u8],
    dictionary: &mut Dictionary,
    fault: &mut Fault,
) -> u32
    ensures { SaysAnswer (OpenAnswers (dictionary_read aff.now dic.now) dictionary.old.held.value
        dictionary.new.held.value fault.old fault.new) result }
{
    calls::open(alloc, aff, dic, dictionary, fault).number()
}

/// Closes a handle. A closed one stays closed.
#[unsafe(no_mangle)]
pub extern "C" fn affedit_close(alloc: Global, dictionary: &mut Dictionary)
    ensures { dictionary.new.held.value ≡ None }
{
    *dictionary = Dictionary::closed(alloc);
}

/// Lets another handle have what a handle has, as one for another thread.
#[unsafe(no_mangle)]
pub extern "C" fn affedit_share(
    alloc: Global,
    dictionary: &mut Dictionary,
    other: &mut Dictionary,
) -> u32
    ensures answer { SaysAnswer (ShareAnswers dictionary.old.held.value other.old.held.value
        other.new.held.value) result }
    ensures same { dictionary.new.held.value ≡ dictionary.old.held.value }
{
    calls::share(alloc, dictionary, other).number()
}

/// Whether the dictionary generates a word.
#[unsafe(no_mangle)]
pub extern "C" fn affedit_word(alloc: Global, dictionary: &mut Dictionary, word: &[u8]) -> u32
    ensures answer { SaysAnswer (WordAnswers dictionary.old.held.value word.now) result }
    ensures same { dictionary.new.held.value ≡ dictionary.old.held.value }
{
    calls::ask(alloc, dictionary, word).number()
}

/// Gives the marks of a text, as many as there is room for, and how many there are in all.
#[unsafe(no_mangle)]
pub extern "C" fn affedit_marks(
    alloc: Global,
    dictionary: &mut Dictionary,
    text: &[u8],
    marks: &mut [MarkSpan],
    count: &mut usize,
) -> u32
    ensures answer { SaysAnswer (MarkAnswers dictionary.old.held.value text.now marks.old marks.new
        count.old count.new) result }
    ensures same { dictionary.new.held.value ≡ dictionary.old.held.value }
{
    calls::mark(alloc, dictionary, text, marks, count).number()
}

/// Gives the marks of a text from the one with a number on, with places in units of a kind: bytes (0),
/// units of UTF-16 (1) or characters (2). It gives as many as there is room for, and how many there
/// are in all.
#[unsafe(no_mangle)]
pub extern "C" fn affedit_marks_in(
    alloc: Global,
    dictionary: &mut Dictionary,
    text: &[u8],
    unit: u32,
    first: usize,
    marks: &mut [MarkSpan],
    count: &mut usize,
) -> u32
    ensures answer { SaysAnswer (MarkInAnswers dictionary.old.held.value text.now unit first marks.old
        marks.new count.old count.new) result }
    ensures same { dictionary.new.held.value ≡ dictionary.old.held.value }
{
    calls::mark_in(alloc, dictionary, text, unit, first, marks, count).number()
}

/// Gives the characters of WORDCHARS of the dictionary, as many as there is room for, and how many
/// there are in all.
#[unsafe(no_mangle)]
pub extern "C" fn affedit_word_characters(
    alloc: Global,
    dictionary: &mut Dictionary,
    characters: &mut [u32],
    count: &mut usize,
) -> u32
    ensures answer { SaysAnswer (CharacterAnswers dictionary.old.held.value characters.old
        characters.new count.old count.new) result }
    ensures same { dictionary.new.held.value ≡ dictionary.old.held.value }
{
    calls::list_characters(alloc, dictionary, characters, count).number()
}

/// Adds the item of a line to the personal words of a handle.
#[unsafe(no_mangle)]
pub extern "C" fn affedit_add(alloc: Global, dictionary: &mut Dictionary, line: &[u8]) -> u32
    ensures { SaysAnswer (AddAnswers dictionary.old.held.value line.now dictionary.new.held.value)
        result }
{
    calls::add(alloc, dictionary, line).number()
}

/// Takes the personal words that the bytes of a list are in place of those of a handle. Where they
/// have a fault it is told, and the words stay.
#[unsafe(no_mangle)]
pub extern "C" fn affedit_list(
    alloc: Global,
    dictionary: &mut Dictionary,
    list: &[u8],
    fault: &mut Fault,
) -> u32
    ensures { SaysAnswer (ListAnswers (list_read list.now) dictionary.old.held.value
        dictionary.new.held.value fault.old fault.new) result }
{
    calls::take_list(alloc, dictionary, list, fault).number()
}

/// Gives the sentence for a fault, as many bytes of it as there is room for. Returns how many it has
/// in all, and 0 where no fault has these numbers.
#[unsafe(no_mangle)]
pub extern "C" fn affedit_cause(fault: &Fault, sentence: &mut [u8]) -> usize
    ensures written { sentence.new
        ≡ array_with (sentence_of fault.now.file fault.now.cause) sentence.old }
    ensures count { result ≡ length (sentence_of fault.now.file fault.now.cause) }
{
    let found = sentence_of(fault.file, fault.cause);
    write_front(found.as_bytes(), &mut AsTheyAre, sentence);
    found.len()
}
