//! Upper and lower case, and the spellings that a written word stands for.
#![tactic(auto)]

ghost use Rattle.std.specs.Prelude.{◌≡◌, ℕ, ◌↔◌, Bool, List, IsTrue, slice_get, Some, AllPairs};
ghost use Rattle.std.specs.Prelude.{◌≢◌, ◌≤◌, length, fold, IfOk, OnOk};
ghost use Rattle.spell_types.specs.Cases.{is_upper, is_lower, low, begins_upper, has_lower};
ghost use Rattle.spell_types.specs.Cases.{first_lowered, all_lowered, rest_lowered, is_among};
ghost use Rattle.spell_types.specs.Cases.{spellings_of_capital, spellings_of_capitals};
ghost use Rattle.spell_types.specs.Cases.{spellings_of_sharps, covered_by, Covers};
ghost use Rattle.letter_case.specs.Found.{with_word};

mod sharps;

use sharps::{sharp_kept, sharp_lowered};
use smallvec::SmallVec;
use spell_types::Chars;
use spell_types::lists::{Items, NoMemory};
use std::alloc::Global;
use unicode::{case, properties};

/// Whether a character is upper case. That of an ASCII character is told by its code.
#[tactic(auto, unfolding(spell_types::specs::Cases::is_upper))]
pub fn is_upper(c: char) -> bool
    ensures { result ≡ is_upper c }
{
    if c.is_ascii() {
        return c.is_ascii_uppercase();
    }
    properties::is_uppercase(c)
}

/// Whether a character is lower case. That of an ASCII character is told by its code.
#[tactic(auto, unfolding(spell_types::specs::Cases::is_lower))]
pub fn is_lower(c: char) -> bool
    ensures { result ≡ is_lower c }
{
    if c.is_ascii() {
        return c.is_ascii_lowercase();
    }
    properties::is_lowercase(c)
}

/// An upper-case character lowered; any other character as it is.
#[tactic(auto, unfolding(spell_types::specs::Cases::low))]
pub fn low(c: char) -> char
    ensures { result ≡ low c }
{
    if c.is_ascii() {
        return c.to_ascii_lowercase();
    }
    if is_upper(c) { case::simple_fold(c) } else { c }
}

/// Whether the first character is upper case. Such a word stands for others than itself.
pub fn begins_upper(word: &[char]) -> bool
    ensures { result ≡ begins_upper word.now }
{
    match word {
        [first, ..] => is_upper(*first),
        [] => false,
    }
}

/// Whether a character is lower case. A word without one stands for others than itself.
pub fn has_lower(word: &[char]) -> bool
    ensures { result ≡ has_lower word.now }
{
    word.iter().any(|c| is_lower(*c))
}

/// The words that a written word covers: the written one first, and none twice. `sharps` says that
/// SS may stand for ß: the option CHECKSHARPS of hunspell(5). At most the first five pairs SS are
/// looked at, which is this project's own rule, so that there are at most 66 words, as
/// `covered_words_are_few` says.
pub fn covered(alloc: Global, word: &[char], sharps: bool) -> Result<SmallVec<Chars, 4>, NoMemory>
    ensures { IfOk result (λ found. found.items ≡ covered_by sharps word.now) }
{
    let mut found = SmallVec::new(alloc);
    add(&mut found, copy_of(alloc, word)?)?;
    add_of_capital(alloc, word, &mut found)?;
    add_of_capitals(alloc, word, &mut found)?;
    add_of_sharps(alloc, word, sharps, &mut found)?;
    Ok(found)
}

/// The words that a written word covers are those that the rule names, the written one first, and
/// no two of them are the same.
pub fn covered_words_are()
    ensures members { (sharps : Bool) (written word : List ℕ) →
        IsTrue (is_among (covered_by sharps written) word) ↔ Covers sharps written word }
    ensures first { (sharps : Bool) (written : List ℕ) → slice_get (covered_by sharps written) 0
        ≡ Some written }
    ensures once { (sharps : Bool) (written : List ℕ)
        → AllPairs (λ one other. one ≢ other) (covered_by sharps written) }
{}

/// A word covers 66 words at most.
pub fn covered_words_are_few()
    ensures { (sharps : Bool) (written : List ℕ) → length (covered_by sharps written) ≤ 66 }
{}

/// Adds what a word that begins in upper case stands for.
fn add_of_capital(
    alloc: Global,
    word: &[char],
    found: &mut SmallVec<Chars, 4>,
) -> Result<(), NoMemory>
    ensures { OnOk result (found.new.items
        ≡ fold with_word found.old.items (spellings_of_capital word.now)) }
{
    if begins_upper(word) {
        add(found, first_lowered(alloc, word)?)?;
    }
    Ok(())
}

/// Adds what a word without lower-case characters stands for.
fn add_of_capitals(
    alloc: Global,
    word: &[char],
    found: &mut SmallVec<Chars, 4>,
) -> Result<(), NoMemory>
    ensures { OnOk result (found.new.items
        ≡ fold with_word found.old.items (spellings_of_capitals word.now)) }
{
    if !has_lower(word) {
        add(found, all_lowered(alloc, word)?)?;
        add(found, rest_lowered(alloc, word)?)?;
    }
    Ok(())
}

/// Adds what a word without lower-case characters stands for where SS may stand for ß.
fn add_of_sharps(
    alloc: Global,
    word: &[char],
    sharps: bool,
    found: &mut SmallVec<Chars, 4>,
) -> Result<(), NoMemory>
    ensures { OnOk result (found.new.items
        ≡ fold with_word found.old.items (spellings_of_sharps sharps word.now)) }
{
    if sharps && !has_lower(word) {
        add_all(sharp_lowered(alloc, word)?, found)?;
        add_all(sharp_kept(alloc, word)?, found)?;
    }
    Ok(())
}

/// Adds words at the end, each unless it is there already.
fn add_all(words: Vec<Chars>, found: &mut SmallVec<Chars, 4>) -> Result<(), NoMemory>
    ensures { OnOk result (found.new.items ≡ fold with_word found.old.items words.items) }
{
    for word in words {
        add(found, word)?;
    }
    Ok(())
}

/// Adds a word at the end, unless it is there already.
pub(crate) fn add(found: &mut SmallVec<Chars, 4>, word: Chars) -> Result<(), NoMemory>
    ensures { OnOk result (found.new.items ≡ with_word found.old.items word) }
{
    if !is_among(found, &word) {
        found.push(word)?;
    }
    Ok(())
}

/// Whether one of the words is this word.
fn is_among(words: &[Chars], word: &[char]) -> bool
    ensures { result ≡ is_among words.now word.now }
{
    words.iter().any(|other| other.as_slice() == word)
}

fn copy_of(alloc: Global, word: &[char]) -> Result<Chars, NoMemory>
    ensures { IfOk result (λ made. made ≡ word.now) }
{
    Ok(Items::from_vec(word.to_vec(alloc)?))
}

fn first_lowered(alloc: Global, word: &[char]) -> Result<Chars, NoMemory>
    ensures { IfOk result (λ made. made ≡ first_lowered word.now) }
{
    let mut made = Items::new(alloc);
    if let [first, rest @ ..] = word {
        made.push(low(*first))?;
        for c in rest {
            made.push(*c)?;
        }
    }
    Ok(made)
}

fn all_lowered(alloc: Global, word: &[char]) -> Result<Chars, NoMemory>
    ensures { IfOk result (λ made. made ≡ all_lowered word.now) }
{
    let made = word.iter().map(|c| low(*c)).collect(alloc)?;
    Ok(Items::from_vec(made))
}

fn rest_lowered(alloc: Global, word: &[char]) -> Result<Chars, NoMemory>
    ensures { IfOk result (λ made. made ≡ rest_lowered word.now) }
{
    let mut made = Items::new(alloc);
    if let [first, rest @ ..] = word {
        made.push(*first)?;
        for c in rest {
            made.push(low(*c))?;
        }
    }
    Ok(made)
}
