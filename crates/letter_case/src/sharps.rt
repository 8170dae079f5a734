//! The ways to lower a word where SS may stand for ß.

ghost use Rattle.std.specs.Prelude.{◌≡◌, ℕ, List, [], ◌∷◌, ◌++◌, map, drop, IfOk, OnOk};
ghost use Rattle.std.specs.List.{flat_map};
ghost use Rattle.spell_types.specs.Cases.{is_pair, low, sharp_kept, sharp_lowered};
ghost use Rattle.spell_types.specs.declared.limits.TheConstants.{MOST_PAIRS};
ghost use Rattle.letter_case.specs.Found.{begins_pair, behind_each, is_pair_next, with_pair};

use crate::low;
use spell_types::lists::{Copied, Items, NoMemory};
use spell_types::{Chars, MOST_PAIRS};
use std::alloc::Global;

/// All ways to lower a word where each of its first five pairs SS is written as ß or as ss.
#[tactic(auto, using(crate::proofs::SharpLemmas::nothing_before))]
pub(crate) fn sharp_lowered(alloc: Global, word: &[char]) -> Result<Vec<Chars>, NoMemory>
    ensures { IfOk result (λ made. made.items ≡ sharp_lowered MOST_PAIRS word.now) }
{
    let mut fronts = Vec::new(alloc);
    fronts.push(Items::new(alloc))?;
    lowered_behind(alloc, fronts, MOST_PAIRS, word)
}

/// The same with the first character kept, which is then in no pair that is written as ß.
#[tactic(auto, using(crate::proofs::SharpLemmas::front_before))]
pub(crate) fn sharp_kept(alloc: Global, word: &[char]) -> Result<Vec<Chars>, NoMemory>
    ensures { IfOk result (λ made. made.items ≡ sharp_kept MOST_PAIRS word.now) }
{
    match word {
        [] => Ok(Vec::new(alloc)),
        [c, d, rest @ ..] if is_pair(*c, *d) => {
            let fronts = front_of(alloc, &[*c, low(*d)])?;
            lowered_behind(alloc, fronts, MOST_PAIRS - 1, rest)
        }
        [c, rest @ ..] => {
            let fronts = front_of(alloc, &[*c])?;
            lowered_behind(alloc, fronts, MOST_PAIRS, rest)
        }
    }
}

/// A list of one text.
fn front_of(alloc: Global, text: &[char]) -> Result<Vec<Chars>, NoMemory>
    ensures { IfOk result (λ made. made.items ≡ text.now ∷ []) }
{
    let mut fronts = Vec::new(alloc);
    fronts.push(Items::from_vec(text.to_vec(alloc)?))?;
    Ok(fronts)
}

/// Each of these fronts with each way to lower the word behind it, where so many of its first pairs
/// may be written as ß.
fn lowered_behind(
    alloc: Global,
    fronts: Vec<Chars>,
    pairs: usize,
    word: &[char],
) -> Result<Vec<Chars>, NoMemory>
    ensures { IfOk result
        (λ made. made.items ≡ behind_each fronts.items (sharp_lowered pairs word.now)) }
{
    let mut made = fronts;
    let mut left = pairs;
    let mut rest = word;
    while !rest.is_empty() {
        if is_pair_next(left, rest) {
            made = with_pair(alloc, &made, low('S'), low('S'))?;
            left -= 1;
            rest = behind(rest, 2);
        } else {
            push_each(&mut made, low(rest[0]))?;
            rest = behind(rest, 1);
        }
    }
    Ok(made)
}

/// What is left of a word behind so many characters.
fn behind(word: &[char], count: usize) -> &[char]
    ensures { result.now ≡ drop count word.now }
{
    match word.get(count..) {
        Some(rest) => rest,
        None => &[],
    }
}

/// Whether a word begins with a pair SS, and one may be written as ß.
fn is_pair_next(left: usize, word: &[char]) -> bool
    ensures { result ≡ is_pair_next left word.now }
{
    left > 0 && begins_pair(word)
}

/// Whether a word begins with a pair SS.
fn begins_pair(word: &[char]) -> bool
    ensures { result ≡ begins_pair word.now }
{
    match word {
        [c, d, ..] => is_pair(*c, *d),
        _ => false,
    }
}

/// Whether two characters are a pair SS.
fn is_pair(c: char, d: char) -> bool
    ensures { result ≡ is_pair c d }
{
    c == 'S' && d == 'S'
}

/// Each of these texts with ß behind it, and with these two characters.
fn with_pair(alloc: Global, fronts: &[Chars], c: char, d: char) -> Result<Vec<Chars>, NoMemory>
    ensures { IfOk result (λ made. made.items ≡ flat_map (with_pair c d) fronts.now) }
{
    let mut made = Vec::new(alloc);
    for front in fronts {
        let mut sharp = front.copy(alloc)?;
        sharp.push('ß')?;
        made.push(sharp)?;
        let mut both = front.copy(alloc)?;
        both.push(c)?;
        both.push(d)?;
        made.push(both)?;
    }
    Ok(made)
}

/// Puts a character behind each of these texts.
fn push_each(texts: &mut Vec<Chars>, c: char) -> Result<(), NoMemory>
    ensures { OnOk result (texts.new.items ≡ map (λ text. text ++ c ∷ []) texts.old.items) }
{
    let mut place = 0;
    while place < texts.len() {
        texts[place].push(c)?;
        place += 1;
    }
    Ok(())
}
