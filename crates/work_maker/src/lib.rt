//! Makes a dictionary and a text of as many entries and words as are asked for, so that there is
//! work to measure. The same numbers give the same bytes.
#![tactic(auto)]

ghost use Rattle.std.specs.Prelude.{◌≡◌, ◌≤◌, ◌+◌, ◌*◌, ◌%◌, ◌||◌, ◌==◌, if◌then◌else◌, length};
ghost use Rattle.std.specs.Prelude.{IfOk};
ghost use Rattle.work_maker.specs.Made.{aff_bytes, dic_bytes, text_bytes};

mod draws;
mod words;

use draws::Draw;
use lists::NoMemory;
use std::alloc::Global;
use words::{push_entry, push_word};

/// A prefix with flag `A`, and a suffix with flag `B`.
const AFF: &str = "SET UTF-8
PFX A Y 1
PFX A 0 re .
SFX B Y 2
SFX B 0 n [^a]
SFX B a en a
";

/// How many words stand in a line of the text.
const WORDS_IN_LINE: u32 = 10;

/// The .aff file, which is the same for every size.
#[tactic(auto, unfolding(crate::specs::Made::aff_bytes))]
pub fn make_aff(alloc: Global) -> Result<Vec<u8>, NoMemory>
    ensures bytes { IfOk result (λ made. made.items ≡ aff_bytes) }
    ensures small { IfOk result (λ made. length made.items ≤ 71) }
{
    Ok(AFF.as_bytes().to_vec(alloc)?)
}

/// The .dic file with the first `size` stems, from 1 to 50,000.
#[tactic(auto, unfolding(crate::specs::Made::dic_bytes))]
pub fn make_dic(alloc: Global, size: u32) -> Result<Vec<u8>, NoMemory>
    requires some { 1 ≤ size }
    requires limited { size ≤ 50000 }
    ensures bytes { IfOk result (λ made. made.items ≡ dic_bytes size) }
    ensures small { IfOk result (λ made. length made.items ≤ 10 * size + 6) }
{
    let mut made = format!(in alloc; "{size}\n")?.into_bytes();
    for number in 0..size {
        push_entry(&mut made, number)?;
        made.push(b'\n')?;
    }
    Ok(made)
}

/// A text of `size` words, from 1 to 50,000, each from a stem of the dictionary with so many. Which
/// words they are is drawn from `start` on: about a quarter each are stems as they are, with the
/// prefix, with the suffix, and with both.
pub fn make_text(alloc: Global, start: u64, size: u32) -> Result<Vec<u8>, NoMemory>
    requires some { 1 ≤ size }
    requires limited { size ≤ 50000 }
    ensures bytes { IfOk result (λ made. made.items ≡ text_bytes start size) }
    ensures small { IfOk result (λ made. length made.items ≤ 10 * size) }
{
    let mut made = Vec::new(alloc);
    let mut draw = Draw::first(start);
    for place in 1..size + 1 {
        draw = draw.next();
        push_word(&mut made, draw.kind(), draw.stem_number(size))?;
        made.push(end_behind(place, size))?;
    }
    Ok(made)
}

/// What stands behind the word at a place of a text of `size` words.
fn end_behind(place: u32, size: u32) -> u8
    ensures { result ≡ (if place % 10 == 0 || place == size then 10 else 32) }
{
    if place % WORDS_IN_LINE == 0 || place == size {
        b'\n'
    } else {
        b' '
    }
}
