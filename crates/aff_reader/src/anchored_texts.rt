//! Texts that are anchored at the front or at the end of a word.

ghost use Rattle.std.specs.Prelude.{◌≡◌, ◌<◌, length, IfOk};
ghost use Rattle.aff_reader.specs.AnchoredTexts.{has_front, without_front, has_back, without_back};
ghost use Rattle.aff_reader.specs.AnchoredTexts.{anchored_text_of};

use spell_types::Anchored;
use std::alloc::Global;
use text_lines::lists::{Items, NoMemory};

/// What a text with its anchors stands for: the sign `^` at its front, then the sign `$` at its
/// end.
pub(crate) fn read_anchored(alloc: Global, text: &[char]) -> Result<Anchored, NoMemory>
    ensures value { IfOk result (λ made. made ≡ anchored_text_of text.now) }
    ensures some { 0 < length text.now → IfOk result (λ made. 0 < length made.text) }
{
    let rest = without_front(text);
    let own = without_back(rest);
    Ok(Anchored {
        text: Items::from_vec(own.to_vec(alloc)?),
        front: has_front(text),
        back: has_back(rest),
    })
}

/// Whether a text is anchored at the front.
fn has_front(text: &[char]) -> bool
    ensures { result ≡ has_front text.now }
{
    text.len() > 1 && text.starts_with(&['^'])
}

fn without_front(text: &[char]) -> &[char]
    ensures rest { result.now ≡ without_front text.now }
    ensures some { 0 < length text.now → 0 < length result.now }
{
    if has_front(text) { &text[1..] } else { text }
}

/// Whether a text is anchored at the end.
fn has_back(text: &[char]) -> bool
    ensures { result ≡ has_back text.now }
{
    text.len() > 1 && text.ends_with(&['$'])
}

fn without_back(text: &[char]) -> &[char]
    ensures rest { result.now ≡ without_back text.now }
    ensures some { 0 < length text.now → 0 < length result.now }
{
    if has_back(text) {
        &text[..text.len() - 1]
    } else {
        text
    }
}
