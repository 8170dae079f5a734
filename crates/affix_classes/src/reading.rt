//! The text of a condition, read.

ghost use Rattle.std.specs.Prelude.{◌≡◌, ◌≢◌, ℕ, ◌≤◌, false, List, [], ◌∷◌, ◌++◌, length, Some};
ghost use Rattle.std.specs.Prelude.{None, IfOk, IfErr};
ghost use Rattle.std.specs.List.{AllByRecursion, position};
ghost use Rattle.std.specs.Str.{chars};
ghost use Rattle.affix_classes.specs.ConditionTexts.{opens_set, closes_set, plain_piece};
ghost use Rattle.affix_classes.specs.ConditionTexts.{bracket_piece};
ghost use Rattle.affix_classes.specs.ConditionTexts.{first_piece, followed_by, pieces_of};
ghost use Rattle.affix_classes.specs.ConditionTexts.{condition_of};

use spell_types::lists::{Items, NoMemory};
use spell_types::{Chars, Condition, Piece};
use std::alloc::Global;

/// Why a text is no condition.
#[derive(Clone, Copy, Debug, PartialEq, Eq)]
pub enum ConditionFault {
    /// A bracket is opened and never closed.
    BadCondition,
    /// Memory for the answer could not be had.
    NoMemory,
}

impl From<NoMemory> for ConditionFault {
    ghost use Rattle.affix_classes.specs.declared.reading.ConditionFault.{ConditionFault};

    ghost from_gives = { λ _ fault. fault ≡ ConditionFault.NoMemory };

    fn from(_error: NoMemory) -> ConditionFault {
        ConditionFault::NoMemory
    }
}

/// The condition that a text is. The text `.` is the empty condition.
#[tactic(auto, unfolding(crate::specs::ConditionTexts::condition_of))]
pub fn read_condition(alloc: Global, text: &str) -> Result<Condition, ConditionFault>
    ensures condition { IfOk result (λ condition. condition_of text.now ≡ Some condition) }
    ensures fault { IfErr result
        (λ fault. fault ≢ ConditionFault.NoMemory → condition_of text.now ≡ None) }
{
    if text == "." {
        return Ok(Items::new(alloc));
    }
    let characters = characters_of(alloc, text)?;
    read_pieces(alloc, &characters)
}

/// A text is read piece by piece: a bracket ends at the first `]` behind it, and a text with a
/// bracket that no `]` closes is no condition.
pub fn conditions_are_read_by_pieces()
    ensures end { pieces_of [] ≡ Some [] }
    ensures plain { (c : ℕ) (text : List ℕ) → opens_set c ≡ false
        → pieces_of (c ∷ text) ≡ followed_by (plain_piece c) (pieces_of text) }
    ensures bracket { (inside text : List ℕ) → AllByRecursion (λ c. closes_set c ≡ false) inside
        → pieces_of (91 ∷ (inside ++ 93 ∷ text)) ≡ followed_by (bracket_piece inside)
        (pieces_of text) }
    ensures unclosed { (text : List ℕ) → AllByRecursion (λ c. closes_set c ≡ false) text
        → pieces_of (91 ∷ text) ≡ None }
{}

/// The characters of a text.
fn characters_of(alloc: Global, text: &str) -> Result<Chars, NoMemory>
    ensures { IfOk result (λ made. made ≡ chars text.now) }
{
    let characters: Vec<char> = text.chars().collect(alloc)?;
    Ok(Items::from_vec(characters))
}

/// The pieces that a text is, from its front to its end.
fn read_pieces(alloc: Global, text: &[char]) -> Result<Condition, ConditionFault>
    ensures condition { IfOk result (λ condition. pieces_of text.now ≡ Some condition) }
    ensures fault { IfErr result
        (λ fault. fault ≢ ConditionFault.NoMemory → pieces_of text.now ≡ None) }
{
    let mut made = Vec::new(alloc);
    let mut place = 0;
    while place < text.len() {
        let (piece, more) = read_piece(alloc, text[place], &text[place + 1..])?;
        if made.push(piece).is_err() {
            return Err(ConditionFault::NoMemory);
        }
        place += 1 + more;
    }
    // A dictionary has thousands of conditions, mostly of a piece or two.
    made.shrink_to_fit();
    Ok(Items::from_vec(made))
}

/// The piece that begins with a character, and how many of the characters behind it belong to it.
fn read_piece(alloc: Global, c: char, behind: &[char]) -> Result<(Piece, usize), ConditionFault>
    ensures piece { IfOk result (λ found. first_piece c behind.now ≡ Some found) }
    ensures within { IfOk result (λ found. found.1 ≤ length behind.now) }
    ensures fault { IfErr result
        (λ fault. fault ≢ ConditionFault.NoMemory → first_piece c behind.now ≡ None) }
{
    match c {
        '[' => {
            let Some(place) = closing_place(behind) else {
                return Err(ConditionFault::BadCondition);
            };
            let piece = read_bracket(alloc, &behind[..place])?;
            Ok((piece, place + 1))
        }
        '.' => Ok((Piece::Any, 0)),
        _ => Ok((Piece::One(c), 0)),
    }
}

/// The place of the first `]`.
fn closing_place(text: &[char]) -> Option<usize>
    ensures { result ≡ position closes_set text.now }
{
    text.iter().position(|c| *c == ']')
}

/// The piece of a bracket with these characters inside.
fn read_bracket(alloc: Global, inside: &[char]) -> Result<Piece, NoMemory>
    ensures { IfOk result (λ piece. piece ≡ bracket_piece inside.now) }
{
    if inside.starts_with(&['^']) {
        return Ok(Piece::NotAmong(Items::from_vec(inside[1..].to_vec(alloc)?)));
    }
    Ok(Piece::Among(Items::from_vec(inside.to_vec(alloc)?)))
}
