//! A walk along a line, which counts units on its way.

ghost use Rattle.std.specs.Prelude.{◌≡◌, ◌≤◌, ◌<◌, ◌∷◌, [], List, ℕ, length, IfSome, IfNone};
ghost use Rattle.std.specs.Str.{chars};
ghost use Rattle.positions.specs.declared.Encoding.{Encoding};
ghost use Rattle.positions.specs.Walks.{IsArrived, IsOnWay, offset_at};

use crate::Encoding;
use std::marker::Model;

/// A walk along a line, from byte to byte, that tells the offset of each. It goes on from the byte
/// that it was asked for last, so that it passes each character once if the bytes rise. Contracts see
/// it as the encoding and the line.
#[derive(Drop)]
pub struct OffsetWalk<'a> {
    encoding: Encoding,
    line: &'a str,
    reached: Reached<'a>,
}

/// How far a walk has come.
#[derive(Clone, Copy)]
struct Reached<'a> {
    byte: usize,
    offset: u64,
    /// What stands behind the byte.
    left: &'a str,
}

impl<'a> Model for OffsetWalk<'a> {
    ghost use Rattle.std.specs.Str.{chars};
    ghost use Rattle.positions.specs.Walks.{IsOnWay, Walked};

    ghost Value = { Walked };

    ghost view = { λ inside. record { encoding = inside.encoding; line = chars inside.line.now } };

    ghost invariant = { λ inside. IsOnWay inside.encoding (chars inside.line.now) inside.reached };
}

impl<'a> OffsetWalk<'a> {
    /// A walk from the beginning of a line.
    pub fn new(encoding: Encoding, line: &'a str) -> OffsetWalk<'a>
        ensures encoding { result.encoding ≡ encoding }
        ensures line { result.line ≡ chars line.now }
    {
        OffsetWalk {
            encoding,
            line,
            reached: start(line),
        }
    }

    /// The offset of a byte of the line, in units of the encoding: how many units the characters
    /// have that end there, or before. In UTF-8 it is the byte itself.
    pub fn offset_of(&mut self, byte: usize) -> u64
        ensures offset { result ≡ offset_at self.old.encoding self.old.line byte }
        ensures few { result ≤ byte }
        ensures same { self.new ≡ self.old }
    {
        if self.encoding == Encoding::Utf8 {
            return byte as u64;
        }
        let from = before(self.line, self.reached, byte);
        let reached = walked(self.encoding, from, byte);
        self.reached = reached;
        reached.offset
    }
}

/// The beginning of a line.
fn start(line: &str) -> Reached<'_>
    ensures byte { result.byte ≡ 0 }
    ensures on_way { (encoding : Encoding) → IsOnWay encoding (chars line.now) result }
{
    Reached {
        byte: 0,
        offset: 0,
        left: line,
    }
}

/// A place from which a byte is reached: the one that the walk has come to, or else the beginning.
fn before<'a>(line: &'a str, reached: Reached<'a>, byte: usize) -> Reached<'a>
    ensures within { result.byte ≤ byte }
    ensures on_way { (encoding : Encoding) → IsOnWay encoding (chars line.now) reached.entry
        → IsOnWay encoding (chars line.now) result }
{
    if byte < reached.byte {
        return start(line);
    }
    reached
}

/// The walk from one place to the last one that is not behind a byte.
fn walked(encoding: Encoding, from: Reached<'_>, byte: usize) -> Reached<'_>
    requires within { from.byte ≤ byte }
    requires few { from.offset ≤ from.byte }
    ensures arrived { (line : List ℕ) → IsOnWay encoding line from.entry
        → IsArrived encoding line byte result }
    ensures few { result.offset ≤ byte }
{
    let mut reached = from;
    while let Some((c, left)) = first_of(reached.left) {
        let width = c.len_utf8();
        if byte - reached.byte < width {
            break;
        }
        reached = Reached {
            byte: reached.byte + width,
            offset: reached.offset + encoding.units(c),
            left,
        };
    }
    reached
}

/// The first character of a text, and what stands behind it.
fn first_of(text: &str) -> Option<(char, &str)>
    ensures none { IfNone result (chars text.now ≡ []) }
    ensures first { IfSome result (λ found. chars text.now ≡ found.0 ∷ chars found.1.now) }
    ensures shorter { IfSome result (λ found. length found.1.now < length text.now) }
{
    let mut characters = text.chars();
    let first = characters.next()?;
    Some((first, characters.as_str()))
}
