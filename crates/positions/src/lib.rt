//! Places in a line of text: bytes, and characters in the units of a position encoding.
#![tactic(auto)]

mod walk;

ghost use Rattle.std.specs.Prelude.{◌≡◌, ◌≤◌, ℕ, List};
ghost use Rattle.std.specs.Str.{IsCharBoundary, chars};
ghost use Rattle.positions.specs.declared.Encoding.{Encoding};
ghost use Rattle.positions.specs.Places.{IsLastPlace, IsPlace, units};
ghost use Rattle.positions.specs.Walks.{offset_at};

pub use walk::OffsetWalk;

/// In what places of a text are counted: `PositionEncodingKind` of the Language Server Protocol.
#[derive(Clone, Copy, Debug, PartialEq, Eq)]
pub enum Encoding {
    /// Bytes of UTF-8.
    Utf8,
    /// Units of UTF-16: two for a character from U+10000 on, else one.
    Utf16,
    /// Characters.
    Utf32,
}

impl Encoding {
    /// How many units a character has.
    pub fn units(self, c: char) -> u64
        ensures { result ≡ units self c }
    {
        match self {
            Encoding::Utf8 => c.len_utf8() as u64,
            Encoding::Utf16 => { if (c as u32) < 0x1_0000 { 1 } else { 2 } }
            Encoding::Utf32 => 1,
        }
    }
}

/// The byte of a line that a client means by an offset: the last place between two characters whose
/// offset is not above it. An offset behind the end means the end.
pub fn byte_of(encoding: Encoding, line: &str, offset: u64) -> usize
    ensures place { IsLastPlace encoding (chars line.now) offset result }
    ensures exact { (byte : ℕ) → IsPlace encoding (chars line.now) byte offset → result ≡ byte }
    ensures boundary { IsCharBoundary line.now result }
{
    let mut byte = 0;
    let mut left = offset;
    for c in line.chars() {
        let width = encoding.units(c);
        if left < width {
            break;
        }
        left -= width;
        byte += c.len_utf8();
    }
    byte
}

/// The offset of a byte of a line, in units of the encoding.
pub fn offset_of(encoding: Encoding, line: &str, byte: usize) -> u64
    requires { IsCharBoundary line.now byte }
    ensures place { IsPlace encoding (chars line.now) byte result }
    ensures few { result ≤ byte }
{
    let mut offset = 0;
    for c in line[..byte].chars() {
        offset += encoding.units(c);
    }
    offset
}

/// What a walk tells of a place is its offset.
pub fn walks_tell_offsets()
    ensures { (encoding : Encoding) (line : List ℕ) (byte offset : ℕ)
        → IsPlace encoding line byte offset → offset_at encoding line byte ≡ offset }
{}
