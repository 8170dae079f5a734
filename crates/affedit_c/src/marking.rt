//! Marks as C is told them.

ghost use Rattle.std.specs.Prelude.{◌≡◌};
ghost use Rattle.affedit_c.specs.Marks.{encoding_of, span_in, span_of_mark};

use crate::fronts::{AsTheyAre, Telling};
use mark_types::Mark;
use positions::{Encoding, OffsetWalk};

/// Where a word stands that the dictionary does not generate: its first unit and the unit past its
/// end, from 0. Units are bytes, unless the caller asks for others.
#[repr(C)]
#[derive(Clone, Copy, Debug, Drop, PartialEq, Eq)]
pub struct MarkSpan {
    pub from: u32,
    pub to: u32,
}

/// A mark is told by where its word stands.
impl Telling<Mark, MarkSpan> for AsTheyAre {
    ghost told = { λ telling. span_of_mark };

    fn tell(&mut self, item: &Mark) -> MarkSpan {
        MarkSpan {
            from: item.from,
            to: item.to,
        }
    }
}

/// A mark is told by where its word stands in the text that is walked along, in units of the walk.
impl<'a> Telling<Mark, MarkSpan> for OffsetWalk<'a> {
    ghost told = { λ walked. span_in walked.encoding walked.line };

    fn tell(&mut self, item: &Mark) -> MarkSpan {
        MarkSpan {
            from: self.offset_of(item.from as usize) as u32,
            to: self.offset_of(item.to as usize) as u32,
        }
    }
}

/// The units of places that a number of C's names.
pub fn encoding_of(number: u32) -> Option<Encoding>
    ensures { result ≡ encoding_of number }
{
    match number {
        0 => Some(Encoding::Utf8),
        1 => Some(Encoding::Utf16),
        2 => Some(Encoding::Utf32),
        _ => None,
    }
}
