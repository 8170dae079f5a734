//! Numbers that look drawn by chance, the same ones from the same start.

ghost use Rattle.std.specs.Prelude.{◌≡◌, ◌≤◌, ◌<◌, ◌/◌, ◌%◌, ◌^◌};
ghost use Rattle.work_maker.specs.Made.{drawn_after};
ghost use Rattle.work_maker.specs.Words.{kind_with_number};

use crate::words::Kind;

const FACTOR: u32 = 1229;

const SUMMAND: u32 = 351;
/// Each draw is below this.
const LIMIT: u32 = 1 << 20;
/// A quarter of the draws for each kind.
const DRAWS_OF_A_KIND: u32 = 1 << 18;
/// So many neighbouring draws name the same stem: the lowest bits are left out, since they repeat
/// too soon.
const DRAWS_OF_A_STEM: u32 = 16;

/// A number drawn, which names a stem and the kind of a word.
#[derive(Clone, Copy, Debug, PartialEq, Eq)]
pub struct Draw {
    pub number: u32,
    pub ghost limited: { number < 2 ^ 20 },
}

impl Draw {
    /// What stands before the first draw.
    pub fn first(start: u64) -> Draw
        ensures { result.number ≡ start % 2 ^ 20 }
    {
        Draw {
            number: (start % u64::from(LIMIT)) as u32,
        }
    }

    /// The draw after this one.
    pub fn next(self) -> Draw
        ensures { result.number ≡ drawn_after self.number }
    {
        Draw {
            number: (self.number * FACTOR + SUMMAND) % LIMIT,
        }
    }

    /// The kind of the word that is drawn.
    pub fn kind(self) -> Kind
        ensures { result ≡ kind_with_number (self.number / 2 ^ 18) }
    {
        Kind::of(self.number / DRAWS_OF_A_KIND)
    }

    /// The number of the stem that is drawn, of so many.
    pub fn stem_number(self, size: u32) -> u32
        requires { 1 ≤ size }
        ensures { result ≡ self.number / 16 % size }
    {
        self.number / DRAWS_OF_A_STEM % size
    }
}
