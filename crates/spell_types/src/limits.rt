//! What is bounded of a word.

ghost use Rattle.std.specs.Prelude.{◌≡◌};
ghost use Rattle.spell_types.specs.declared.limits.TheConstants.{MOST_PAIRS};

/// How many pairs SS of a word may be written as ß: this project's own bound.
pub const MOST_PAIRS: usize = 5;

/// The bound, which definitions name, is this number.
pub fn pairs_are_bounded()
    ensures { MOST_PAIRS ≡ 5 }
{}
