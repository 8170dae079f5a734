//! How far a history goes.

ghost use Rattle.std.specs.Prelude.{◌≡◌};
ghost use Rattle.edit_core.specs.declared.limits.TheConstants.{MOST_MOVED};

/// How far an event that is not of workers moves the furthest point of a history at most: it may
/// have all paragraphs wait again, each of which can be claimed and finished, and is an event
/// itself.
pub const MOST_MOVED: u64 = 40_001;

/// The bound, which definitions name, is this number.
pub fn moves_are_bounded()
    ensures { MOST_MOVED ≡ 40001 }
{}
