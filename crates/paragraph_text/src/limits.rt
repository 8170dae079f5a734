//! How much a list of paragraphs holds.

ghost use Rattle.std.specs.Prelude.{◌≡◌};
ghost use Rattle.paragraph_text.specs.declared.limits.TheConstants.{MOST_BYTES, MOST_PARAGRAPHS};

/// How many bytes a paragraph has at most.
pub const MOST_BYTES: usize = 65_536;

/// How many paragraphs there are at most.
pub const MOST_PARAGRAPHS: usize = 20_000;

/// These limits, which definitions name, are these numbers.
pub fn paragraphs_are_limited()
    ensures bytes { MOST_BYTES ≡ 65536 }
    ensures paragraphs { MOST_PARAGRAPHS ≡ 20000 }
{}
