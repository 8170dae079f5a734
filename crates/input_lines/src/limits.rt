//! How much is read.

ghost use Rattle.std.specs.Prelude.{◌≡◌};
ghost use Rattle.input_lines.specs.declared.limits.TheConstants.{INPUT_LIMIT, LINE_LIMIT};

/// How many bytes are read of an input at most.
pub const INPUT_LIMIT: u64 = 4_294_967_295;

/// How long a line may be, in bytes.
pub const LINE_LIMIT: usize = 131_072;

/// These limits, which definitions name, are these numbers.
pub fn inputs_are_limited()
    ensures input { INPUT_LIMIT ≡ 4294967295 }
    ensures line { LINE_LIMIT ≡ 131072 }
{}
