//! How much is loaded.

ghost use Rattle.std.specs.Prelude.{◌≡◌};
ghost use Rattle.dictionary_swap.specs.declared.limits.TheConstants.{SIZE_LIMIT};

/// How large an .aff file, a .dic file or a personal list may be, in bytes.
pub const SIZE_LIMIT: u64 = 16_777_216;

/// The limit, which definitions name, is this number.
pub fn files_are_limited()
    ensures { SIZE_LIMIT ≡ 16777216 }
{}
