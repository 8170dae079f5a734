//! How many workers there are.

ghost use Rattle.std.specs.Prelude.{◌≡◌};
ghost use Rattle.file_loading.specs.declared.limits.TheConstants.{MOST_WORKERS};

/// How many workers words may ask for.
pub const MOST_WORKERS: u64 = 16;

/// This limit, which definitions name, is this number.
pub fn workers_are_limited()
    ensures { MOST_WORKERS ≡ 16 }
{}
