//! How much is loaded and listed.

ghost use Rattle.std.specs.Prelude.{◌≡◌};
ghost use Rattle.report_forms.specs.declared.limits.TheConstants.{DOCUMENT_LIMIT, MOST_FORMS};

/// How large a document may be, in bytes.
pub const DOCUMENT_LIMIT: u64 = 67_108_864;

/// How many forms of a dictionary are listed.
pub const MOST_FORMS: u64 = 1_000_000;

/// These limits, which definitions name, are these numbers.
pub fn reports_are_limited()
    ensures document { DOCUMENT_LIMIT ≡ 67108864 }
    ensures forms { MOST_FORMS ≡ 1000000 }
{}
