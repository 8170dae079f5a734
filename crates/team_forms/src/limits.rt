//! How much a script may load.

ghost use Rattle.std.specs.Prelude.{◌≡◌};
ghost use Rattle.team_script.specs.Pairs.{pair_limit};
ghost use Rattle.team_forms.specs.declared.limits.TheConstants.{MOST_PAIRS};

/// How many pairs of dictionary files the sessions of a script may load.
pub const MOST_PAIRS: u64 = 4;

/// This limit, which definitions name, is this number, and the limit of a script.
pub fn loads_are_limited()
    ensures pairs { MOST_PAIRS ≡ 4 }
    ensures loaded { MOST_PAIRS ≡ pair_limit }
{}
