//! Which of the rests from a place are enough to be looked at.
//!
//! Where rows of CHECKCOMPOUNDPATTERN have replacements, a place may have many rests whose first
//! parts differ only in the joint behind them. What may stand before them does not ask for that
//! joint.

ghost use Rattle.std.specs.Prelude.{◌≡◌, true, slice_get, IfOk};
ghost use Rattle.std.specs.Option.{option_map};
ghost use Rattle.spell_types.specs.declared.parts.Part.{Part};
ghost use Rattle.spell_types.specs.Compounds.{Asked, are_joined};
ghost use Rattle.compound_words.specs.Counting.{OneOf};
ghost use Rattle.compound_words.specs.Rests.{AreHeads, CanStandFor, picked};

use crate::counting::is_at_most;
use crate::rests::{FirstPart, has_number};
use spell_types::Part;
use spell_types::lists::{Items, NoMemory};
use std::alloc::Global;

/// The places of rests that are enough to be looked at: each of the others is covered by one of
/// these.
pub(crate) fn heads_of(alloc: Global, rests: &[FirstPart]) -> Result<Items<usize>, NoMemory>
    ensures { IfOk result (AreHeads rests.now) }
{
    let mut heads = Items::new(alloc);
    for (place, rest) in rests.iter().enumerate() {
        if !is_covered(rests, &heads, rest) {
            heads.push(place)?;
        }
    }
    Ok(heads)
}

/// Whether one of the rests at these places covers a rest.
fn is_covered(rests: &[FirstPart], heads: &[usize], rest: &FirstPart) -> bool
    ensures { result ≡ true → OneOf (λ other. CanStandFor other rest.now) (picked rests.now heads.now) }
{
    for place in heads {
        if let Some(other) = rest_at(rests, *place) {
            if covers(other, rest) {
                return true;
            }
        }
    }
    false
}

/// The rest at a place.
pub(crate) fn rest_at(rests: &[FirstPart], place: usize) -> Option<&FirstPart>
    ensures { option_map (λ rest. rest.now) result ≡ slice_get rests.now place }
{
    rests.get(place)
}

/// Whether a rest may follow wherever another one may, with no more parts. One that compound rules
/// match is not looked at.
fn covers(rest: &FirstPart, other: &FirstPart) -> bool
    ensures { result ≡ true → CanStandFor rest.now other.now }
{
    if !is_same_head(&rest.part, &other.part) || has_number(&other.by_rules) {
        return false;
    }
    is_at_most(rest.by_flags, other.by_flags)
}

/// Whether two parts are the same but for the joint behind them, so that they may stand behind the
/// same parts.
fn is_same_head(part: &Part, other: &Part) -> bool
    ensures { result ≡ true → (a : Asked) (before : Part)
        → are_joined a before part.now ≡ are_joined a before other.now }
{
    part.d == other.d
        && part.off_begin == other.off_begin
        && part.text.as_slice() == other.text.as_slice()
}
