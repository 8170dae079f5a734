//! The verdicts that a worker remembers, for one dictionary version.

ghost use Rattle.std.specs.Prelude.{◌≡◌, ◌==◌, false, IfSome};
ghost use Rattle.std.specs.Arc.{arc_value};
ghost use Rattle.std.specs.Option.{option_map_or};
ghost use Rattle.board_share.specs.edit_core.Runs.{IsRun, Run};
ghost use Rattle.check_workers.specs.Knowing.{KeepsFor, KnowsClaim, KnowsKept};

use crate::laws::versions_name_dictionaries;
use board_share::Claim;
use mark_types::Judge;
use std::alloc::Global;
use std::sync::Arc;
use verdict_cache::Cached;

/// How many words a worker remembers.
const PLACES: usize = 4_096;

/// What remembers verdicts, and the version of the dictionary that they are by.
#[derive(Drop)]
pub struct Kept<J: Judge> {
    pub(crate) cache: Cached<J>,
    pub(crate) dict: u64,
}

/// Keeps what remembers verdicts by a claim's dictionary: what is kept, if it is for the same
/// version, else a new one; none where there is no memory for it.
pub(crate) fn renew<J: Judge + Drop>(alloc: Global, kept: &mut Option<Kept<J>>, claim: &Claim<J>)
    ensures { (run : Run) → IsRun run → KnowsClaim J.lexicon run claim.now
        → KnowsKept J.lexicon run kept.old → KeepsFor J.lexicon run claim.now kept.new }
{
    versions_name_dictionaries();
    if is_for(kept, claim.dict) {
        return;
    }
    *kept = kept_for(alloc, claim);
}

/// Whether something is kept for this dictionary version.
fn is_for<J: Judge>(kept: &Option<Kept<J>>, dict: u64) -> bool
    ensures { result ≡ option_map_or (λ kept. kept.dict == dict) kept.now false }
{
    match kept {
        None => false,
        Some(kept) => kept.dict == dict,
    }
}

/// What remembers no verdict yet, for a claim's dictionary, if there is memory for it.
fn kept_for<J: Judge + Drop>(alloc: Global, claim: &Claim<J>) -> Option<Kept<J>>
    ensures { IfSome result (λ kept. kept ≡ record {
      cache = arc_value claim.now.judge;
      dict = claim.now.dict;
    }) }
{
    let judge = Arc::try_clone(&claim.judge).ok()?;
    let cache = Cached::new(alloc, judge, PLACES).ok()?;
    Some(Kept {
        cache,
        dict: claim.dict,
    })
}
