//! Which places of a word may be reached: a list that tells it of each place.

ghost use Rattle.std.specs.Prelude.{◌≡◌, ◌<◌, true, length};
ghost use Rattle.affix_strip.specs.Reaching.{KeepsReached, ReachesAll, is_reached};

/// Tells of a place that it may be reached, if there is one and `may` says so.
pub(crate) fn reach(reached: &mut [bool], place: usize, may: bool)
    ensures kept { KeepsReached place reached.old reached.new }
    ensures told { may ≡ true → place < length reached.old → is_reached reached.new place ≡ true }
{
    if may && place < reached.len() {
        reached[place] = true;
    }
}

/// Tells of all places from one on that they may be reached.
pub(crate) fn reach_all(reached: &mut [bool], from: usize)
    ensures { ReachesAll from reached.old reached.new }
{
    for place in from..reached.len() {
        reached[place] = true;
    }
}
