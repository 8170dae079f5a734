//! The places of a word to which parts may lead from its front.

ghost use Rattle.std.specs.Prelude.{◌≡◌, ◌≤◌, ◌<◌, ℕ, true, false, length, IfOk};
ghost use Rattle.std.specs.List.{list_any};
ghost use Rattle.compound_words.specs.Reach.{AreReached, IsStartAt, has_joints};
ghost use Rattle.affix_strip.specs.Reaching.{is_reached};
ghost use Rattle.compound_words.specs.Reach.{puts_text, ReachesFrom};
ghost use Rattle.compound_words.specs.Rests.{asked_by, patterns_of, AreRulesOf};

use crate::search::Search;
use spell_types::lists::NoMemory;
use spell_types::{JointPattern, Lexicon, Place, patterns_match};
use std::alloc::Global;

/// At each place of a word whether parts may lead to it from the word's front. Most places are
/// passed over without a look at entries. Where joints take characters off or put some between
/// parts, each place may be reached.
pub(crate) fn places_reached(
    alloc: Global,
    search: &Search,
    word: &[char],
) -> Result<Vec<bool>, NoMemory>
    requires { AreRulesOf (asked_by search.now) (patterns_of search.now) }
    ensures { IfOk result
        (λ reached. AreReached (asked_by search.now) (patterns_of search.now) word.now
        reached.items) }
{
    if has_joints(search.lexicon()) {
        return Ok(vec![in alloc; true; word.len()]?);
    }
    let mut reached = vec![in alloc; false; word.len()]?;
    reach_all(search, word, &mut reached);
    Ok(reached)
}

/// Whether a joint takes characters off a part or puts some behind it.
fn has_joints(lexicon: &Lexicon) -> bool
    ensures { result ≡ has_joints lexicon.now }
{
    lexicon.affixes.options.simplified || one_puts(&lexicon.affixes.joints)
}

fn one_puts(rows: &[JointPattern]) -> bool
    ensures { result ≡ list_any puts_text rows.now }
{
    rows.iter().any(|row| puts_text(row))
}

fn puts_text(row: &JointPattern) -> bool
    ensures { result ≡ puts_text row.now }
{
    row.replacement.is_some()
}

/// Tells of each place whether parts may lead to it, where no joint takes characters off.
fn reach_all(search: &Search, word: &[char], reached: &mut [bool])
    requires rules { AreRulesOf (asked_by search.now) (patterns_of search.now) }
    requires joints { has_joints search.now.stems.now ≡ false }
    requires long { length reached.old ≡ length word.now }
    ensures { AreReached (asked_by search.now) (patterns_of search.now) word.now reached.new }
{
    patterns_match();
    if word.is_empty() {
        return;
    }
    reached[0] = true;
    for from in 0..word.len() {
        if reached[from] {
            reach_from(search, word, from, reached);
        }
    }
}

/// Tells of each place behind one to which parts lead whether one part may lead on to it.
fn reach_from(search: &Search, word: &[char], from: usize, reached: &mut [bool])
    requires long { length reached.old ≡ length word.now }
    requires inside { from < length word.now }
    ensures { ReachesFrom search.now.stems.now word.now from reached.old reached.new }
{
    search.stems.reach_ends(word, from, place_at(from), reached);
}

/// Where in a compound a part stands that begins at a place of a word and is not the last one.
fn place_at(from: usize) -> Place
    ensures { IsStartAt result from }
{
    if from == 0 {
        Place::First
    } else {
        Place::Middle
    }
}
