//! The rests of a word from each of its places, the last place first.

ghost use Rattle.std.specs.Prelude.{◌≡◌, ◌≤◌, ◌<◌, ◌^◌, ◌-◌, ◌++◌, [], true, take, drop, length};
ghost use Rattle.std.specs.Prelude.{filter, IfOk, OnOk};
ghost use Rattle.std.specs.List.{list_any};
ghost use Rattle.spell_types.specs.declared.parts.Place.{Place};
ghost use Rattle.spell_types.specs.Compounds.{is_made_up};
ghost use Rattle.compound_words.specs.Counting.{number_at};
ghost use Rattle.compound_words.specs.Pieces.{AreFronts};
ghost use Rattle.affix_strip.specs.Reaching.{is_reached};
ghost use Rattle.compound_words.specs.Reach.{AreReached, IsStartAt};
ghost use Rattle.compound_words.specs.Rests.{asked_by, patterns_of, rests_at, may_precede, picked};
ghost use Rattle.compound_words.specs.Rests.{AreHeads, is_few, has_few, IsRowAdded, IsAddedOnce};
ghost use Rattle.compound_words.specs.Rests.{Grows, HasFirsts, HasPart, HasInner, IsFrontOf, IsRow};
ghost use Rattle.compound_words.specs.Rests.{AreRows, AreRulesOf};

use crate::counting::number_at;
use crate::heads::{heads_of, rest_at};
use crate::pieces::{Start, WordPiece, parts_of};
use crate::reach::places_reached;
use crate::rests::{Behind, FirstPart, RestsRow, StepCounts, rest_with};
use crate::search::Search;
use spell_types::lists::{Items, NoMemory};
use spell_types::{Part, Place, compounds_have_parts, patterns_match};
use std::alloc::Global;

/// Whether parts of the dictionary make up a word. The rests are found from the end of the word to
/// its front: each place from which parts write the rest of the word has a row with the first parts
/// of those, and with how few parts each may have. A text is looked up only where such a place is
/// behind it, and only once.
pub(crate) fn is_made_up(alloc: Global, search: &Search, word: &[char]) -> Result<bool, NoMemory>
    requires { AreRulesOf (asked_by search.now) (patterns_of search.now) }
    ensures { IfOk result (λ answer. answer ≡ is_made_up (asked_by search.now) word.now) }
{
    compounds_have_parts();
    patterns_match();
    let reached = places_reached(alloc, search, word)?;
    let rows = rows_of(alloc, search, &reached, word)?;
    if rows.is_empty() {
        return Ok(false);
    }
    let mut firsts = Items::new(alloc);
    let lexicon = search.lexicon();
    let start = Start::new(alloc, lexicon, &word[..0])?;
    add_before_rows(
        alloc,
        search,
        Place::First,
        &start,
        &reached,
        word,
        0,
        &rows,
        &mut firsts,
    )?;
    Ok(one_has_few(search, &firsts))
}

/// The rows of all places inside a word that may be reached.
fn rows_of(
    alloc: Global,
    search: &Search,
    reached: &[bool],
    word: &[char],
) -> Result<Vec<RestsRow>, NoMemory>
    requires { AreReached (asked_by search.now) (patterns_of search.now) word.now reached.now }
    ensures rows { IfOk result
        (λ rows. AreRows (asked_by search.now) (patterns_of search.now) reached.now word.now 0
        rows.items) }
    ensures fits { length word.now ≤ 2 ^ 64 - 1 }
{
    let mut rows = Vec::new(alloc);
    let mut from = word.len();
    while from > 1 {
        from -= 1;
        if may_reach(reached, from) {
            add_row(alloc, search, reached, word, from, &mut rows)?;
        }
    }
    Ok(rows)
}

/// Whether a place may be reached.
fn may_reach(reached: &[bool], place: usize) -> bool
    ensures { result ≡ is_reached reached.now place }
{
    match reached.get(place) {
        None => false,
        Some(may) => *may,
    }
}

/// Adds the row of a place inside a word that may be reached, if there are rests from it.
fn add_row(
    alloc: Global,
    search: &Search,
    reached: &[bool],
    word: &[char],
    from: usize,
    rows: &mut Vec<RestsRow>,
) -> Result<(), NoMemory>
    requires reached { AreReached (asked_by search.now) (patterns_of search.now) word.now
        reached.now }
    requires here { is_reached reached.now from ≡ true }
    requires some { 0 < from }
    requires within { from < length word.now }
    requires fits { length word.now ≤ 2 ^ 64 - 1 }
    requires rows { AreRows (asked_by search.now) (patterns_of search.now) reached.now word.now
        from rows.old.items }
    ensures { OnOk result
        (AreRows (asked_by search.now) (patterns_of search.now) reached.now word.now (from - 1)
        rows.new.items) }
{
    let rests = rests_from(alloc, search, reached, word, from, rows)?;
    if !rests.is_empty() {
        let heads = heads_of(alloc, &rests)?;
        rows.push(RestsRow {
            place: from,
            rests,
            heads,
        })?;
    }
    Ok(())
}

/// The rests from a place inside a word, where there are those from each place behind it.
fn rests_from(
    alloc: Global,
    search: &Search,
    reached: &[bool],
    word: &[char],
    from: usize,
    rows: &[RestsRow],
) -> Result<Items<FirstPart>, NoMemory>
    requires reached { AreReached (asked_by search.now) (patterns_of search.now) word.now
        reached.now }
    requires here { is_reached reached.now from ≡ true }
    requires some { 0 < from }
    requires within { from < length word.now }
    requires fits { length word.now ≤ 2 ^ 64 - 1 }
    requires rows { AreRows (asked_by search.now) (patterns_of search.now) reached.now word.now
        from rows.now }
    ensures { IfOk result
        (IsRow (asked_by search.now) (patterns_of search.now) (take from word.now)
        (drop from word.now)) }
{
    let mut row = Items::new(alloc);
    let lexicon = search.lexicon();
    let start = Start::new(alloc, lexicon, &word[..from])?;
    add_last(alloc, search, &start, &word[from..], &mut row)?;
    add_before_rows(
        alloc,
        search,
        Place::Middle,
        &start,
        reached,
        word,
        from,
        rows,
        &mut row,
    )?;
    Ok(row)
}

/// Adds the rests from a place whose first part is followed by others.
fn add_before_rows<'a>(
    alloc: Global,
    search: &Search,
    here: Place,
    start: &'a Start<'a>,
    reached: &[bool],
    word: &'a [char],
    from: usize,
    rows: &'a [RestsRow],
    row: &mut Items<FirstPart>,
) -> Result<(), NoMemory>
    requires reached { AreReached (asked_by search.now) (patterns_of search.now) word.now
        reached.now }
    requires at { from < length word.now → is_reached reached.now from ≡ true }
    requires start { IsStartAt here from }
    requires rows { AreRows (asked_by search.now) (patterns_of search.now) reached.now word.now
        from rows.now }
    requires fits { length word.now ≤ 2 ^ 64 - 1 }
    requires within { from ≤ length word.now }
    requires front { IsFrontOf here (take from word.now) }
    requires before { start.now.before.now ≡ take from word.now }
    requires fronts { AreFronts search.now.stems.now start.now.before.now start.now.fronts.items }
    ensures grows { OnOk result
        (Grows (asked_by search.now) (patterns_of search.now) here (drop from word.now) row.old
        row.new) }
    ensures all { OnOk result
        (HasInner (asked_by search.now) (patterns_of search.now) here (take from word.now)
        (drop from word.now) row.new) }
{
    patterns_match();
    for behind in rows {
        let piece = WordPiece {
            start,
            text: &word[from..behind.place],
            following: &word[behind.place..],
            rests: &behind.rests,
            heads: &behind.heads,
        };
        add_before(alloc, search, here, &piece, row)?;
    }
    Ok(())
}

/// Adds the rests of one part that writes this text, the end of the word.
fn add_last<'a>(
    alloc: Global,
    search: &Search,
    start: &'a Start<'a>,
    text: &'a [char],
    row: &mut Items<FirstPart>,
) -> Result<(), NoMemory>
    requires { AreFronts search.now.stems.now start.now.before.now start.now.fronts.items }
    ensures grows { OnOk result
        (Grows (asked_by search.now) (patterns_of search.now) Place.Middle text.now row.old
        row.new) }
    ensures has { OnOk result
        (HasFirsts (asked_by search.now) (patterns_of search.now) Place.Middle text.now
        (record { before = start.now.before.now; front = text.now; following = []; rests = [] })
        row.new) }
{
    patterns_match();
    let behind = Behind {
        is_end: true,
        rests: &[],
    };
    let piece = WordPiece {
        start,
        text,
        following: &[],
        rests: &[],
        heads: &[],
    };
    let mut parts = parts_of(alloc, search, &piece)?;
    let known = row.len();
    while let Some(part) = parts.pop() {
        if search.may_end(&part) {
            add(alloc, search, Place::Last, part, &behind, known, row)?;
        }
    }
    Ok(())
}

/// Adds the rests whose first part writes this text and is followed by one of these rests.
fn add_before(
    alloc: Global,
    search: &Search,
    here: Place,
    piece: &WordPiece,
    row: &mut Items<FirstPart>,
) -> Result<(), NoMemory>
    requires row { IsRow (asked_by search.now) (patterns_of search.now)
        (piece.now.start.now.before.now ++ piece.now.text.now) piece.now.following.now
        piece.now.rests.now }
    requires enough { AreHeads piece.now.rests.now piece.now.heads.now }
    requires some { 0 < length piece.now.following.now }
    requires fits { length (piece.now.text.now ++ piece.now.following.now) ≤ 2 ^ 64 - 1 }
    requires front { IsFrontOf here piece.now.start.now.before.now }
    requires fronts { AreFronts search.now.stems.now piece.now.start.now.before.now
        piece.now.start.now.fronts.items }
    ensures grows { OnOk result
        (Grows (asked_by search.now) (patterns_of search.now) here
        (piece.now.text.now ++ piece.now.following.now) row.old row.new) }
    ensures has { OnOk result
        (HasFirsts (asked_by search.now) (patterns_of search.now) here
        (piece.now.text.now ++ piece.now.following.now)
        (record {
          before = piece.now.start.now.before.now;
          front = piece.now.text.now;
          following = piece.now.following.now;
          rests = piece.now.rests.now;
        }) row.new) }
{
    patterns_match();
    let mut parts = parts_of(alloc, search, piece)?;
    let known = row.len();
    while let Some(part) = parts.pop() {
        let followers = followers(alloc, search, &part, piece)?;
        let behind = Behind {
            is_end: false,
            rests: &followers,
        };
        add(alloc, search, here, part, &behind, known, row)?;
    }
    Ok(())
}

/// Whether two parts are the same.
#[tactic(auto, unfolding(spell_types::specs::Joints::is_same_joint))]
fn is_same_part(part: &Part, other: &Part) -> bool
    ensures { result ≡ true → part.now ≡ other.now }
{
    part.d == other.d
        && part.off_begin == other.off_begin
        && part.joint.off_end == other.joint.off_end
        && part.joint.off_begin == other.joint.off_begin
        && part.joint.put.as_slice() == other.joint.put.as_slice()
        && part.text.as_slice() == other.text.as_slice()
}

/// Whether one of the rests from a place on begins with a part.
fn has_part(rests: &[FirstPart], from: usize, part: &Part) -> bool
    ensures { result ≡ true → HasPart part.now rests.now }
{
    let mut place = from;
    while place < rests.len() {
        if is_same_part(&rests[place].part, part) {
            return true;
        }
        place += 1;
    }
    false
}

/// Adds the rest that begins with a part, if there is one, and if that part is not there already:
/// several rows of CHECKCOMPOUNDPATTERN may make it. It is looked for behind so many rests, which
/// are of other pieces.
fn add(
    alloc: Global,
    search: &Search,
    place: Place,
    part: Part,
    behind: &Behind,
    known: usize,
    row: &mut Items<FirstPart>,
) -> Result<(), NoMemory>
    ensures { OnOk result
        (IsAddedOnce (asked_by search.now) (patterns_of search.now) place part behind.now row.old
        row.new) }
{
    if has_part(row, known, &part) {
        return Ok(());
    }
    add_new(alloc, search, place, part, behind, row)
}

/// Adds the rest that begins with a part, if there is one.
fn add_new(
    alloc: Global,
    search: &Search,
    place: Place,
    part: Part,
    behind: &Behind,
    row: &mut Items<FirstPart>,
) -> Result<(), NoMemory>
    ensures { OnOk result
        (IsRowAdded (asked_by search.now) (patterns_of search.now) place part behind.now row.old
        row.new) }
{
    if let Some(rest) = rest_with(alloc, search, place, part, behind)? {
        row.push(rest)?;
    }
    Ok(())
}

/// The rests that a part may stand before, of those that are enough to be looked at.
fn followers<'a>(
    alloc: Global,
    search: &Search,
    part: &Part,
    piece: &WordPiece<'a>,
) -> Result<Vec<&'a FirstPart>, NoMemory>
    ensures { IfOk result (λ found. rests_at found.items
        ≡ filter (may_precede (asked_by search.now) part.now)
        (picked piece.now.rests.now piece.now.heads.now)) }
{
    let mut found = Vec::new(alloc);
    for place in piece.heads {
        if let Some(rest) = rest_at(piece.rests, *place) {
            if search.do_meet(part, &rest.part) {
                found.push(rest)?;
            }
        }
    }
    Ok(found)
}

/// Whether one of the rests has few enough parts.
fn one_has_few(search: &Search, rests: &[FirstPart]) -> bool
    ensures { result ≡ list_any (has_few (asked_by search.now)) rests.now }
{
    rests.iter().any(|rest| has_few(search, rest))
}

/// Whether a rest has few enough parts, in one of the ways that they may stand.
fn has_few(search: &Search, rest: &FirstPart) -> bool
    ensures { result ≡ has_few (asked_by search.now) rest.now }
{
    is_few(search, rest.by_flags) || rule_has_few(search, &rest.by_rules)
}

/// Whether a rule matches few enough parts, from its first step on.
fn rule_has_few(search: &Search, numbers: &[StepCounts]) -> bool
    ensures { result ≡ list_any (λ own. is_few (asked_by search.now) (number_at own 0))
        numbers.now }
{
    numbers.iter().any(|own| is_few(search, number_at(own, 0)))
}

/// Whether there are parts, and few enough: the option COMPOUNDWORDMAX of hunspell(5).
fn is_few(search: &Search, number: Option<usize>) -> bool
    ensures { result ≡ is_few (asked_by search.now) number }
{
    match (number, search.lexicon().affixes.options.word_max) {
        (None, _) => false,
        (Some(_), None) => true,
        (Some(number), Some(most)) => number <= most as usize,
    }
}
