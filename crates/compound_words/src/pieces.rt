//! The parts that write a piece of a word, by what stands before it and what follows.

ghost use Rattle.std.specs.Prelude.{◌≡◌, ◌≤◌, ◌++◌, ◌&&◌, [], not, IfOk, OnOk, length};
ghost use Rattle.std.specs.List.{flat_map, list_any};
ghost use Rattle.spell_types.specs.Joints.{plain_joint};
ghost use Rattle.spell_types.specs.Cases.{is_among};
ghost use Rattle.compound_words.specs.Pieces.{AreFronts, cuts, has_put, parts_kept};
ghost use Rattle.compound_words.specs.Pieces.{parts_of, parts_put, parts_replaced, parts_short};
ghost use Rattle.compound_words.specs.Pieces.{parts_with, with_front, AreParts};
ghost use Rattle.compound_words.specs.Rests.{asked_by};

use crate::rests::FirstPart;
use crate::search::Search;
use affix_strip::derivations_are;
use joint_checks::{bare_joint, end_of, is_long_enough, replaced_joint};
use spell_types::lists::{Copied, Items, NoMemory};
use spell_types::{Chars, JointPattern, Lexicon, Part, WrittenJoint};
use std::alloc::Global;

/// A place in a word where a part may begin.
#[derive(Drop)]
pub(crate) struct Start<'a> {
    /// What stands before it.
    pub(crate) before: &'a [char],
    /// What joints may take off the front of a part there: nothing, or what rows of
    /// CHECKCOMPOUNDPATTERN name, each text once.
    pub(crate) fronts: Vec<Chars>,
}

impl<'a> Start<'a> {
    /// The place behind this text, the front of a word.
    pub(crate) fn new(
        alloc: Global,
        lexicon: &Lexicon,
        before: &'a [char],
    ) -> Result<Start<'a>, NoMemory>
        ensures text { IfOk result (λ start. start.before.now ≡ before.now) }
        ensures fronts { IfOk result
            (λ start. AreFronts lexicon.now before.now start.fronts.items) }
    {
        let mut fronts = Vec::new(alloc);
        fronts.push(Items::new(alloc))?;
        for row in lexicon.affixes.joints.as_slice() {
            add_front(alloc, before, row, &mut fronts)?;
        }
        Ok(Start { before, fronts })
    }
}

/// Adds what a row takes off the front of a part, if it may have put its replacement behind this
/// text.
fn add_front(
    alloc: Global,
    before: &[char],
    row: &JointPattern,
    fronts: &mut Vec<Chars>,
) -> Result<(), NoMemory>
    ensures { OnOk result (fronts.new.items ≡ with_front before.now row.now fronts.old.items) }
{
    if is_new_front(before, row, fronts) {
        fronts.push(row.begin.copy(alloc)?)?;
    }
    Ok(())
}

/// Whether a row may have put its replacement behind this text, and what it takes off the front of
/// a part is none of these.
fn is_new_front(before: &[char], row: &JointPattern, fronts: &[Chars]) -> bool
    ensures { result ≡ (has_put before.now row.now && not (is_among fronts.now row.now.begin)) }
{
    has_put(before, row) && !is_among(fronts, &row.begin)
}

/// Whether a text is one of these.
fn is_among(texts: &[Chars], text: &[char]) -> bool
    ensures { result ≡ is_among texts.now text.now }
{
    texts.iter().any(|other| other.as_slice() == text)
}

/// A piece of a word, with the place where it begins and what follows.
#[derive(Clone, Copy)]
pub(crate) struct WordPiece<'a> {
    pub(crate) start: &'a Start<'a>,
    pub(crate) text: &'a [char],
    pub(crate) following: &'a [char],
    /// The rests of the word that may follow.
    pub(crate) rests: &'a [FirstPart],
    /// The places of those that are enough to be looked at.
    pub(crate) heads: &'a [usize],
}

/// How a part ends: what it keeps, what the joint behind it takes off, and that joint.
#[derive(Drop)]
struct Ending<'a> {
    kept: &'a [char],
    end: &'a [char],
    joint: WrittenJoint,
}

/// All parts that write a piece of a word, where they may stand in it.
pub(crate) fn parts_of(
    alloc: Global,
    search: &Search,
    piece: &WordPiece,
) -> Result<Vec<Part>, NoMemory>
    requires { AreFronts search.now.stems.now piece.now.start.now.before.now
        piece.now.start.now.fronts.items }
    ensures { IfOk result
        (λ found. AreParts (asked_by search.now) piece.now.start.now.before.now piece.now.text.now
        piece.now.following.now piece.now.rests.now found.items) }
{
    derivations_are();
    find_parts(alloc, search, piece)
}

#[tactic(auto, unfolding(crate::specs::Pieces::parts_of))]
fn find_parts(alloc: Global, search: &Search, piece: &WordPiece) -> Result<Vec<Part>, NoMemory>
    ensures { IfOk result (λ found. found.items
        ≡ parts_of (asked_by search.now) piece.now.start.now.fronts.items piece.now.text.now
        piece.now.following.now piece.now.rests.now) }
{
    let mut found = Vec::new(alloc);
    add_plain(alloc, search, piece, &mut found)?;
    add_short(alloc, search, piece, &mut found)?;
    add_replaced(alloc, search, piece, &mut found)?;
    Ok(found)
}

/// Adds the parts that keep all of their ends.
fn add_plain(
    alloc: Global,
    search: &Search,
    piece: &WordPiece,
    found: &mut Vec<Part>,
) -> Result<(), NoMemory>
    ensures { OnOk result (found.new.items ≡ found.old.items
        ++ parts_kept (asked_by search.now) piece.now.start.now.fronts.items piece.now.text.now []
        plain_joint) }
{
    let ending = Ending {
        kept: piece.text,
        end: &[],
        joint: bare_joint(alloc, 0),
    };
    add_kept(alloc, search, &piece.start.fronts, &ending, found)
}

/// Adds the parts that end with the character that follows, which is written once: the option
/// SIMPLIFIEDTRIPLE of hunspell(5).
#[tactic(auto, unfolding(crate::specs::Pieces::parts_short))]
fn add_short(
    alloc: Global,
    search: &Search,
    piece: &WordPiece,
    found: &mut Vec<Part>,
) -> Result<(), NoMemory>
    ensures { OnOk result (found.new.items ≡ found.old.items
        ++ parts_short (asked_by search.now) piece.now.start.now.fronts.items piece.now.text.now
        piece.now.following.now) }
{
    match piece.following {
        [] => Ok(()),
        [c, ..] => {
            if !search.lexicon().affixes.options.simplified {
                return Ok(());
            }
            let ending = Ending {
                kept: piece.text,
                end: &[*c],
                joint: bare_joint(alloc, 1),
            };
            add_kept(alloc, search, &piece.start.fronts, &ending, found)
        }
    }
}

/// Adds the parts behind which a row of CHECKCOMPOUNDPATTERN puts its replacement.
fn add_replaced(
    alloc: Global,
    search: &Search,
    piece: &WordPiece,
    found: &mut Vec<Part>,
) -> Result<(), NoMemory>
    ensures { OnOk result (found.new.items ≡ found.old.items
        ++ flat_map
        (parts_replaced (asked_by search.now) piece.now.start.now.fronts.items
        piece.now.text.now piece.now.rests.now)
        search.now.stems.now.affixes.joints) }
{
    for row in search.lexicon().affixes.joints.as_slice() {
        if one_is_cut(row, piece.rests) {
            add_put(alloc, search, piece, row, found)?;
        }
    }
    Ok(())
}

/// Whether a row takes off the front of one of these rests what it names there.
fn one_is_cut(row: &JointPattern, rests: &[FirstPart]) -> bool
    ensures { result ≡ list_any (cuts row.now) rests.now }
{
    rests.iter().any(|rest| cuts(row, rest))
}

/// Whether a row takes off the front of the first part of a rest what it names there.
fn cuts(row: &JointPattern, rest: &FirstPart) -> bool
    ensures { result ≡ cuts row.now rest.now }
{
    row.begin.len() == rest.part.off_begin && rest.part.text.starts_with(&row.begin)
}

/// Adds the parts behind which this row puts its replacement.
#[tactic(auto, unfolding(crate::specs::Pieces::parts_put))]
fn add_put(
    alloc: Global,
    search: &Search,
    piece: &WordPiece,
    row: &JointPattern,
    found: &mut Vec<Part>,
) -> Result<(), NoMemory>
    ensures { OnOk result (found.new.items ≡ found.old.items
        ++ parts_put (asked_by search.now) piece.now.start.now.fronts.items piece.now.text.now
        row.now) }
{
    match &row.replacement {
        None => Ok(()),
        Some(put) => {
            if !piece.text.ends_with(put) {
                return Ok(());
            }
            let ending = Ending {
                kept: &piece.text[..piece.text.len().saturating_sub(put.len())],
                end: end_of(row),
                joint: replaced_joint(alloc, row, put)?,
            };
            add_kept(alloc, search, &piece.start.fronts, &ending, found)
        }
    }
}

/// Adds the parts with an ending, whose front one of these texts may have been.
#[tactic(auto, unfolding(crate::specs::Pieces::parts_kept))]
fn add_kept(
    alloc: Global,
    search: &Search,
    fronts: &[Chars],
    ending: &Ending,
    found: &mut Vec<Part>,
) -> Result<(), NoMemory>
    ensures { OnOk result (found.new.items ≡ found.old.items
        ++ parts_kept (asked_by search.now) fronts.now ending.now.kept.now ending.now.end.now
        ending.now.joint) }
{
    derivations_are();
    if ending.kept.is_empty() {
        return Ok(());
    }
    if search.is_too_long(least_length(&[], ending)) {
        return Ok(());
    }
    for front in fronts {
        add_behind(alloc, search, front, ending, found)?;
    }
    Ok(())
}

/// Whether a row may have put its replacement at the end of a text, behind a character that the
/// part before keeps.
fn has_put(before: &[char], row: &JointPattern) -> bool
    ensures { result ≡ has_put before.now row.now }
{
    match &row.replacement {
        None => false,
        Some(put) => put.len() < before.len() && before.ends_with(put),
    }
}

/// Adds the parts with an ending whose front, which a joint takes off, is this text.
fn add_behind(
    alloc: Global,
    search: &Search,
    front: &[char],
    ending: &Ending,
    found: &mut Vec<Part>,
) -> Result<(), NoMemory>
    ensures { OnOk result (found.new.items ≡ found.old.items
        ++ parts_with (asked_by search.now) (length front.now) ending.now.joint
        (front.now ++ (ending.now.kept.now ++ ending.now.end.now))) }
{
    derivations_are();
    if search.is_too_long(least_length(front, ending)) {
        return Ok(());
    }
    if front.is_empty() && ending.end.is_empty() {
        return add_with(alloc, search, ending.kept, 0, &ending.joint, found);
    }
    let mut text = Vec::new(alloc);
    text.extend_from_slice(front)?;
    text.extend_from_slice(ending.kept)?;
    text.extend_from_slice(ending.end)?;
    add_with(alloc, search, &text, front.len(), &ending.joint, found)
}

/// How long a text is that begins with a front and ends so: exactly, unless the number does not
/// fit.
fn least_length(front: &[char], ending: &Ending) -> usize
    ensures { result ≤ length (front.now ++ (ending.now.kept.now ++ ending.now.end.now)) }
{
    let own = ending.kept.len().saturating_add(ending.end.len());
    front.len().saturating_add(own)
}

/// Adds the parts with a text, of which joints take so much off.
#[tactic(auto, unfolding(crate::specs::Pieces::parts_with))]
fn add_with(
    alloc: Global,
    search: &Search,
    text: &[char],
    off_begin: usize,
    joint: &WrittenJoint,
    found: &mut Vec<Part>,
) -> Result<(), NoMemory>
    ensures { OnOk result
        (found.new.items ≡ found.old.items ++ parts_with (asked_by search.now) off_begin joint.now
        text.now) }
{
    if !is_long_enough(search.lexicon(), text) {
        return Ok(());
    }
    let derivations = search.derivations(alloc, text)?;
    search.add_derived(alloc, text, off_begin, joint, &derivations, found)
}
