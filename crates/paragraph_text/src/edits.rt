//! Edits of a list of paragraphs, and why one is refused.

ghost use Rattle.std.specs.Prelude.{◌≡◌, ◌==◌, ◌+◌, ◌≤◌, ◌<◌, List, ℕ, length, position, Some};
ghost use Rattle.std.specs.Prelude.{None, MatchOption, IfOk, IfErr, OnOk};
ghost use Rattle.std.specs.Arc.{arc_value};
ghost use Rattle.std.specs.List.{AllByRecursion};
ghost use Rattle.std.specs.Option.{option_and_then};
ghost use Rattle.text_lines.specs.lists.Answers.{IsDueOr};
ghost use Rattle.paragraph_text.specs.Paragraphs.{AreValid, HasNoBreak, HaveOwnIds, Paragraph};
ghost use Rattle.paragraph_text.specs.Paragraphs.{numbered_from};
ghost use Rattle.paragraph_text.specs.Edits.{Applies, Inserts, IsChanged, IsEditDecided, IsFoundAt};
ghost use Rattle.paragraph_text.specs.Edits.{IsGap, IsSpliced, Removes, Replaces, behind, break_in};
ghost use Rattle.paragraph_text.specs.Edits.{entry_refusal, edit_refusal, gone_before};
ghost use Rattle.paragraph_text.specs.Edits.{edit_gone_or};
ghost use Rattle.paragraph_text.specs.Edits.{is_edge, is_span, kept_after, named_by, named_place};
ghost use Rattle.paragraph_text.specs.Edits.{next_id_after, place_of, splice_refusal, too_long};
ghost use Rattle.paragraph_text.specs.Edits.{with_id};
ghost use Rattle.paragraph_text.specs.declared.edits.Edit.{Edit};
ghost use Rattle.paragraph_text.specs.declared.edits.Edit.TheVariants.{Insert, Remove, Replace};
ghost use Rattle.paragraph_text.specs.declared.edits.EditRefusal.TheVariants.{NoMemory as OutOfMemory};
ghost use Rattle.paragraph_text.specs.declared.limits.TheConstants.{MOST_BYTES, MOST_PARAGRAPHS};

use crate::limits::{MOST_BYTES, MOST_PARAGRAPHS};
use crate::list::{Para, Paragraphs};
use shared_items::SharedItems;
use std::alloc::{AllocError, Global};
use std::sync::Arc;
use text_lines::Text;
use text_lines::lists::{Copied, NoMemory};

/// What a writer asks for. A paragraph is named by its id, and where its text is meant by its rev
/// too. Places are bytes of the text, from 0 on.
#[derive(Debug, Drop)]
pub enum Edit {
    /// The bytes from `from` up to `to` of a paragraph become a text. Both lie between characters.
    Replace {
        id: u64,
        rev: u64,
        from: u32,
        to: u32,
        text: Text,
    },
    /// A paragraph is put before another one, or at the end.
    Insert {
        before: Option<u64>,
        text: Text,
    },
    /// A paragraph is taken out.
    Remove {
        id: u64,
        rev: u64,
    },
}

impl Edit {
    /// The id of the paragraph that it names. An insert at the end names none.
    pub fn named(&self) -> Option<u64>
        ensures { result ≡ named_by self.now }
    {
        match self {
            Edit::Replace { id, .. } => Some(*id),
            Edit::Insert { before, .. } => *before,
            Edit::Remove { id, .. } => Some(*id),
        }
    }
}

/// Why an edit is refused, in this order.
#[derive(Clone, Copy, Debug, PartialEq, Eq)]
pub enum EditRefusal {
    /// The paragraph that is named is not there.
    Gone { id: u64 },
    /// The paragraph has this rev, and not the one that was given.
    Behind { rev: u64 },
    /// The bytes are not whole characters of the paragraph, which has so many bytes.
    BadSpan { length: u64 },
    /// The text that is put has a line feed, the first at this byte.
    HasBreak { at: u64 },
    /// The paragraph would have so many bytes, more than 65,536.
    TooLong { would: u64 },
    /// There are so many paragraphs that none may be put in: 20,000.
    Full { count: u64 },
    /// Memory for the answer could not be had.
    NoMemory,
}

impl From<NoMemory> for EditRefusal {
    ghost from_gives = { λ _ refusal. refusal ≡ OutOfMemory };

    fn from(_wanting: NoMemory) -> EditRefusal {
        EditRefusal::NoMemory
    }
}

impl From<AllocError> for EditRefusal {
    ghost from_gives = { λ _ refusal. refusal ≡ OutOfMemory };

    fn from(_wanting: AllocError) -> EditRefusal {
        EditRefusal::NoMemory
    }
}

/// The list that an edit makes, where `version` is the next version and `next_id` the next id. The
/// list before it stays as it is. The touched paragraph has rev `version`, one that is put in has
/// id `next_id`.
pub fn apply(
    alloc: Global,
    paragraphs: &Paragraphs,
    version: u64,
    next_id: u64,
    edit: &Edit,
) -> Result<Paragraphs, EditRefusal>
    ensures applied { IfOk result (Applies version next_id paragraphs.now edit.now) }
    ensures refused { IfErr result (IsDueOr OutOfMemory (edit_refusal paragraphs.now edit.now)) }
    ensures kept { AreValid version next_id paragraphs.now
        → IfOk result (AreValid (version + 1) (next_id_after next_id edit.now)) }
{
    let place = place_named(paragraphs, edit);
    apply_at(alloc, paragraphs, version, next_id, edit, place)
}

/// The same list, of paragraphs whose ids are distinct. The paragraph that the edit names is looked
/// for at `near` first; where it stands there no other is looked at.
pub fn apply_near(
    alloc: Global,
    paragraphs: &Paragraphs,
    version: u64,
    next_id: u64,
    edit: &Edit,
    near: usize,
) -> Result<Paragraphs, EditRefusal>
    requires { HaveOwnIds paragraphs.now }
    ensures applied { IfOk result (Applies version next_id paragraphs.now edit.now) }
    ensures refused { IfErr result (IsDueOr OutOfMemory (edit_refusal paragraphs.now edit.now)) }
    ensures kept { AreValid version next_id paragraphs.now
        → IfOk result (AreValid (version + 1) (next_id_after next_id edit.now)) }
{
    let place = place_named_near(paragraphs, edit, near);
    apply_at(alloc, paragraphs, version, next_id, edit, place)
}

/// What is kept beside each paragraph, behind an edit: `new` for the paragraph that it touches, and
/// for all others what they had. The paragraph that the edit names is looked for at `near` first.
pub fn kept_beside<T: Copied + Drop>(
    alloc: Global,
    paragraphs: &Paragraphs,
    edit: &Edit,
    near: usize,
    kept: &SharedItems<T>,
    new: T,
) -> Result<SharedItems<T>, NoMemory>
    requires own { HaveOwnIds paragraphs.now }
    requires beside { length kept.now ≡ length paragraphs.now }
    ensures { IfOk result (λ made. made ≡ kept_after new paragraphs.now kept.now edit.now) }
{
    match (edit, place_named_near(paragraphs, edit, near)) {
        (Edit::Insert { before: None, .. }, _) => kept.inserted(alloc, kept.len(), new),
        (_, None) => kept.copy(alloc),
        (Edit::Replace { .. }, Some(place)) => kept.replaced(alloc, place, new),
        (Edit::Insert { .. }, Some(place)) => kept.inserted(alloc, place, new),
        (Edit::Remove { .. }, Some(place)) => kept.removed(alloc, place),
    }
}

/// Where the paragraph stands that an edit names.
fn place_named(paragraphs: &Paragraphs, edit: &Edit) -> Option<usize>
    ensures { result ≡ named_place paragraphs.now edit.now }
{
    match edit.named() {
        None => None,
        Some(id) => paragraphs.place_of(id),
    }
}

/// The same, looked for at a place first.
fn place_named_near(paragraphs: &Paragraphs, edit: &Edit, near: usize) -> Option<usize>
    requires { HaveOwnIds paragraphs.now }
    ensures { result ≡ named_place paragraphs.now edit.now }
{
    match edit.named() {
        None => None,
        Some(id) => paragraphs.place_near(id, near),
    }
}

/// The list that an edit makes, where the paragraph that it names stands at this place, or none
/// does.
fn apply_at(
    alloc: Global,
    paragraphs: &Paragraphs,
    version: u64,
    next_id: u64,
    edit: &Edit,
    place: Option<usize>,
) -> Result<Paragraphs, EditRefusal>
    requires { place ≡ named_place paragraphs.now edit.now }
    ensures applied { IfOk result (Applies version next_id paragraphs.now edit.now) }
    ensures refused { IfErr result (IsDueOr OutOfMemory (edit_refusal paragraphs.now edit.now)) }
    ensures kept { AreValid version next_id paragraphs.now
        → IfOk result (AreValid (version + 1) (next_id_after next_id edit.now)) }
{
    match edit {
        Edit::Replace {
            id,
            rev,
            from,
            to,
            text,
        } => {
            let named = NamedByEdit {
                id: *id,
                rev: *rev,
                place,
            };
            let span = ByteSpan {
                from: *from as usize,
                to: *to as usize,
            };
            replace(alloc, paragraphs, version, named, span, text.as_str())
        }
        Edit::Insert { before, text } => {
            let text = text.as_str();
            insert(alloc, paragraphs, version, next_id, *before, place, text)
        }
        Edit::Remove { id, rev } => {
            let named = NamedByEdit {
                id: *id,
                rev: *rev,
                place,
            };
            remove(alloc, paragraphs, named)
        }
    }
}

/// The paragraph that an edit names: its id, the rev that it is to have, and where it stands.
#[derive(Clone, Copy, Debug)]
struct NamedByEdit {
    id: u64,
    rev: u64,
    place: Option<usize>,
}

/// The bytes of a text from one place up to another.
#[derive(Clone, Copy, Debug)]
struct ByteSpan {
    from: usize,
    to: usize,
}

/// The list in which a part of a paragraph's text is replaced.
fn replace(
    alloc: Global,
    paragraphs: &Paragraphs,
    version: u64,
    named: NamedByEdit,
    span: ByteSpan,
    put: &str,
) -> Result<Paragraphs, EditRefusal>
    requires { named.place ≡ place_of named.id paragraphs.now }
    ensures applied { IfOk result
        (Replaces version paragraphs.now named.id named.rev span.from span.to put.now) }
    ensures refused { IfErr result
        (IsDueOr OutOfMemory
        (edit_refusal paragraphs.now (Replace named.id named.rev span.from span.to put.now))) }
{
    let (place, old) = current(paragraphs, named)?;
    let text = splice(alloc, old.text.as_str(), span, put)?;
    let para = Para {
        id: named.id,
        rev: version,
        text,
    };
    Ok(paragraphs.replaced(alloc, place, para)?)
}

/// The list into which a paragraph is put, before another one or at the end.
fn insert(
    alloc: Global,
    paragraphs: &Paragraphs,
    version: u64,
    next_id: u64,
    before: Option<u64>,
    place: Option<usize>,
    put: &str,
) -> Result<Paragraphs, EditRefusal>
    requires { place ≡ option_and_then (λ id. place_of id paragraphs.now) before }
    ensures applied { IfOk result (Inserts version next_id paragraphs.now before put.now) }
    ensures refused { IfErr result
        (IsDueOr OutOfMemory (edit_refusal paragraphs.now (Insert before put.now))) }
{
    let place = gap(paragraphs, before, place)?;
    check_entry(paragraphs, put)?;
    let para = Para {
        id: next_id,
        rev: version,
        text: shared(alloc, put)?,
    };
    Ok(paragraphs.inserted(alloc, place, para)?)
}

/// The list from which a paragraph is taken out.
fn remove(
    alloc: Global,
    paragraphs: &Paragraphs,
    named: NamedByEdit,
) -> Result<Paragraphs, EditRefusal>
    requires { named.place ≡ place_of named.id paragraphs.now }
    ensures applied { IfOk result (Removes paragraphs.now named.id named.rev) }
    ensures refused { IfErr result
        (IsDueOr OutOfMemory (edit_refusal paragraphs.now (Remove named.id named.rev))) }
{
    let (place, _) = current(paragraphs, named)?;
    Ok(paragraphs.removed(alloc, place)?)
}

/// The paragraph that is named, if it has the rev that it is to have, and its place.
fn current(paragraphs: &Paragraphs, named: NamedByEdit) -> Result<(usize, &Para), EditRefusal>
    requires { named.place ≡ place_of named.id paragraphs.now }
    ensures found { IfOk result
        (λ found. IsFoundAt paragraphs.now named.id found.0 found.1.now
        × (found.1.now.rev ≡ named.rev)) }
    ensures refused { IfErr result
        (λ refusal. edit_gone_or named.id paragraphs.now (λ touched. behind touched named.rev)
        ≡ Some refusal) }
{
    match found(paragraphs, named) {
        None => Err(EditRefusal::Gone { id: named.id }),
        Some((place, para)) if para.rev == named.rev => Ok((place, para)),
        Some((_, para)) => Err(EditRefusal::Behind { rev: para.rev }),
    }
}

/// The paragraph that is named, and its place.
fn found(paragraphs: &Paragraphs, named: NamedByEdit) -> Option<(usize, &Para)>
    requires { named.place ≡ place_of named.id paragraphs.now }
    ensures { MatchOption result (with_id named.id paragraphs.now ≡ None)
        (λ found. IsFoundAt paragraphs.now named.id found.0 found.1.now) }
{
    match named.place {
        None => None,
        Some(place) => match paragraphs.get(place) {
            None => None,
            Some(para) => Some((place, para)),
        },
    }
}

/// The place before which a paragraph is put, where the one that is named stands at a place, or
/// none is.
fn gap(
    paragraphs: &Paragraphs,
    before: Option<u64>,
    place: Option<usize>,
) -> Result<usize, EditRefusal>
    requires { place ≡ option_and_then (λ id. place_of id paragraphs.now) before }
    ensures found { IfOk result (IsGap paragraphs.now before) }
    ensures passed { OnOk result (gone_before paragraphs.now before ≡ None) }
    ensures refused { IfErr result (λ refusal. gone_before paragraphs.now before ≡ Some refusal) }
{
    match before {
        None => Ok(paragraphs.len()),
        Some(id) => match place {
            None => Err(EditRefusal::Gone { id }),
            Some(place) => Ok(place),
        },
    }
}

/// Whether a text may be a paragraph of its own.
fn check_entry(paragraphs: &Paragraphs, put: &str) -> Result<(), EditRefusal>
    ensures whole { OnOk result (HasNoBreak put.now) }
    ensures short { OnOk result (length put.now ≤ MOST_BYTES) }
    ensures room { OnOk result (length paragraphs.now < MOST_PARAGRAPHS) }
    ensures passed { OnOk result (entry_refusal paragraphs.now put.now ≡ None) }
    ensures refused { IfErr result
        (λ refusal. entry_refusal paragraphs.now put.now ≡ Some refusal) }
{
    check_break(put)?;
    check_length(put.len())?;
    let count = paragraphs.len();
    if count < MOST_PARAGRAPHS {
        Ok(())
    } else {
        Err(EditRefusal::Full {
            count: count as u64,
        })
    }
}

/// Whether a text has no line feed.
fn check_break(put: &str) -> Result<(), EditRefusal>
    ensures whole { OnOk result (HasNoBreak put.now) }
    ensures passed { OnOk result (break_in put.now ≡ None) }
    ensures refused { IfErr result (λ refusal. break_in put.now ≡ Some refusal) }
{
    match first_break(put) {
        None => Ok(()),
        Some(at) => Err(EditRefusal::HasBreak { at: at as u64 }),
    }
}

/// The place of a text's first line feed.
fn first_break(put: &str) -> Option<usize>
    ensures { result ≡ position (λ byte. byte == 10) put.now }
{
    put.as_bytes().iter().position(|byte| *byte == b'\n')
}

/// Whether a paragraph may have so many bytes.
fn check_length(size: usize) -> Result<(), EditRefusal>
    ensures short { OnOk result (size ≤ MOST_BYTES) }
    ensures passed { OnOk result (too_long size ≡ None) }
    ensures refused { IfErr result (λ refusal. too_long size ≡ Some refusal) }
{
    if size <= MOST_BYTES {
        Ok(())
    } else {
        Err(EditRefusal::TooLong { would: size as u64 })
    }
}

/// A text with a part of it replaced.
fn splice(alloc: Global, old: &str, span: ByteSpan, put: &str) -> Result<Arc<Text>, EditRefusal>
    ensures made { IfOk result
        (λ made. IsSpliced old.now span.from span.to put.now (arc_value made)) }
    ensures refused { IfErr result
        (IsDueOr OutOfMemory (splice_refusal old.now span.from span.to put.now)) }
{
    if !is_span(old, span) {
        return Err(EditRefusal::BadSpan {
            length: old.len() as u64,
        });
    }
    check_break(put)?;
    let (front, back) = (&old[..span.from], &old[span.to..]);
    let size = front.len() + put.len() + back.len();
    check_length(size)?;
    let mut made = String::with_capacity(alloc, size)?;
    made.push_str(front)?;
    made.push_str(put)?;
    made.push_str(back)?;
    Ok(shared(alloc, made.as_str())?)
}

/// Whether a part of a text is whole characters.
fn is_span(text: &str, span: ByteSpan) -> bool
    ensures { result ≡ is_span text.now span.from span.to }
{
    span.from <= span.to && is_edge(text, span.from) && is_edge(text, span.to)
}

/// Whether a character of a text ends or begins at a place.
fn is_edge(text: &str, place: usize) -> bool
    ensures { result ≡ is_edge text.now place }
{
    text.is_char_boundary(place)
}

/// A text of its own that may be shared.
fn shared(alloc: Global, text: &str) -> Result<Arc<Text>, NoMemory>
    ensures { IfOk result (λ made. arc_value made ≡ text.now) }
{
    Ok(Arc::new(alloc, Text::from_str(alloc, text)?)?)
}

/// An edit makes its list by the change that it is of the paragraphs, whose ids are distinct.
pub fn edits_are_changes()
    ensures { (version next_id : ℕ) (paragraphs after : List Paragraph) (edit : Edit)
        → HaveOwnIds paragraphs
        → Applies version next_id paragraphs edit after → IsChanged paragraphs edit after }
{}

/// Where a list meets what is asked of it, each edit makes exactly one list, or has exactly one
/// refusal, and never both; and the list that it makes meets the same with the next version and the
/// next id.
pub fn edits_are_decided()
    ensures decided { (version next_id : ℕ) (paragraphs : List Paragraph) (edit : Edit)
        → AreValid version next_id paragraphs
        → IsEditDecided version next_id paragraphs edit }
    ensures kept { (version next_id : ℕ) (paragraphs after : List Paragraph) (edit : Edit)
        → AreValid version next_id paragraphs
        → Applies version next_id paragraphs edit after
        → AreValid (version + 1) (next_id_after next_id edit) after }
{}

/// The paragraphs of at most 20,000 texts meet what is asked of a list, if each text has at most
/// 65,536 bytes and no line feed.
pub fn openings_are_valid()
    ensures { (texts : List (List ℕ)) → length texts ≤ MOST_PARAGRAPHS
        → AllByRecursion (λ text. (length text ≤ MOST_BYTES) × HasNoBreak text) texts
        → AreValid 1 (length texts) (numbered_from 0 texts) }
{}
