//! Which event a command is over a board.

ghost use Rattle.std.specs.Prelude.{◌≡◌, ◌≤◌, length, IfNone, IfSome, None};
ghost use Rattle.std.specs.Option.{option_map};
ghost use Rattle.edit_core.specs.paragraph_text.declared.edits.Edit.TheVariants.{Replace};
ghost use Rattle.edit_core.specs.Events.{AnEdit, event_of};
ghost use Rattle.edit_core.specs.Seen.{IsValidBoard};
ghost use Rattle.console_board.specs.BoardAnswers.{NamesParagraph, IsWholeAt, PutsWhole, event_for};
ghost use Rattle.console_board.specs.BoardAnswers.{gap_at, paragraph_at};
ghost use Rattle.edit_core.specs.paragraph_text.declared.limits.TheConstants.{MOST_PARAGRAPHS};

use console_lang::Command;
use edit_core::paragraph_text::Edit;
use edit_core::{Board, Event};
use mark_types::Judge;
use mark_types::text_lines::Text;

/// What an event says of the paragraph that it names, and how many bytes the paragraph has.
#[derive(Clone, Copy, Debug)]
struct NamedByEvent {
    id: u64,
    rev: u64,
    size: u32,
}

impl NamedByEvent {
    /// The edit that puts a text in place of bytes of the paragraph.
    fn replaced(self, from: u32, to: u32, text: Text) -> Edit
        ensures { result ≡ Replace self.id self.rev from to text }
    {
        Edit::Replace {
            id: self.id,
            rev: self.rev,
            from,
            to,
            text,
        }
    }
}

/// Where a text is put in.
#[derive(Clone, Copy, Debug)]
struct Gap {
    /// The id of the paragraph before which it is put; none where it is put at the end.
    before: Option<u64>,
}

/// The event that a command over a board is, for the session with a number. There is none where it
/// names no place of the board.
pub fn event_for<J: Judge + Drop>(
    board: &Board<J>,
    session: u32,
    command: Command,
) -> Option<Event<J>>
    ensures event { option_map (event_of J.lexicon) result ≡ event_for session board.now command }
    ensures whole { PutsWhole board.now command }
{
    match command {
        Command::Ins { place, text } => match gap_at_place(board, place) {
            None => None,
            Some(Gap { before }) => Some(edited(session, Edit::Insert { before, text })),
        },
        Command::Put { place, text } => match named_at(board, place) {
            None => None,
            Some(named) => Some(edited(session, named.replaced(0, named.size, text))),
        },
        Command::Sub {
            place,
            from,
            to,
            text,
        } => match named_at(board, place) {
            None => None,
            Some(named) => Some(edited(session, named.replaced(from, to, text))),
        },
        Command::Del { place } => match named_at(board, place) {
            None => None,
            Some(NamedByEvent { id, rev, .. }) => Some(edited(session, Edit::Remove { id, rev })),
        },
        Command::Stop { place } => match named_at(board, place) {
            None => None,
            Some(NamedByEvent { id, .. }) => Some(Event::Park { session, id }),
        },
        Command::Ask { place } => match named_at(board, place) {
            None => None,
            Some(NamedByEvent { id, .. }) => Some(Event::Ask { session, id }),
        },
        Command::Load { .. }
        | Command::Own { .. }
        | Command::Show
        | Command::Settle
        | Command::Quit => None,
    }
}

/// The paragraph at a place, from 1.
fn named_at<J: Judge + Drop>(board: &Board<J>, place: u32) -> Option<NamedByEvent>
    ensures none { IfNone result (paragraph_at board.now place ≡ None) }
    ensures some { IfSome result
        (λ named. NamesParagraph board.now place named.id named.rev named.size) }
    ensures whole { IsWholeAt board.now place }
{
    board_is_valid(board);
    match place.checked_sub(1) {
        None => None,
        Some(index) => match board.para(index as usize) {
            None => None,
            Some(view) => Some(NamedByEvent {
                id: view.id,
                rev: view.rev,
                size: view.text.as_str().len() as u32,
            }),
        },
    }
}

/// Where a text is put in at a place: a place may be one more than there are texts.
fn gap_at_place<J: Judge + Drop>(board: &Board<J>, place: u32) -> Option<Gap>
    ensures { option_map (λ (gap : Gap). gap.before) result ≡ gap_at board.now place }
{
    match place.checked_sub(1) {
        Some(index) if u64::from(index) <= count(board) => match board.para(index as usize) {
            None => Some(Gap { before: None }),
            Some(view) => Some(Gap {
                before: Some(view.id),
            }),
        },
        _ => None,
    }
}

/// How many paragraphs there are.
fn count<J: Judge + Drop>(board: &Board<J>) -> u64
    ensures count { result ≡ length board.now.paragraphs }
    ensures few { result ≤ MOST_PARAGRAPHS }
{
    board_is_valid(board);
    board.versions().paragraphs
}

/// Every board is valid.
pub(crate) fn board_is_valid<J: Judge + Drop>(board: &Board<J>)
    ensures { IsValidBoard board.now }
{
    let _judge = board.judge();
}

/// The event of an edit.
fn edited<J: Judge>(session: u32, edit: Edit) -> Event<J>
    ensures { event_of J.lexicon result ≡ AnEdit session edit }
{
    Event::Edit { session, edit }
}
