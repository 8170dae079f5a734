//! Boards that are looked through from a place, filled and emptied, and paragraphs that are checked
//! whole and some words at a time.

use desk_doubles::{Numbers, opening_of};
use edit_core::{Board, Event, Progress, Refusal, Versions};
use mark_types::Marks;
use mark_types::lists::NoMemory;
use mark_types::text_lines::Text;
use paragraph_marks::{Checked, Checking, Plain, check};
use paragraph_text::Edit;
use std::alloc::Global;
use std::process::Abort;
use std::sync::Arc;
use std::test::Fail;

/// Places to look at first: before the paragraph, its own, behind it, and none of the board.
const PLACES: [usize; 4] = [0, 1, 2, 20_000];

/// The place of paragraph 1, which is looked for at another place first.
fn place_near(board: &Board<Numbers>, near: usize) -> Option<usize> {
    let (place, _) = board.para_near(1, near)?;
    Some(place)
}

/// That a board has these of the first paragraph that waits, and of the place of paragraph 1.
fn assert_found(rt: &impl Abort, board: &Board<Numbers>, near: usize, waiting: Option<usize>) {
    assert_eq!(rt; board.first_waiting(), waiting);
    assert_eq!(rt; place_near(board, near), Some(1));
    assert!(rt; board.para_near(3, near).is_none());
}

/// The board on which a paragraph is parked.
fn parked(alloc: Global, board: &Board<Numbers>, id: u64, near: usize) -> Option<Board<Numbers>> {
    let event = Event::Park { session: 0, id };
    board.next_near(alloc, event, near).ok()
}

/// That paragraph 0, and then paragraph 1, is parked, wherever it is looked for first.
fn assert_near(rt: &impl Abort, alloc: Global, board: &Board<Numbers>, near: usize) -> Option<()> {
    assert_found(rt, board, near, Some(0));
    let first = parked(alloc, board, 0, near)?;
    assert_found(rt, &first, near, Some(1));
    let both = parked(alloc, &first, 1, near)?;
    assert_found(rt, &both, near, Some(2));
    let versions = Versions {
        point: 2,
        text: 0,
        dict: 0,
        next_id: 3,
        paragraphs: 3,
    };
    assert_eq!(rt; both.versions(), versions);
    Some(())
}

/// The same for each place.
fn assert_each(rt: &impl Abort, alloc: Global) -> Option<()> {
    let board = opening_of(alloc, &["a", "b", "c"])?;
    for near in PLACES {
        assert_near(rt, alloc, &board, near)?;
    }
    Some(())
}

#[test]
fn a_place_is_a_hint_alone(rt: HostRuntime) {
    let each = assert_each(&rt, rt.alloc());
    assert_eq!(&rt; each, Some(()));
}

/// How many paragraphs a board has at most.
const MOST: u64 = 20_000;

/// The board behind an edit.
fn board_behind(
    alloc: Global,
    board: &Board<Numbers>,
    edit: Edit,
) -> Result<Board<Numbers>, Refusal> {
    board.next(alloc, Event::Edit { session: 0, edit })
}

/// The board with a paragraph before its first, whose id is one less.
fn with_front(alloc: Global, board: &Board<Numbers>, id: u64) -> Result<Board<Numbers>, Refusal> {
    let edit = Edit::Insert {
        before: id.checked_sub(1),
        text: Text::from_str(alloc, "x")?,
    };
    board_behind(alloc, board, edit)
}

/// The board without a paragraph that was put in so. Its rev is the text version that it was put in
/// by, one more than its id.
fn without(alloc: Global, board: &Board<Numbers>, id: u64) -> Result<Board<Numbers>, Refusal> {
    let edit = Edit::Remove {
        id,
        rev: id.wrapping_add(1),
    };
    board_behind(alloc, board, edit)
}

/// The board behind as many inserts as it takes, each at the front.
fn filled(alloc: Global, empty: Board<Numbers>) -> Result<Board<Numbers>, Refusal> {
    let mut board = empty;
    for id in 0..MOST {
        board = with_front(alloc, &board, id)?;
    }
    Ok(board)
}

/// The board behind a removal of each of its paragraphs, from the front on, where the last one
/// stands that was put in.
fn emptied(alloc: Global, full: Board<Numbers>) -> Result<Board<Numbers>, Refusal> {
    let mut board = full;
    for id in (0..MOST).rev() {
        board = without(alloc, &board, id)?;
    }
    Ok(board)
}

/// Each edit makes the next point and the next text version; no dictionary is loaded, and nothing
/// is finished or parked.
fn progress_behind(edits: u64, paragraphs: u64) -> Progress {
    Progress {
        point: edits,
        text: edits,
        dict: 0,
        paragraphs,
        finished: 0,
        parked: 0,
    }
}

/// The board behind the inserts, which it counts.
fn assert_filled(rt: &impl Abort, alloc: Global) -> Option<Board<Numbers>> {
    let board = filled(alloc, opening_of(alloc, &[])?).ok()?;
    assert_eq!(rt; board.progress(), progress_behind(20_000, 20_000));
    Some(board)
}

fn assert_emptied(rt: &impl Abort, alloc: Global) -> Option<()> {
    let full = assert_filled(rt, alloc)?;
    let board = emptied(alloc, full).ok()?;
    assert_eq!(rt; board.progress(), progress_behind(40_000, 0));
    assert!(rt; board.para(0).is_none());
    Some(())
}

/// A board takes 20,000 inserts at its front and a removal of each, and has no paragraph then.
#[test]
fn a_board_is_filled_and_emptied(rt: HostRuntime) {
    let emptied = assert_emptied(&rt, rt.alloc());
    assert_eq!(&rt; emptied, Some(()));
}

/// Each row is a paragraph and its marks, each by its first byte, the byte past its end and its
/// word, with a comma behind it. Words that are no numbers are marked.
const PARAGRAPHS: &str = "=
  ' 12 - \u{2019}=
12=
 12  don't 12 =5 10 don't,
wurk=0 4 wurk,
wurk 12 wrld 3=0 4 wurk,8 12 wrld,
12' 3' x'=7 8 x,
\u{e9}lan 12 \u{e9}\u{e9}=0 5 \u{e9}lan,9 13 \u{e9}\u{e9},
\u{301} he\u{301}llo \u{2019}x\u{2019}y=3 10 he\u{301}llo,14 19 x\u{2019}y,
a b c d e f g=0 1 a,2 3 b,4 5 c,6 7 d,8 9 e,10 11 f,12 13 g,
12 12 12 12 12 a 12 12=15 16 a,
12 12 12 12 12 12 12 12 12 12 12 12 12 12 12 12 12 12 12 12 12 12 12 12 12 12 12 12 12 12 12 12 a=96 97 a,";

/// So many words at a time.
const STEPS: [u32; 4] = [1, 2, 3, 32];

/// The marks as they stand in the table.
fn told_marks(alloc: Global, marks: &Marks) -> Result<String, Fail> {
    let mut text = String::new(alloc);
    for mark in marks.as_slice() {
        let from = mark.from;
        let to = mark.to;
        let word = mark.word.as_str();
        write!(text, "{from} {to} {word},")?;
    }
    Ok(text)
}

/// The marks of a paragraph that is checked whole.
fn whole(alloc: Global, judge: &Arc<Numbers>, text: &str) -> Result<Marks, NoMemory> {
    if text.len() > u32::MAX as usize {
        return Err(NoMemory);
    }
    let mut plain = Plain::new(Arc::try_clone(judge)?);
    check(alloc, &mut plain, text)
}

/// A paragraph that is checked so many words at a time.
fn stepped(
    alloc: Global,
    judge: &Arc<Numbers>,
    text: &Arc<Text>,
    words: u32,
) -> Result<Checked<Numbers>, NoMemory> {
    if text.as_str().len() > u32::MAX as usize {
        return Err(NoMemory);
    }
    let mut plain = Plain::new(Arc::try_clone(judge)?);
    let mut checking = Checking::start(alloc, Arc::try_clone(judge)?, Arc::try_clone(text)?)?;
    for _ in 0..u16::MAX {
        if checking.step(alloc, &mut plain, words)? {
            break;
        }
    }
    match checking.done() {
        Ok(checked) => Ok(checked),
        Err(_) => Err(NoMemory),
    }
}

/// That a paragraph has these marks, whole and in steps.
fn assert_marks(
    rt: &impl Abort,
    alloc: Global,
    judge: &Arc<Numbers>,
    text: &str,
    want: &str,
) -> Result<(), Fail> {
    let marks = whole(alloc, judge, text)?;
    assert_eq!(rt; told_marks(alloc, &marks)?.as_str(), want, "{text}");
    let shared = Arc::new(alloc, Text::from_str(alloc, text)?)?;
    for words in STEPS {
        assert_stepped(rt, alloc, judge, &shared, words, want)?;
    }
    Ok(())
}

fn assert_stepped(
    rt: &impl Abort,
    alloc: Global,
    judge: &Arc<Numbers>,
    text: &Arc<Text>,
    words: u32,
    want: &str,
) -> Result<(), Fail> {
    let checked = stepped(alloc, judge, text, words)?;
    let shared = checked.share()?;
    assert_eq!(rt;
        told_marks(alloc, shared.marks())?.as_str(),
        want,
        "{words}"
    );
    Ok(())
}

fn assert_table(rt: &impl Abort, alloc: Global, judge: &Arc<Numbers>) -> Result<(), Fail> {
    for row in PARAGRAPHS.split('\n') {
        let (text, want) = row.split_once('=').unwrap_or((row, "no row"));
        assert_marks(rt, alloc, judge, text, want)?;
    }
    Ok(())
}

/// A paragraph of 65,536 bytes, in which every second word is marked, and its marks.
fn longest(alloc: Global) -> Result<(String, String), Fail> {
    let mut text = String::new(alloc);
    let mut marks = String::new(alloc);
    for place in 0..8192_u32 {
        let from = place * 8 + 6;
        let to = place * 8 + 7;
        text.push_str("12345 x ")?;
        write!(marks, "{from} {to} x,")?;
    }
    Ok((text, marks))
}

fn assert_longest(rt: &impl Abort, alloc: Global, judge: &Arc<Numbers>) -> Result<(), Fail> {
    let (text, marks) = longest(alloc)?;
    assert_eq!(rt; text.len(), 65_536);
    assert_marks(rt, alloc, judge, &text, &marks)
}

#[test]
fn steps_come_to_all_marks(rt: HostRuntime) -> Result<(), Fail> {
    let judge = Arc::new(rt.alloc(), Numbers::new())?;
    assert_table(&rt, rt.alloc(), &judge)
}

#[test]
fn steps_go_through_the_longest_paragraph(rt: HostRuntime) -> Result<(), Fail> {
    let judge = Arc::new(rt.alloc(), Numbers::new())?;
    assert_longest(&rt, rt.alloc(), &judge)
}
