//! Events of one eye or session that others see, on one thread and on several.

ghost use Rattle.std.specs.Prelude.{◌≡◌};
ghost use Rattle.board_share.specs.edit_core.Seen.{IsOpening};
ghost use Rattle.board_share.specs.Eyes.{IsLater};
ghost use Rattle.board_share.specs.Namings.{IsNamed};

use super::scenes::{Scene, assert_plays};
use board_share::edit_core::{Board, Event, Refusal};
use board_share::paragraph_text::Edit;
use board_share::{Blank, Closed, Desk, Eye, Naming, Told};
use desk_doubles::{DeskSession, Numbers, inserted, opening_of, replaced};
use edit_session::{Made, Session};
use outside::lists::NoMemory;
use std::alloc::Global;
use std::marker::Brand;
use std::process::Abort;
use std::sync::{Arc, Wait};
use std::thread::{Threads, for_each_mut};

/// Edits the text through an eye.
pub(super) fn edited<D: Naming, W: Wait + Drop, R: Wait>(
    rt: &R,
    alloc: Global,
    desk: &Desk<Numbers, D, W>,
    eye: &mut Eye<Numbers, D>,
    edit: Edit,
) -> Result<Told, Refusal>
    ensures { IsLater eye.old eye.new }
{
    desk.publish(rt, alloc, eye, Event::Edit { session: 1, edit })
}

/// A look has a board with this text version and so many paragraphs.
fn assert_look<D: Naming>(
    rt: &impl Abort,
    eye: &mut Eye<Numbers, D>,
    text: u64,
    paragraphs: u64,
) -> Option<()>
    ensures { IsLater eye.old eye.new }
{
    let progress = eye.look().ok()?.progress();
    assert_eq!(rt; (progress.text, progress.paragraphs), (text, paragraphs));
    Some(())
}

/// A worker is given the paragraph with this id and rev, or none.
fn assert_claims<D: Naming, W: Wait + Drop, R: Wait + Abort>(
    rt: &R,
    alloc: Global,
    desk: &Desk<Numbers, D, W>,
    eye: &mut Eye<Numbers, D>,
    wanted: Option<(u64, u64)>,
) -> Option<()> {
    let claimed = desk.claim(rt, alloc, eye, 7).ok()?;
    assert_eq!(rt; claimed.map(|claim| (claim.id, claim.rev)), wanted);
    Some(())
}

/// An eye inserts a paragraph, and its own look has it.
fn assert_inserts<D: Naming, W: Wait + Drop, R: Wait + Abort>(
    rt: &R,
    alloc: Global,
    desk: &Desk<Numbers, D, W>,
    eye: &mut Eye<Numbers, D>,
) -> Option<()> {
    let told = edited(rt, alloc, desk, eye, inserted(alloc, "hello")?).ok()?;
    let wanted = Told {
        point: 1,
        text: 1,
        dict: 0,
        made: Some(0),
    };
    assert_eq!(rt; told, wanted);
    assert_look(rt, eye, 1, 1)
}

/// An eye takes the paragraph out, behind a claim.
fn assert_removes<D: Naming, W: Wait + Drop, R: Wait + Abort>(
    rt: &R,
    alloc: Global,
    desk: &Desk<Numbers, D, W>,
    eye: &mut Eye<Numbers, D>,
) {
    let removal = Edit::Remove { id: 0, rev: 1 };
    let wanted = Told {
        point: 3,
        text: 2,
        dict: 0,
        made: None,
    };
    let told = edited(rt, alloc, desk, eye, removal);
    assert_eq!(rt; told.ok(), Some(wanted));
}

/// One eye inserts a paragraph, and others, which have made no call before, look, ask for the
/// progress, claim the paragraph and take it out.
struct FreshEyes;

impl Scene for FreshEyes {
    fn play<
        D: Naming + Send + Sync,
        W: Wait + Drop + Send + Sync,
        R: Threads + Wait + Abort + Sync,
    >(
        &self,
        rt: &R,
        alloc: Global,
        desk: &Desk<Numbers, D, W>,
        eyes: &mut Vec<Eye<Numbers, D>>,
    ) -> Option<()> {
        assert_inserts(rt, alloc, desk, &mut eyes.pop()?)?;
        assert_look(rt, &mut eyes.pop()?, 1, 1)?;
        assert_eq!(rt; eyes.pop()?.progress().text, 1);
        assert_claims(rt, alloc, desk, &mut eyes.pop()?, Some((0, 1)))?;
        assert_claims(rt, alloc, desk, &mut eyes.pop()?, None)?;
        assert_removes(rt, alloc, desk, &mut eyes.pop()?);
        Some(())
    }
}

#[test]
fn eyes_without_a_call_see_what_is_shown(rt: HostRuntime) {
    assert_plays(&rt, rt.alloc(), 6, &[], &FreshEyes);
}

/// An eye replaces the paragraph 0 four times, so that its rev is 4, and once more with this rev.
fn assert_replaces<D: Naming, W: Wait + Drop, R: Wait + Abort>(
    rt: &R,
    alloc: Global,
    desk: &Desk<Numbers, D, W>,
    eye: &mut Eye<Numbers, D>,
) -> Option<()> {
    for rev in 0..5 {
        let told = edited(rt, alloc, desk, eye, replaced(alloc, 0, rev, "b")?).ok()?;
        assert_eq!(rt; told.text, rev.wrapping_add(1));
    }
    Some(())
}

/// An eye that has made no call before is refused that rev, and knows why.
fn assert_refused<D: Naming, W: Wait + Drop, R: Wait + Abort>(
    rt: &R,
    alloc: Global,
    desk: &Desk<Numbers, D, W>,
    eye: &mut Eye<Numbers, D>,
) -> Option<()> {
    let refused = edited(rt, alloc, desk, eye, replaced(alloc, 0, 4, "c")?);
    assert_eq!(rt; refused.err(), Some(Refusal::Behind { rev: 5 }));
    assert_eq!(rt; eye.known(), 5);
    assert_look(rt, eye, 5, 1)
}

/// Two eyes replace a paragraph with one rev, and the second one is refused.
struct BehindEye;

impl Scene for BehindEye {
    fn play<
        D: Naming + Send + Sync,
        W: Wait + Drop + Send + Sync,
        R: Threads + Wait + Abort + Sync,
    >(
        &self,
        rt: &R,
        alloc: Global,
        desk: &Desk<Numbers, D, W>,
        eyes: &mut Vec<Eye<Numbers, D>>,
    ) -> Option<()> {
        assert_replaces(rt, alloc, desk, &mut eyes.pop()?)?;
        assert_refused(rt, alloc, desk, &mut eyes.pop()?)
    }
}

#[test]
fn the_second_of_two_edits_is_behind(rt: HostRuntime) {
    assert_plays(&rt, rt.alloc(), 2, &["x"], &BehindEye);
}

/// An event through the last of 64 eyes is seen by all others.
struct ManyEyes;

impl Scene for ManyEyes {
    fn play<
        D: Naming + Send + Sync,
        W: Wait + Drop + Send + Sync,
        R: Threads + Wait + Abort + Sync,
    >(
        &self,
        rt: &R,
        alloc: Global,
        desk: &Desk<Numbers, D, W>,
        eyes: &mut Vec<Eye<Numbers, D>>,
    ) -> Option<()> {
        assert_inserts(rt, alloc, desk, &mut eyes.pop()?)?;
        assert_eq!(rt; eyes.len(), 63);
        for eye in eyes {
            assert_eq!(rt; eye.progress().text, 1);
        }
        Some(())
    }
}

#[test]
fn sixty_four_eyes_see_an_event(rt: HostRuntime) {
    assert_plays(&rt, rt.alloc(), 64, &[], &ManyEyes);
}

/// How many paragraphs each thread inserts.
const EACH: u32 = 100;

fn insert_each<D: Naming, W: Wait + Drop, R: Wait>(
    rt: &R,
    alloc: Global,
    desk: &Desk<Numbers, D, W>,
    eye: &mut Eye<Numbers, D>,
) -> Option<()> {
    for _ in 0..EACH {
        edited(rt, alloc, desk, eye, inserted(alloc, "x")?).ok()?;
    }
    Some(())
}

/// Each eye inserts paragraphs, in a thread of its own where one can be made.
fn insert_at_once<D: Naming + Send + Sync, W: Wait + Drop + Send + Sync, R: Threads + Wait + Sync>(
    rt: &R,
    alloc: Global,
    desk: &Desk<Numbers, D, W>,
    eyes: &mut [Eye<Numbers, D>],
) {
    for_each_mut(
        rt,
        eyes,
        2,
        &|_, eye| {
            let _all = insert_each(rt, alloc, desk, eye);
        },
    );
}

/// The end of a desk with two eyes.
fn closed<D: Naming, W: Wait + Drop, R: Wait>(
    rt: &R,
    alloc: Global,
    desk: Desk<Numbers, D, W>,
    first: Eye<Numbers, D>,
    second: Eye<Numbers, D>,
) -> Result<Closed<Numbers>, NoMemory>
    requires parts { D.parts ≡ 2 }
    requires first { first.number ≡ 0 }
    requires second { second.number ≡ 1 }
{
    let mut eyes = Vec::new(alloc);
    eyes.push(first)?;
    eyes.push(second)?;
    Ok(desk.close(rt, eyes))
}

/// All that two threads inserted stands in the history, and there is nothing else.
fn assert_closed<D: Naming, W: Wait + Drop, R: Wait + Abort>(
    rt: &R,
    alloc: Global,
    desk: Desk<Numbers, D, W>,
    first: Eye<Numbers, D>,
    second: Eye<Numbers, D>,
) -> Option<()>
    requires { D.parts ≡ 2 }
{
    if first.number() != 0 || second.number() != 1 {
        return None;
    }
    assert_eq!(rt; (first.counts().edits, second.counts().edits), (100, 100));
    let closed = closed(rt, alloc, desk, first, second).ok()?;
    assert_eq!(rt; (closed.edits(), closed.loads()), (200, 0));
    let progress = closed.board().progress();
    assert_eq!(rt; (progress.text, progress.paragraphs), (200, 200));
    Some(())
}

/// Two threads insert 100 paragraphs each.
fn assert_two_threads<D: Naming + Send + Sync, R: Threads + Wait + Abort + Sync>(
    rt: &R,
    alloc: Global,
    opening: Board<Numbers>,
    blank: Blank<Numbers>,
) -> Option<()>
    requires opens { IsOpening opening }
    requires named { IsNamed blank opening D.name D.parts D.book D.opening }
    requires parts { blank.parts ≡ 2 }
{
    let (desk, mut eyes) = Desk::<Numbers, D, &R>::start(rt, alloc, opening, 2, blank).ok()?;
    insert_at_once(rt, alloc, &desk, &mut eyes);
    let (Some(second), Some(first)) = (eyes.pop(), eyes.pop()) else {
        return None;
    };
    assert_closed(rt, alloc, desk, first, second)
}

/// The same over a desk of its own.
fn assert_inserted_by_two<R: Threads + Wait + Abort + Sync>(rt: &R, alloc: Global) -> Option<()> {
    let opening = opening_of(alloc, &[])?;
    assert_two_threads::<Brand, R>(rt, alloc, opening, Blank::new(2))
}

#[test]
fn two_threads_insert_paragraphs(rt: HostRuntime) {
    let inserts = assert_inserted_by_two(&rt, rt.alloc());
    assert_eq!(&rt; inserts, Some(()));
}

/// A look of a session shows one paragraph with a text, and a text version.
fn assert_shows<D: Naming, W: Wait + Drop>(
    rt: &impl Abort,
    session: &mut DeskSession<'_, D, W>,
    version: u64,
    text: &str,
) -> Option<()> {
    let board = session.look().ok()?;
    let versions = board.versions();
    assert_eq!(rt; (versions.text, versions.paragraphs), (version, 1));
    assert_eq!(rt; board.para(0)?.text.as_str(), text);
    Some(())
}

/// A session inserts a paragraph, and its next look shows it.
fn assert_session_inserts<D: Naming, W: Wait + Drop, R: Wait + Abort>(
    rt: &R,
    alloc: Global,
    session: &mut DeskSession<'_, D, W>,
) -> Option<()> {
    let told = session.edit(rt, alloc, inserted(alloc, "hello")?).ok()?;
    let wanted = Told {
        point: 1,
        text: 1,
        dict: 0,
        made: Some(0),
    };
    assert_eq!(rt; told, wanted);
    assert_eq!(rt; session.made(), Made { edits: 1, loads: 0 });
    assert_shows(rt, session, 1, "hello")
}

/// A session takes the paragraph out.
fn assert_session_removes<D: Naming, W: Wait + Drop, R: Wait + Abort>(
    rt: &R,
    alloc: Global,
    session: &mut DeskSession<'_, D, W>,
) {
    let told = session.edit(rt, alloc, Edit::Remove { id: 0, rev: 1 });
    let wanted = Told {
        point: 2,
        text: 2,
        dict: 0,
        made: None,
    };
    assert_eq!(rt; told.ok(), Some(wanted));
}

/// A session inserts a paragraph, and its own look and those of sessions without an earlier call
/// show it. The last of them takes it out.
struct FreshSessions;

impl Scene for FreshSessions {
    fn play<
        D: Naming + Send + Sync,
        W: Wait + Drop + Send + Sync,
        R: Threads + Wait + Abort + Sync,
    >(
        &self,
        rt: &R,
        alloc: Global,
        desk: &Desk<Numbers, D, W>,
        eyes: &mut Vec<Eye<Numbers, D>>,
    ) -> Option<()> {
        assert_session_inserts(rt, alloc, &mut Session::new(desk, eyes.pop()?, 1))?;
        assert_shows(rt, &mut Session::new(desk, eyes.pop()?, 2), 1, "hello")?;
        let mut third = Session::new(desk, eyes.pop()?, 3);
        assert_eq!(rt; third.progress().text, 1);
        assert_eq!(rt; third.eye().progress().text, 1);
        assert_session_removes(rt, alloc, &mut Session::new(desk, eyes.pop()?, 4));
        Some(())
    }
}

#[test]
fn sessions_without_a_call_see_an_insert(rt: HostRuntime) {
    assert_plays(&rt, rt.alloc(), 4, &[], &FreshSessions);
}

/// A session replaces the paragraph 0 four times, so that its rev is 4, and once more with this rev.
fn assert_session_replaces<D: Naming, W: Wait + Drop, R: Wait + Abort>(
    rt: &R,
    alloc: Global,
    session: &mut DeskSession<'_, D, W>,
) -> Option<()> {
    for rev in 0..5 {
        let told = session.edit(rt, alloc, replaced(alloc, 0, rev, "b")?).ok()?;
        assert_eq!(rt; told.text, rev.wrapping_add(1));
    }
    Some(())
}

/// A session that has made no call before is refused that rev, and its next look shows why.
fn assert_session_refused<D: Naming, W: Wait + Drop, R: Wait + Abort>(
    rt: &R,
    alloc: Global,
    session: &mut DeskSession<'_, D, W>,
) -> Option<()> {
    let refused = session.edit(rt, alloc, replaced(alloc, 0, 4, "c")?);
    assert_eq!(rt; refused.err(), Some(Refusal::Behind { rev: 5 }));
    assert_eq!(rt; session.made(), Made { edits: 0, loads: 0 });
    assert_shows(rt, session, 5, "b")
}

/// Two sessions replace a paragraph with one rev, and the second one is refused.
struct BehindSession;

impl Scene for BehindSession {
    fn play<
        D: Naming + Send + Sync,
        W: Wait + Drop + Send + Sync,
        R: Threads + Wait + Abort + Sync,
    >(
        &self,
        rt: &R,
        alloc: Global,
        desk: &Desk<Numbers, D, W>,
        eyes: &mut Vec<Eye<Numbers, D>>,
    ) -> Option<()> {
        assert_session_replaces(rt, alloc, &mut Session::new(desk, eyes.pop()?, 1))?;
        assert_session_refused(rt, alloc, &mut Session::new(desk, eyes.pop()?, 2))
    }
}

#[test]
fn the_second_of_two_sessions_is_behind(rt: HostRuntime) {
    assert_plays(&rt, rt.alloc(), 2, &["x"], &BehindSession);
}
