//! What is played over a desk, and how.

ghost use Rattle.std.specs.Prelude.{◌≡◌, ◌<◌, ◌≤◌};
ghost use Rattle.board_share.specs.edit_core.Seen.{IsOpening};
ghost use Rattle.board_share.specs.Namings.{IsNamed};

use board_share::edit_core::Board;
use board_share::{Blank, Desk, Eye, Naming};
use desk_doubles::{Numbers, opening_of};
use std::alloc::Global;
use std::marker::Brand;
use std::process::Abort;
use std::sync::Wait;
use std::thread::Threads;

/// What a test does over a desk.
pub(super) trait Scene {
    /// Does it by the eyes of the desk, which have made no call before. It gives nothing where memory
    /// is wanting, or where a call is refused that should pass.
    fn play<
        D: Naming + Send + Sync,
        W: Wait + Drop + Send + Sync,
        R: Threads + Wait + Abort + Sync,
    >(
        &self,
        rt: &R,
        alloc: Global,
        desk: &Desk<Numbers, D, W>,
        eyes: &mut Vec<Eye<Numbers, D>>,
    ) -> Option<()>;
}

/// Plays a scene over a desk with this name.
fn play_over<S: Scene, D: Naming + Send + Sync, R: Threads + Wait + Abort + Sync>(
    rt: &R,
    alloc: Global,
    opening: Board<Numbers>,
    eyes: u32,
    blank: Blank<Numbers>,
    scene: &S,
) -> Option<()>
    requires eyes { (0 < eyes) × (eyes ≤ 64) }
    requires opens { IsOpening opening }
    requires named { IsNamed blank opening D.name D.parts D.book D.opening }
    requires parts { blank.parts ≡ eyes }
{
    let (desk, mut eyes) = Desk::<Numbers, D, &R>::start(rt, alloc, opening, eyes, blank).ok()?;
    scene.play(rt, alloc, &desk, &mut eyes)
}

/// Plays a scene over a desk of its own, which has so many eyes and opens with these paragraphs.
pub(super) fn play<S: Scene, R: Threads + Wait + Abort + Sync>(
    rt: &R,
    alloc: Global,
    eyes: u32,
    texts: &[&str],
    scene: &S,
) -> Option<()>
    requires { (0 < eyes) × (eyes ≤ 64) }
{
    let opening = opening_of(alloc, texts)?;
    play_over::<S, Brand, R>(rt, alloc, opening, eyes, Blank::new(eyes), scene)
}

/// Plays a scene to its end.
pub(super) fn assert_plays<S: Scene, R: Threads + Wait + Abort + Sync>(
    rt: &R,
    alloc: Global,
    eyes: u32,
    texts: &[&str],
    scene: &S,
)
    requires { (0 < eyes) × (eyes ≤ 64) }
{
    assert_eq!(rt; play(rt, alloc, eyes, texts, scene), Some(()));
}
