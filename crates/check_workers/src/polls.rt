//! How a check learns that it is not wanted any more.

ghost use Rattle.std.specs.Prelude.{◌≡◌, None, Some, IfErr, OnOk};
ghost use Rattle.board_share.specs.edit_core.Views.{shown_in};
ghost use Rattle.board_share.specs.Eyes.{CountsNothing, IsLater, last_of};
ghost use Rattle.check_workers.specs.Ends.{IsCheckEnd, why_for, why_of};
ghost use Rattle.check_workers.specs.Showing.{is_parked_in};

use crate::ends::{CheckEnd, Why};
use board_share::edit_core::{Board, Shown};
use board_share::{Claim, Eye, Naming};
use mark_types::Judge;

/// Looks whether the check of a claim is still wanted, and tells the place of its paragraph. It is
/// looked for near the place where it was.
pub(crate) fn poll<J: Judge + Drop, D: Naming>(
    eye: &mut Eye<J, D>,
    claim: &Claim<J>,
    near: usize,
) -> Result<usize, CheckEnd>
    ensures later { IsLater eye.old eye.new }
    ensures counts { CountsNothing eye.old eye.new }
    ensures stopped { IfErr result (IsCheckEnd (last_of eye.new.run) claim.now) }
{
    let board = eye.look()?;
    match place_wanted(&board, claim, near) {
        Ok(place) => Ok(place),
        Err(why) => Err(CheckEnd::Stopped(why)),
    }
}

/// The place of a claim's paragraph on a board that shows no cause to stop its check, or the first
/// such cause.
fn place_wanted<J: Judge>(board: &Board<J>, claim: &Claim<J>, near: usize) -> Result<usize, Why>
    ensures wanted { OnOk result (why_of board.now claim.now ≡ None) }
    ensures stopped { IfErr result (λ why. why_of board.now claim.now ≡ Some why) }
{
    let dict = board.versions().dict;
    let Some((place, view)) = board.para_near(claim.id, near) else {
        return Err(Why::Gone);
    };
    match why_for(claim, view.rev, dict, is_parked(&view.shown)) {
        None => Ok(place),
        Some(why) => Err(why),
    }
}

/// The first cause to stop the check of a claim, by what is now.
fn why_for<J>(claim: &Claim<J>, rev: u64, dict: u64, parked: bool) -> Option<Why>
    ensures { result ≡ why_for claim.now.rev claim.now.dict rev dict parked }
{
    if rev != claim.rev {
        return Some(Why::Behind { rev });
    }
    if dict != claim.dict {
        return Some(Why::Reloaded { dict });
    }
    if parked {
        return Some(Why::Parked { rev });
    }
    None
}

/// Whether a paragraph that is shown so is parked.
fn is_parked(shown: &Shown<'_>) -> bool
    ensures { result ≡ is_parked_in (shown_in shown.now) }
{
    match shown {
        Shown::Marks(_) => false,
        Shown::Pending { parked, .. } => *parked,
    }
}
