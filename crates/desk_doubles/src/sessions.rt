//! Sessions by the judge of numbers.

use crate::numbers::Numbers;
use board_share::{Desk, Naming};
use edit_session::Session;
use std::sync::{Arc, Wait};

/// A session over a desk.
pub type DeskSession<'a, D, W> = Session<'a, Numbers, D, Desk<Numbers, D, W>>;

/// The judge of the dictionary in force; none where memory is wanting.
pub fn judge_of<D: Naming, W: Wait + Drop>(
    session: &mut DeskSession<'_, D, W>,
) -> Option<Arc<Numbers>> {
    let board = session.look().ok()?;
    Arc::try_clone(board.judge()).ok()
}
