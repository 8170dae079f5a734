//! What is shown of a board.

ghost use Rattle.std.specs.Prelude.{◌≡◌, ◌<◌, Some, length, map, slice_get, IfOk};
ghost use Rattle.edit_core.specs.Views.{view_of};
ghost use Rattle.console_board.specs.BoardAnswers.{look_reply, shown_para};

use crate::events::board_is_valid;
use console_lang::{Reply, ShownPara};
use edit_core::{Board, Shown};
use mark_types::Judge;
use outside::lists::{Copied, Items, NoMemory};
use std::alloc::Global;

/// What `show` replies of a board: the versions, and for each text its marks, or that it is not
/// checked.
#[tactic(auto, using(std::proofs::lemmas::Grind::common_steps, std::proofs::lemmas::Option::gets))]
pub fn show<J: Judge + Drop>(alloc: Global, board: &Board<J>) -> Result<Reply, NoMemory>
    ensures { IfOk result (λ reply. reply ≡ look_reply board.now) }
{
    board_is_valid(board);
    let versions = board.versions();
    let mut paragraphs = Items::new(alloc);
    for place in 0..versions.paragraphs as usize {
        paragraphs.push(shown_at(alloc, board, place)?)?;
    }
    Ok(Reply::Shown {
        text: versions.text,
        dict: versions.dict,
        paragraphs,
    })
}

/// What is shown of the text with a place, from 0.
fn shown_at<J: Judge + Drop>(
    alloc: Global,
    board: &Board<J>,
    place: usize,
) -> Result<ShownPara, NoMemory>
    requires { place < length board.now.paragraphs }
    ensures { IfOk result (λ para.
        slice_get (map shown_para (view_of board.now).shown) place ≡ Some para) }
{
    let Some(view) = board.para(place) else {
        unreachable!()
    };
    match view.shown {
        Shown::Marks(marks) => Ok(ShownPara::Finished(marks.copy(alloc)?)),
        Shown::Pending { .. } => Ok(ShownPara::Pending),
    }
}
