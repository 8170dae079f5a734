//! A caller that needs no worker.

ghost use Rattle.std.specs.Prelude.{◌≡◌, ◌<◌, ◌^◌, ℕ, false, length, IfErr, IfOk, OnOk};
ghost use Rattle.std.specs.Arc.{arc_value};
ghost use Rattle.board_share.specs.edit_core.Runs.{Run};
ghost use Rattle.board_share.specs.edit_core.Views.{ShowsParagraph, shown_in};
ghost use Rattle.board_share.specs.Eyes.{IsLater, last_of};
ghost use Rattle.board_share.specs.Eyes.{CountsChecks};
ghost use Rattle.check_workers.specs.Knowing.{KnowsBoard, KnowsClaim};
ghost use Rattle.board_share.specs.Settled.{IsSettled};
ghost use Rattle.check_workers.specs.Settling.{IsBoardFault, CanFinishNoCheck, IsSettleFault};
ghost use Rattle.check_workers.specs.Settling.{IsSettledFrom, told_of_board};
ghost use Rattle.check_workers.specs.Showing.{is_open_in};

use crate::finishing::finish_if_wanted;
use crate::laws::known_texts_are_short;
use board_share::edit_core::{Board, ParaView, Shown, ids_name_paragraphs};
use board_share::{Claim, ClaimFault, Desk, Eye, Naming, Told};
use mark_types::Judge;
use outside::lists::NoMemory;
use paragraph_marks::{Checked, Checking, Plain};
use std::alloc::Global;
use std::sync::{Arc, Wait};

/// Looks, and finishes each paragraph there that is neither finished nor parked, under the number
/// of the eye. A finish that is not wanted any more is passed over. What was finished before a
/// refusal stays so.
pub fn settle<J: Judge + Drop, D: Naming, W: Wait + Drop>(
    rt: &impl Wait,
    alloc: Global,
    desk: &Desk<J, D, W>,
    eye: &mut Eye<J, D>,
) -> Result<Told, ClaimFault>
    ensures later { IsLater eye.old eye.new }
    ensures counts { CountsChecks eye.old eye.new }
    ensures settled { OnOk result (IsSettled eye.old eye.new) }
    ensures told { IfOk result (λ told. told ≡ told_of_board (last_of eye.new.run)) }
    ensures short { IfErr result (IsSettleFault eye.old eye.new) }
{
    let board = eye.look()?;
    settle_board(rt, alloc, desk, eye, &board)?;
    let now = eye.progress();
    Ok(Told {
        point: now.point,
        text: now.text,
        dict: now.dict,
        made: None,
    })
}

/// Finishes what is open on the last board that an eye knows.
fn settle_board<J: Judge + Drop, D: Naming, W: Wait + Drop>(
    rt: &impl Wait,
    alloc: Global,
    desk: &Desk<J, D, W>,
    eye: &mut Eye<J, D>,
    board: &Board<J>,
) -> Result<(), ClaimFault>
    requires { board.now ≡ last_of eye.old.run }
    ensures later { IsLater eye.old eye.new }
    ensures counts { CountsChecks eye.old eye.new }
    ensures settled { OnOk result (IsSettledFrom board.now eye.old eye.new) }
    ensures short { IfErr result (IsBoardFault board.now (last_of eye.new.run)) }
{
    for place in 0..board.versions().paragraphs as usize {
        settle_place(rt, alloc, desk, eye, board, place)?;
    }
    Ok(())
}

/// Finishes the paragraph at a place of a board that an eye knows, if it is open there.
fn settle_place<J: Judge + Drop, D: Naming, W: Wait + Drop>(
    rt: &impl Wait,
    alloc: Global,
    desk: &Desk<J, D, W>,
    eye: &mut Eye<J, D>,
    board: &Board<J>,
    place: usize,
) -> Result<(), ClaimFault>
    requires { KnowsBoard eye.old.run board.now }
    ensures later { IsLater eye.old eye.new }
    ensures counts { CountsChecks eye.old eye.new }
    ensures closed { OnOk result (CanFinishNoCheck board.now place (last_of eye.new.run)) }
    ensures short { IfErr result (IsBoardFault board.now (last_of eye.new.run)) }
{
    let Some(view) = board.para(place) else {
        return Ok(());
    };
    if !is_open(&view.shown) {
        return Ok(());
    }
    // What an eye knows is a history, which its point shows.
    let _point = eye.known();
    known_texts_are_short();
    let open = claim_of(board, &view)?;
    let checked = check_all(alloc, &open)?;
    finish_if_wanted(rt, alloc, desk, eye, eye.number(), &open, checked)
}

/// Whether a paragraph that is shown so is neither finished nor parked.
fn is_open(shown: &Shown<'_>) -> bool
    ensures { result ≡ is_open_in (shown_in shown.now) }
{
    match shown {
        Shown::Marks(_) => false,
        Shown::Pending { parked, .. } => !*parked,
    }
}

/// What is to be checked of a paragraph of a board, as a worker is told it.
fn claim_of<J: Judge + Drop>(board: &Board<J>, view: &ParaView<'_>) -> Result<Claim<J>, NoMemory>
    ensures known { (run : Run) (place : ℕ) → KnowsBoard run board.now
        → ShowsParagraph board.now place view.now → IfOk result (KnowsClaim J.lexicon run) }
    ensures id { IfOk result (λ claim. claim.id ≡ view.now.id) }
    ensures rev { IfOk result (λ claim. claim.rev ≡ view.now.rev) }
    ensures dict { IfOk result (λ claim. claim.dict ≡ board.now.dict_version) }
{
    ids_name_paragraphs();
    Ok(Claim {
        id: view.id,
        rev: view.rev,
        dict: board.versions().dict,
        text: Arc::try_clone(view.text)?,
        judge: Arc::try_clone(board.judge())?,
    })
}

/// The check of all words of a claim's text.
fn check_all<J: Judge + Drop>(alloc: Global, claim: &Claim<J>) -> Result<Checked<J>, NoMemory>
    requires { length (arc_value claim.now.text) < 2 ^ 32 }
    ensures { IfOk result (λ checked. checked ≡ record {
      judge = arc_value claim.now.judge;
      text = arc_value claim.now.text;
    }) }
{
    let judge = &claim.judge;
    let mut asker = Plain::new(Arc::try_clone(judge)?);
    let text = Arc::try_clone(&claim.text)?;
    let mut checking = Checking::start(alloc, Arc::try_clone(judge)?, text)?;
    loop {
        checking.step(alloc, &mut asker, u32::MAX)?;
        checking = match checking.done() {
            Ok(checked) => return Ok(checked),
            Err(going) => going,
        };
    }
}
