//! How a claim is checked.

ghost use Rattle.std.specs.Prelude.{◌≡◌, IfErr, IfOk, IfSome};
ghost use Rattle.std.specs.Arc.{arc_value};
ghost use Rattle.board_share.specs.Eyes.{CountsNothing, IsLater, last_of};
ghost use Rattle.check_workers.specs.Ends.{IsCheckEnd};
ghost use Rattle.check_workers.specs.Knowing.{KnowsClaim, KnowsKept};

use crate::ends::CheckEnd;
use crate::keeping::{Kept, renew};
use crate::laws::known_texts_are_short;
use crate::polls::poll;
use board_share::{Claim, Eye, Naming};
use mark_types::{Asker, Judge};
use outside::Gate;
use paragraph_marks::{Checked, Checking, Plain};
use std::alloc::Global;
use std::sync::Arc;

/// How many words are judged between two looks.
const WORDS: u32 = 32;

/// Checks a claim through an eye that knows its board, by the verdicts that are kept for its
/// dictionary, or else by the dictionary alone.
pub(crate) fn check_through<J: Judge + Drop, D: Naming, G: Gate>(
    eye: &mut Eye<J, D>,
    kept: &mut Option<Kept<J>>,
    alloc: Global,
    gate: &G,
    worker: u32,
    claim: &Claim<J>,
) -> Result<Checked<J>, CheckEnd>
    requires claim { KnowsClaim J.lexicon eye.old.run claim.now }
    requires kept { KnowsKept J.lexicon eye.old.run kept.old }
    ensures known { KnowsClaim J.lexicon eye.new.run claim.now }
    ensures kept { KnowsKept J.lexicon eye.new.run kept.new }
    ensures later { IsLater eye.old eye.new }
    ensures counts { CountsNothing eye.old eye.new }
    ensures checked { IfOk result (λ checked. checked ≡ record {
      judge = arc_value claim.now.judge;
      text = arc_value claim.now.text;
    }) }
    ensures stopped { IfErr result (IsCheckEnd (last_of eye.new.run) claim.now) }
{
    known_texts_are_short();
    // What an eye knows is a history, which its point shows.
    let _point = eye.known();
    let judge = Arc::try_clone(&claim.judge)?;
    let text = Arc::try_clone(&claim.text)?;
    let place = pass_gate(eye, gate, worker, claim)?;
    let checking = Checking::start(alloc, judge, text)?;
    renew(alloc, kept, claim);
    match kept {
        Some(kept) => check_rest(eye, alloc, &mut kept.cache, checking, claim, place),
        None => {
            let mut plain = Plain::new(Arc::try_clone(&claim.judge)?);
            check_rest(eye, alloc, &mut plain, checking, claim, place)
        }
    }
}

/// Looks, passes the gate, and looks again. It tells the place of the claim's paragraph.
fn pass_gate<J: Judge + Drop, D: Naming, G: Gate>(
    eye: &mut Eye<J, D>,
    gate: &G,
    worker: u32,
    claim: &Claim<J>,
) -> Result<usize, CheckEnd>
    ensures later { IsLater eye.old eye.new }
    ensures counts { CountsNothing eye.old eye.new }
    ensures stopped { IfErr result (IsCheckEnd (last_of eye.new.run) claim.now) }
{
    // Where nothing was put in or taken out, the ids are the places.
    let place = poll(eye, claim, claim.id as usize)?;
    gate.pass(worker, claim.id);
    poll(eye, claim, place)
}

/// Judges all words that are left, so many between two looks.
fn check_rest<J: Judge + Drop, D: Naming, A: Asker>(
    eye: &mut Eye<J, D>,
    alloc: Global,
    asker: &mut A,
    checking: Checking<J>,
    claim: &Claim<J>,
    near: usize,
) -> Result<Checked<J>, CheckEnd>
    requires { A.lexicon asker.old ≡ J.lexicon checking.judge }
    ensures later { IsLater eye.old eye.new }
    ensures counts { CountsNothing eye.old eye.new }
    ensures checked { IfOk result
        (λ checked. checked ≡ record { judge = checking.judge; text = checking.text }) }
    ensures stopped { IfErr result (IsCheckEnd (last_of eye.new.run) claim.now) }
    ensures same { A.lexicon asker.new ≡ A.lexicon asker.old }
{
    let mut checking = checking;
    let mut place = near;
    loop {
        checking.step(alloc, asker, WORDS)?;
        checking = match checking.done() {
            Ok(checked) => return Ok(checked),
            Err(going) => going,
        };
        place = poll(eye, claim, place)?;
    }
}
