//! Threads may have boards, events and refusals, and may be lent them, where they may have the
//! judge. Where a field forbids it, the proof of this crate fails, and not first that of a program
//! that starts threads.

use crate::board::Board;
use crate::event::Event;
use crate::refusal::Refusal;
use crate::state::State;
use mark_types::Judge;

/// Asks of a type that threads may have its values, and may be lent them.
fn need_both<T: Send + Sync>(_value: &T) {}

/// Asks it of all that is published.
fn need_all<J: Judge + Send + Sync>(
    board: &Board<J>,
    state: &State<J>,
    event: &Event<J>,
    refusal: &Refusal,
) {
    need_both(board);
    need_both(state);
    need_both(event);
    need_both(refusal);
}
