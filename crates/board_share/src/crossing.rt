//! Threads may share a desk and the end of one, and may have an eye, where they may share the
//! judge. Where a field forbids it, the proof of this crate fails, and not first that of a program
//! that starts threads.

use crate::blank::Naming;
use crate::claim::{Claim, ClaimFault};
use crate::closed::Closed;
use crate::desk::Desk;
use crate::eye::Eye;
use crate::told::Told;
use mark_types::Judge;
use std::sync::Wait;

/// Asks of a type that threads may have its values, and may be lent them.
fn need_both<T: Send + Sync>(_value: &T) {}

/// Asks of a type that threads may have its values.
fn need_send<T: Send>(_value: &T) {}

/// Asks it of a desk, and of what it takes and gives.
fn need_all<J: Judge + Drop + Send + Sync, D: Naming + Send + Sync, R: Wait + Drop + Send + Sync>(
    desk: &Desk<J, D, R>,
    eye: &Eye<J, D>,
    closed: &Closed<J>,
    claim: &Claim<J>,
) {
    need_both(desk);
    need_send(eye);
    need_both(closed);
    need_both(claim);
}

/// Asks it of what is told.
fn need_told(told: &Told, fault: &ClaimFault) {
    need_both(told);
    need_both(fault);
}
