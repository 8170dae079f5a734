//! A thread may be given a worker, where threads may share the judge and the desk. Where a field
//! forbids it, the proof of this crate fails, and not first that of a program that starts threads.

use crate::bell::Bell;
use crate::ends::{CheckEnd, WorkEnd};
use crate::worker::Worker;
use board_share::Naming;
use mark_types::Judge;

/// Asks of a type that threads may have its values, and may be lent them.
fn need_both<T: Send + Sync>(_value: &T) {}

/// Asks of a type that threads may have its values.
fn need_send<T: Send>(_value: &T) {}

/// Asks it of a worker, and of what it tells.
fn need_all<J: Judge + Drop + Send + Sync, D: Naming + Send + Sync, K: Sync>(
    worker: &Worker<'_, J, D, K>,
    end: &CheckEnd,
) {
    need_send(worker);
    need_both(end);
}

/// Asks it of a bell, which threads share, and of what a worker ends with.
fn need_bell(bell: &Bell, end: &WorkEnd) {
    need_both(bell);
    need_both(end);
}
