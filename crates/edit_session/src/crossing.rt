//! A thread may be given a session, where threads may share the judge and the desk. Where a field forbids it, the
//! proof of this crate fails, and not first that of a program that starts threads.

use crate::session::{Made, Session};
use board_share::Naming;
use mark_types::Judge;

/// Asks of a type that threads may have its values.
fn need_send<T: Send>(_value: &T) {}

/// Asks it of a session, and of what it tells.
fn need_all<J: Judge + Drop + Send + Sync, D: Naming + Send + Sync, K: Sync>(
    session: &Session<'_, J, D, K>,
    made: &Made,
) {
    need_send(session);
    need_send(made);
}
