//! Threads may have personal lists, and may be lent them. Where a field forbids it, the proof of
//! this crate fails, and not first that of a program that starts threads.

use crate::OwnList;

/// Asks of a type that threads may have its values, and may be lent them.
fn need_both<T: Send + Sync>(_value: &T) {}

/// Asks it of a personal list.
fn need_all(own: &OwnList) {
    need_both(own);
}
