//! A thread may have a handle of its own. Where a field forbids it, the proof of this crate fails,
//! and not first a program in C.

use crate::handle::Dictionary;

/// Asks of a type that threads may have its values.
fn need_send<T: Send>(_value: &T) {}

/// Asks it of a handle with all that it has.
fn need_all(dictionary: &Dictionary) {
    need_send(dictionary);
}
