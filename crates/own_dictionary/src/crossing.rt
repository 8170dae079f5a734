//! Threads may have these, and may be lent them. Where a field forbids it, the proof of this
//! crate fails, and not first that of a program that starts threads.

use crate::OwnDictionary;

/// Asks of a type that threads may have its values, and may be lent them.
fn need_both<T: Send + Sync>(_value: &T) {}

/// Asks it of a dictionary with all that is prepared of it.
fn need_all(dictionary: &OwnDictionary) {
    need_both(dictionary);
}
