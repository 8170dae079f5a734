//! Threads may have what is checked, and may be lent it, where they may have the judge. Where a
//! field forbids it, the proof of this crate fails, and not first that of a program that starts
//! threads.

use crate::stepping::{Checked, Checking};
use mark_types::Judge;

/// Asks of a type that threads may have its values, and may be lent them.
fn need_both<T: Send + Sync>(_value: &T) {}

/// Asks it of all that is checked.
fn need_all<J: Judge + Send + Sync>(checked: &Checked<J>, checking: &Checking<J>) {
    need_both(checked);
    need_both(checking);
}
