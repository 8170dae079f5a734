//! Threads may have paragraphs and edits, and may be lent them. Where a field forbids it, the proof
//! of this crate fails, and not first that of a program that starts threads.

use crate::edits::Edit;
use crate::list::{Para, Paragraphs};

/// Asks of a type that threads may have its values, and may be lent them.
fn need_both<T: Send + Sync>(_value: &T) {}

/// Asks it of all that boards are made of.
fn need_all(paragraphs: &Paragraphs, para: &Para, edit: &Edit) {
    need_both(paragraphs);
    need_both(para);
    need_both(edit);
}
