//! A thread may have a cache where threads may share the judge. Where a field forbids it, the proof
//! of this crate fails, and not first that of a program that starts threads.

use crate::caching::Cached;
use mark_types::Judge;

/// Asks of a type that threads may have its values, and may be lent them.
fn need_both<T: Send + Sync>(_value: &T) {}

/// Asks it of a cache.
fn need_all<J: Judge + Send + Sync>(cached: &Cached<J>) {
    need_both(cached);
}
