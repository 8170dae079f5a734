//! Compound rules: their texts read, and rules run over lists of flag sets.
#![tactic(auto)]

mod reading;
mod running;

pub use reading::{PatternFault, patterns_are_read, read_pattern};
pub use running::States;
