//! Workers that check the paragraphs of a desk beside its edits: each claims what waits, checks it,
//! looks whether the check is still wanted, and finishes it.
#![tactic(auto)]

mod bell;
mod checks;
mod crossing;
mod ends;
mod finishing;
mod keeping;
mod laws;
mod polls;
mod settling;
mod worker;
mod working;

pub use bell::Bell;
pub use ends::{CheckEnd, Why, WorkEnd};
pub use settling::settle;
pub use worker::Worker;
