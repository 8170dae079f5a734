//! The marks of a paragraph, all at once or some words at a time.
#![tactic(auto)]

mod asking;
mod crossing;
mod judging;
mod stepping;

pub use asking::Plain;
pub use judging::{CountedMarks, check, check_counted};
pub use stepping::{Checked, Checking};
