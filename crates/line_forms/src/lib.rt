//! The forms of words that answer the lines of an input: `pipe`, and `edit`, a dialogue in which a
//! console over a desk replies to the lines, while workers check beside it what its edits leave open.
#![tactic(auto)]

mod dialogue;
pub mod edit;
mod ending;
pub mod pipe;
mod talk;

pub use dialogue::{Conversed, MOST_BESIDE, converse};
