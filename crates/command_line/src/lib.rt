//! What the words of a command line ask for: each form of words with what it does, and how a call
//! ends.
#![tactic(auto)]

mod operands;
mod options;
mod requests;
mod top_call;

pub use file_loading::{Ended, put_wanting};
pub use top_call::{run, run_check};
