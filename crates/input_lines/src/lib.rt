//! Reads an input line by line, piece by piece, and writes what is answered to each line before
//! more is read.
#![tactic(auto)]

mod laws;
mod limits;
mod listener;
mod pieces;
mod reading;
mod reading_end;
mod responder;

pub use laws::fitting_inputs_are_read;
pub use limits::{INPUT_LIMIT, LINE_LIMIT, inputs_are_limited};
pub use reading::answer_lines;
pub use reading_end::ReadingEnd;
pub use responder::{Flow, Responder};
