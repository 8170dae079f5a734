//! The form of words `team`: sessions at once, each a console over one desk, which answers its lines
//! in a thread of its own, beside workers.
#![tactic(auto)]

mod answering;
mod closing;
mod limits;
mod loading;
mod pairs;
mod scripts;
mod session;
pub mod team;
mod teamwork;

pub use limits::{MOST_PAIRS, loads_are_limited};
pub use pairs::LoadedPair;
pub use scripts::{SessionLines, scripts_of};
pub use teamwork::{MOST_AT_ONCE, MOST_LINES, Teamed, answer_at_once};
