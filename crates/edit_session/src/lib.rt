//! What one window of an editor holds: a session, which edits, loads dictionaries, parks and asks
//! through its eye of a desk, and looks.
#![tactic(auto)]

mod crossing;
mod session;

pub use session::{Made, Session};
