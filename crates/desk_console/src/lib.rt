//! A console over a desk: its commands look through an eye of the desk and publish through it, and
//! a bell tells the workers that there may be something to check.
#![tactic(auto)]

mod commands;
mod console;
mod dictionaries;
mod responding;
mod stop;

pub use console::{DeskConsole, SESSION};
pub use responding::{is_quit, push_reply, read_line};
pub use stop::Stop;
