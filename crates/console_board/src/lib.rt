//! What a command of the console is over a board, and what it replies.
#![tactic(auto)]

mod events;
mod laws;
mod refusing;
mod showing;

pub use events::event_for;
pub use laws::{
    asked_events_have_replies, commands_are_their_events, commands_have_whole_texts,
    quits_are_short, transcripts_are_functions,
};
pub use refusing::{fault_reply, refused};
pub use showing::show;
