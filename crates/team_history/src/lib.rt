//! Sessions that edit one text at once: how the replies of each are told by the one history.
#![tactic(auto)]

mod laws;

pub use laws::{
    closed_sessions_are_not_spent, closed_sessions_are_told, heard_sessions_go_on,
    only_sessions_ask, told_commands_ask_once,
};
