//! What a console over a desk is told, and what the history of its desk is then.
#![tactic(auto)]

mod laws;

pub use laws::{
    closed_consoles_are_followed, closed_consoles_are_not_spent, followed_consoles_reply,
    told_commands_go_one_on, told_consoles_are_followed, told_consoles_keep_their_eyes,
};
