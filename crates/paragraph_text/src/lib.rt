//! A document's paragraphs, which are edited in versions: each edit gives a new list, and the old
//! one stays as it is.
#![tactic(auto)]

mod crossing;
mod edits;
mod limits;
mod list;

pub use edits::{
    Edit, EditRefusal, apply, apply_near, edits_are_changes, edits_are_decided, kept_beside,
    openings_are_valid,
};
pub use limits::{MOST_BYTES, MOST_PARAGRAPHS, paragraphs_are_limited};
pub use list::{Para, Paragraphs};
