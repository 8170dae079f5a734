//! The forms of words that ask for a report: `check`, `forms` and `make`.
#![tactic(auto)]

pub mod check;
mod limits;
pub mod listing;
pub mod make;
mod making;
mod printing;

pub use limits::{DOCUMENT_LIMIT, MOST_FORMS, reports_are_limited};
