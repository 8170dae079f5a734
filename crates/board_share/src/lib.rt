//! A desk: one history of events that come from many callers, and eyes that see it.
#![tactic(auto)]

mod blank;
mod claim;
mod closed;
mod counts;
mod crossing;
mod desk;
mod eye;
mod front;
mod laws;
mod log;
mod note;
mod scribe;
mod told;

pub use blank::{Blank, Naming};
pub use claim::{Claim, ClaimFault};
pub use closed::Closed;
pub use counts::Counts;
pub use desk::Desk;
pub use edit_core;
pub use edit_core::paragraph_text;
pub use eye::Eye;
pub use told::Told;
