//! Objects in memory to read from and to write to, for tests. They tell their bytes. Some of them never
//! fail, and some fail at calls that are chosen.
#![tactic(auto)]

mod kept;
mod memory;
mod plans;
mod sure;
mod unread;

pub use memory::{MemFiles, MemSink, MemSource};
pub use sure::{SureSink, SureSource};
