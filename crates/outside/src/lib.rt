//! What the program reads from and writes to, seen by what it tells and by how often it failed.
//!
//! A trait's contract speaks of bytes only where an object tells them. Objects in memory tell them,
//! so that what is proved of code over these traits is a statement about bytes; the real ones tell
//! nothing. All of them count their faults, and fail only where the count rose.
#![tactic(auto)]

mod faults;
mod folders;
mod gates;
mod loading;
mod lookup;
mod real;
mod sinks;
mod sources;
mod sure;

pub use faults::{Failed, FileFault};
pub use folders::Files;
pub use gates::{FreeGate, Gate};
pub use lists;
pub use loading::load_file;
pub use real::{RealFiles, StdSink, StdSource};
pub use sinks::Sink;
pub use sources::Source;
pub use sure::SureFiles;
