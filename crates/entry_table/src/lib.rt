//! The entries of a dictionary by a hash of their words.
#![tactic(auto)]

mod half;
mod hashed;
mod table;

pub use half::{Half, Places};
pub use hashed::{Hashed, START, fold, hash_of};
pub use table::EntryTable;
