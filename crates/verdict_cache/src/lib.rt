//! A judge that is asked once for a word that comes again and again.
#![tactic(auto)]

mod caching;
mod crossing;

pub use caching::Cached;
