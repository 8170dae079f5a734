//! Tests of calls of lower crates that no run of the program shows, of what is read of a dictionary
//! and asked of it. It has no code of its own.
#![tactic(auto)]

#[cfg(test)]
mod tests;
