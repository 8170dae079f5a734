//! Tests of calls of lower crates that no run of the program shows and that take no dictionary: of
//! commands, replies and scripts, of the words of a text, of the work that `make` makes, and of the
//! files of the system. It has no code of its own.
#![tactic(auto)]

#[cfg(test)]
mod tests;
