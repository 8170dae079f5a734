//! Tests of desks, sessions and workers: calls of lower crates that no run of the program shows. It has
//! no code of its own.
#![tactic(auto)]

#[cfg(test)]
mod tests;
