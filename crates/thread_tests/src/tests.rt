//! The tests.

mod threads;
