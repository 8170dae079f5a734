//! The tests, and how they are played over a desk.

mod desks;
mod memory;
mod scenes;
mod workers;
