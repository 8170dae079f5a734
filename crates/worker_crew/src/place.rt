//! Where the work over a desk is done.

use outside::Gate;
use std::alloc::Global;
use std::sync::Wait;

/// What the work over a desk needs beside its dictionary and what is outside.
#[derive(Drop)]
pub struct Workplace<'a, R: Wait, G: Gate> {
    pub rt: &'a R,
    pub alloc: Global,
    /// Each check of a worker passes it.
    pub gate: &'a G,
}
