//! Points of a run at which an outside may hold a thread.

/// A test's gate may hold a thread for a while. Each call returns, and changes nothing that a
/// contract speaks of.
pub trait Gate {
    /// A worker, by its number, is about to do the work of this id.
    fn pass(&self, worker: u32, id: u64);

    /// A session, by its number, is about to begin.
    fn enter(&self, session: u32);
}

/// Holds no one.
#[derive(Clone, Copy, Debug)]
pub struct FreeGate;

impl Gate for FreeGate {
    fn pass(&self, _worker: u32, _id: u64) {}

    fn enter(&self, _session: u32) {}
}
