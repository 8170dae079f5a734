//! The end of the work of workers.

use check_workers::Bell;
use joined_tasks::Task;
use std::sync::Wait;

/// The task of closing the bell of workers, which ends their work.
#[derive(Drop)]
pub(crate) struct BellTask<'a, R: Wait> {
    pub(crate) rt: &'a R,
    pub(crate) bell: &'a Bell,
}

impl<R: Wait> Task for BellTask<'_, R> {
    ghost IsReady = { λ closing. Unit {0} };

    ghost Does = { λ old new. Unit {0} };

    /// Closes the bell.
    fn perform(&mut self) {
        self.bell.close(self.rt);
    }
}
