//! What workers wait at where nothing waits for them.

ghost use Rattle.std.specs.Prelude.{◌≡◌, ◌==◌, ◌&&◌, Option, None, Some, not, true, if◌then◌else◌};

use std::sync::{Condvar, Mutex, Wait};

/// Workers wait at it until it rings. Closing it ends them. A worker that was awake when it rang does
/// not sleep through the ring.
#[derive(Drop)]
pub struct Bell {
    rings: Mutex<Rings>,
    rung: Condvar,
}

/// What has happened to a bell.
#[derive(Drop)]
struct Rings {
    /// How often it rang. It begins again behind the greatest number.
    count: u64,
    is_closed: bool,
}

impl Bell {
    /// A bell that is open.
    pub fn new() -> Bell {
        let rings = Rings {
            count: 0,
            is_closed: false,
        };
        Bell {
            rings: Mutex::new(rings),
            rung: Condvar::new(),
        }
    }

    /// Wakes each worker that waits.
    pub fn ring(&self, rt: &impl Wait) {
        self.rings.lock(rt).ring();
        self.rung.notify_all();
    }

    /// Closes the bell, and wakes each worker that waits.
    pub fn close(&self, rt: &impl Wait) {
        self.rings.lock(rt).close();
        self.rung.notify_all();
    }

    /// How often the bell rang so far, or none where it is closed.
    pub(crate) fn hear(&self, rt: &impl Wait) -> Option<u64> {
        self.rings.lock(rt).heard()
    }

    /// Waits until the bell rings, or is closed, behind what was heard of it.
    pub(crate) fn wait(&self, rt: &impl Wait, count: u64) {
        let rings = self.rings.lock(rt);
        let _later = self
            .rung
            .wait_while(rt, rings, |rings| rings.is_as_heard(count));
    }
}

impl Rings {
    /// Counts a ring, whose number is not the one before.
    fn ring(&mut self)
        ensures rung { ¬ (self.new.count ≡ self.old.count) }
        ensures same { self.new.is_closed ≡ self.old.is_closed }
    {
        self.count = self.count.wrapping_add(1);
    }

    /// Closes it.
    fn close(&mut self)
        ensures closed { self.new.is_closed ≡ true }
        ensures count { self.new.count ≡ self.old.count }
    {
        self.is_closed = true;
    }

    /// How often it rang, or none where it is closed.
    fn heard(&self) -> Option<u64>
        ensures { result ≡ (if self.now.is_closed then None else Some self.now.count) }
    {
        if self.is_closed {
            return None;
        }
        Some(self.count)
    }

    /// Whether nothing has happened behind so many rings.
    fn is_as_heard(&self, count: u64) -> bool
        ensures { result ≡ (not self.now.is_closed && (self.now.count == count)) }
    {
        !self.is_closed && self.count == count
    }
}
