//! How many workers words ask for.

ghost use Rattle.std.specs.Prelude.{◌≡◌, ◌≤◌, nat_le, Some, None, if◌then◌else◌};
ghost use Rattle.file_loading.specs.declared.limits.TheConstants.{MOST_WORKERS};

use crate::limits::MOST_WORKERS;
use std::marker::Model;

/// How many workers words ask for: 0 to 16. Contracts see the number.
#[derive(Clone, Copy)]
pub struct Workers {
    count: u64,
}

impl Model for Workers {
    ghost use Rattle.std.specs.Prelude.{ℕ, ◌≤◌};
    ghost use Rattle.file_loading.specs.declared.limits.TheConstants.{MOST_WORKERS};

    ghost Value = { ℕ };

    ghost view = { λ inside. inside.count };

    ghost inverse = { λ number. record { count = number } };

    ghost invariant = { λ inside. inside.count ≤ MOST_WORKERS };
}

impl Workers {
    /// The number, which is 16 at most.
    pub fn count(self) -> u64
        ensures is { result ≡ self }
        ensures few { result ≤ MOST_WORKERS }
    {
        self.count
    }

    /// No worker.
    pub fn none() -> Workers
        ensures { result ≡ 0 }
    {
        Workers { count: 0 }
    }

    /// So many workers, if they are no more than 16.
    pub fn of(count: u64) -> Option<Workers>
        ensures { result ≡ (if nat_le count MOST_WORKERS then Some count else None) }
    {
        if count <= MOST_WORKERS {
            Some(Workers { count })
        } else {
            None
        }
    }
}
