//! Which calls of an object in memory fail.
ghost use Rattle.std.specs.Prelude.{◌≡◌, ◌+◌, ◌<◌, ◌≤◌, ◌↔◌, IsTrue, Contains, if◌then◌else◌};

/// Numbers the calls from 1, and counts those that failed.
#[derive(Drop)]
pub(crate) struct Plan {
    failing: Vec<u64>,
    calls: u64,
    pub(crate) faults: u64,
    ghost counted: { faults ≤ calls },
}

impl Plan {
    pub(crate) fn new(failing: Vec<u64>) -> Plan
        ensures failing { result.failing ≡ failing }
        ensures calls { result.calls ≡ 0 }
        ensures faults { result.faults ≡ 0 }
    {
        Plan {
            failing,
            calls: 0,
            faults: 0,
        }
    }

    /// Numbers one more call, and raises the count where that number is to fail.
    /// Past `u64::MAX` calls none is numbered, so none fails.
    pub(crate) fn fails_next(&mut self) -> bool
        ensures planned { self.old.calls < u64.MAX
            → (IsTrue result ↔ Contains self.old.failing.items (self.old.calls + 1)) }
        ensures calls { self.old.calls < u64.MAX → self.new.calls ≡ self.old.calls + 1 }
        ensures faults { self.new.faults
            ≡ (if result then self.old.faults + 1 else self.old.faults) }
        ensures failing { self.new.failing ≡ self.old.failing }
    {
        let Some(number) = self.calls.checked_add(1) else {
            return false;
        };
        self.calls = number;
        let fails = self.failing.contains(&number);
        if fails {
            self.faults += 1;
        }
        fails
    }
}
