//! Where bytes come from, piece by piece.
ghost use Rattle.std.specs.Prelude.{◌≡◌, ℕ, ◌<◌, ◌≤◌, ◌↔◌, List, [], length, take, Option, IfOk};
ghost use Rattle.std.specs.Prelude.{OnErr, IfSome};
ghost use Rattle.outside.specs.Source.{Takes, IsEndOf};

use crate::faults::Failed;

/// Bytes that are read once, from the front.
pub trait Source {
    /// The bytes still to come, where the source tells them.
    ghost left: { Self → Option (List ℕ) };

    /// How often it has failed.
    ghost faults: { Self → ℕ };

    /// Moves the next bytes to the front of `into`, and answers how many: 0 is the end.
    /// What stands behind them in `into` is left open, and after a failure all of `into` is.
    fn read(&mut self, into: &mut [u8]) -> Result<usize, Failed>
        requires { 0 < length into.old }
        ensures bounded { IfOk result (λ count. count ≤ length into.new) }
        ensures taken { IfOk result
            (λ count. Takes (left self.old) (left self.new) (take count into.new)) }
        ensures end { IfOk result (λ count. IsEndOf (left self.old) count) }
        ensures failed { OnErr result (left self.new ≡ left self.old) }
        ensures count { faults self.old ≤ faults self.new }
        ensures rose { OnErr result (faults self.old < faults self.new) };
}
