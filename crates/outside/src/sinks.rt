//! Where bytes go.
ghost use Rattle.std.specs.Prelude.{◌≡◌, ℕ, ◌<◌, ◌≤◌, List, Option, OnOk, OnErr};
ghost use Rattle.outside.specs.Sink.{Appends, AppendsFront};

use crate::faults::Failed;

/// Bytes that are written once, at the end.
pub trait Sink {
    /// The bytes written so far, where the sink tells them.
    ghost written: { Self → Option (List ℕ) };

    /// How often it has failed.
    ghost faults: { Self → ℕ };

    /// Writes the whole piece, or fails and may have written some of its front.
    fn put(&mut self, bytes: &[u8]) -> Result<(), Failed>
        ensures ok { OnOk result (Appends (written self.old) (written self.new) bytes.now) }
        ensures failed { OnErr result
            (AppendsFront (written self.old) (written self.new) bytes.now) }
        ensures count { faults self.old ≤ faults self.new }
        ensures rose { OnErr result (faults self.old < faults self.new) };
}
