//! Files that are loaded whole, by name.
ghost use Rattle.std.specs.Prelude.{◌≡◌, ℕ, ◌<◌, ◌≤◌, length, Option, Err, IfSome, OnOk, OnErr};
ghost use Rattle.std.specs.Prelude.{IsErrOf};
ghost use Rattle.outside.specs.Files.{Folder, LoadAnswers};

use crate::faults::FileFault;
use std::alloc::Global;

/// Files that no call changes.
pub trait Files {
    /// The bytes of each name, where the folder tells them.
    ghost told: { Self → Option Folder };

    /// How often it has failed.
    ghost faults: { Self → ℕ };

    /// Puts the bytes of the file of this name in place of what `into` holds; at most `limit`
    /// bytes.
    fn load(
        &mut self,
        alloc: Global,
        name: &str,
        limit: u64,
        into: &mut Vec<u8>,
    ) -> Result<(), FileFault>
        ensures told { IfSome (told self.old)
            (λ folder. LoadAnswers (folder name.now) limit into.new.items result) }
        ensures bounded { OnOk result (length into.new.items ≤ limit) }
        ensures kept { OnErr result (into.new.items ≡ into.old.items) }
        ensures same { told self.new ≡ told self.old }
        ensures count { faults self.old ≤ faults self.new }
        ensures rose { IsErrOf result FileFault.Failed → faults self.old < faults self.new }
        ensures missing_is_no_fault { IsErrOf result FileFault.Missing
            → faults self.new ≡ faults self.old };
}
