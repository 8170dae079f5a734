//! A file that is loaded whole.
ghost use Rattle.std.specs.Prelude.{◌≡◌, ◌<◌, ◌≤◌, ℕ, List, Option, length, IfOk, IfSome, IsErrOf};
ghost use Rattle.lists.specs.Answers.{GivesDue};
ghost use Rattle.outside.specs.Files.{MayComeOfFiles, file_due};

use crate::faults::FileFault;
use crate::folders::Files;
use std::alloc::Global;

/// The bytes of the file of this name, of which there may be at most `limit`.
#[tactic(auto, unfolding(crate::specs::Files::file_due))]
pub fn load_file<F: Files>(
    alloc: Global,
    files: &mut F,
    name: &str,
    limit: u64,
) -> Result<Vec<u8>, FileFault>
    // They are those that are due of some file, which is the one that is told, where one is.
    ensures found { (file : Option (List ℕ))
        × GivesDue MayComeOfFiles (λ bytes. bytes.items) (file_due limit file) result }
    ensures told { IfSome (F.told files.old) (λ folder.
        GivesDue MayComeOfFiles (λ bytes. bytes.items) (file_due limit (folder name.now)) result) }
    ensures bounded { IfOk result (λ bytes. length bytes.items ≤ limit) }
    ensures same { F.told files.new ≡ F.told files.old }
    ensures failed { IsErrOf result FileFault.Failed → F.faults files.old < F.faults files.new }
    ensures count { F.faults files.old ≤ F.faults files.new }
{
    let mut bytes = Vec::new(alloc);
    files.load(alloc, name, limit, &mut bytes)?;
    Ok(bytes)
}
