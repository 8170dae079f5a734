//! Loads from a list of files with their names.
ghost use Rattle.std.specs.Prelude.{◌≡◌, ◌≤◌, length, Some, OnOk, OnErr, IsErrOf, option_map};
ghost use Rattle.outside.specs.Files.{LoadAnswers};
ghost use Rattle.outside.specs.Memory.{file_of};

use crate::faults::FileFault;
use std::alloc::Global;

/// Loads the first file of this name.
pub(crate) fn load_first(
    alloc: Global,
    files: &[(String, Vec<u8>)],
    name: &str,
    limit: u64,
    into: &mut Vec<u8>,
) -> Result<(), FileFault>
    ensures answers { LoadAnswers (file_of files.now name.now) limit into.new.items result }
    ensures bounded { OnOk result (length into.new.items ≤ limit) }
    ensures kept { OnErr result (into.new.items ≡ into.old.items) }
    ensures never_failed { IsErrOf result FileFault.Failed → ⊥ }
{
    let Some(bytes) = find(files, name) else {
        return Err(FileFault::Missing);
    };
    copy_within(alloc, bytes, limit, into)
}

fn find<'a>(files: &'a [(String, Vec<u8>)], name: &str) -> Option<&'a [u8]>
    ensures { option_map (λ bytes. bytes.now) result ≡ file_of files.now name.now }
{
    files
        .iter()
        .find(|file| file.0.as_str() == name)
        .map(|file| file.1.as_slice())
}

/// Puts a copy of these bytes in place of what `into` holds, where they are not too many.
fn copy_within(alloc: Global, bytes: &[u8], limit: u64, into: &mut Vec<u8>) -> Result<(), FileFault>
    ensures answers { LoadAnswers (Some bytes.now) limit into.new.items result }
    ensures bounded { OnOk result (length into.new.items ≤ limit) }
    ensures kept { OnErr result (into.new.items ≡ into.old.items) }
    ensures never_failed { IsErrOf result FileFault.Failed → ⊥ }
{
    if bytes.len() as u64 > limit {
        return Err(FileFault::TooLong);
    }
    let Ok(copied) = Vec::from_slice(alloc, bytes) else {
        return Err(FileFault::NoMemory);
    };
    *into = copied;
    Ok(())
}
