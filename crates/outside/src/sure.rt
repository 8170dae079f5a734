//! Files in memory, which never fail. They tell their bytes.
ghost use Rattle.std.specs.Prelude.{◌≡◌, Some};
ghost use Rattle.outside.specs.Memory.{file_of};

use crate::faults::FileFault;
use crate::folders::Files;
use crate::lookup::load_first;
use std::alloc::Global;

/// Files in memory. Of two with one name the first counts.
#[derive(Drop)]
pub struct SureFiles {
    files: Vec<(String, Vec<u8>)>,
}

impl SureFiles {
    /// A folder of these files.
    pub fn new(files: Vec<(String, Vec<u8>)>) -> SureFiles
        ensures { ⟦<SureFiles as Files>⟧.told result ≡ Some (file_of files.items) }
    {
        SureFiles { files }
    }
}

impl Files for SureFiles {
    ghost told = { λ memory. Some (file_of memory.files.items) };

    ghost faults = { λ _. 0 };

    fn load(
        &mut self,
        alloc: Global,
        name: &str,
        limit: u64,
        into: &mut Vec<u8>,
    ) -> Result<(), FileFault> {
        load_first(alloc, self.files.as_slice(), name, limit, into)
    }
}
