//! Why a dictionary is not loaded.

ghost use Rattle.std.specs.Prelude.{◌≡◌};
ghost use Rattle.dictionary_swap.specs.Loads.{load_fault_of};
ghost use Rattle.dictionary_swap.specs.declared.fault.LoadFault.TheVariants.{NoMemory as OutOfMemory};

use crate::causes::{aff_cause, dic_cause};
use aff_lines::AffWhy;
use dic_reader::DicWhy;
use outside::FileFault;
use outside::lists::NoMemory;
use thiserror::Error;

/// Why a dictionary is not loaded. The messages are for people; no line that the program prints is
/// made of one.
#[derive(Clone, Copy, Debug, PartialEq, Eq, Error)]
pub enum LoadFault {
    /// The files failed.
    #[error("a file of the dictionary could not be read")]
    Failed,
    /// The next file is not there.
    #[error("a file of the dictionary is not there")]
    Missing,
    /// The next file has more bytes than this.
    #[error("a file of the dictionary has more than {limit} bytes, which is the most that is read")]
    TooLong { limit: u64 },
    /// The first fault of the .aff file. Lines count from 1.
    #[error("line {line} of the .aff file: {}", aff_cause(.why))]
    Aff { line: u64, why: AffWhy },
    /// The first fault of the .dic file. Lines count from 1.
    #[error("line {line} of the .dic file: {}", dic_cause(.why))]
    Dic { line: u64, why: DicWhy },
    /// Memory for the dictionary could not be had.
    #[error("memory for the dictionary could not be had")]
    NoMemory,
}

impl LoadFault {
    /// Why a file is not loaded that may have so many bytes.
    pub fn of_file(fault: FileFault, limit: u64) -> LoadFault
        ensures { result ≡ load_fault_of limit fault }
    {
        match fault {
            FileFault::Failed => LoadFault::Failed,
            FileFault::Missing => LoadFault::Missing,
            FileFault::TooLong => LoadFault::TooLong { limit },
            FileFault::NoMemory => LoadFault::NoMemory,
        }
    }
}

impl From<NoMemory> for LoadFault {
    ghost from_gives = { λ _ fault. fault ≡ OutOfMemory };

    fn from(_wanting: NoMemory) -> LoadFault {
        LoadFault::NoMemory
    }
}
