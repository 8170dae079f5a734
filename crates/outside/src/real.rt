//! The real outside. It tells no bytes, and is trusted to be what its names say.
ghost use Rattle.std.specs.Prelude.{◌≡◌, ◌⊎◌, ◌<◌, ◌≤◌, length, None, IfOk};

use crate::faults::{Failed, FileFault};
use crate::folders::Files;
use crate::sinks::Sink;
use crate::sources::Source;
use std::alloc::Global;
use std::fs;
use std::io::{ErrorKind, Read};

/// The standard input.
#[derive(Drop)]
pub struct StdSource<R: Input> {
    reader: R::Reader,
    faults: u64,
}

impl<R: Input> StdSource<R> {
    /// The input from where it stands.
    pub fn new(rt: &R) -> StdSource<R> {
        StdSource {
            reader: rt.reader(),
            faults: 0,
        }
    }
}

impl<R: Input> Source for StdSource<R> {
    ghost left = { λ _. None };

    ghost faults = { λ source. source.faults };

    fn read(&mut self, into: &mut [u8]) -> Result<usize, Failed> {
        // No further fault could be counted, so the input ends; no one lives to see so many.
        if self.faults == u64::MAX {
            return Ok(0);
        }
        match self.reader.read(into) {
            Ok(count) => Ok(count),
            Err(_) => {
                self.faults += 1;
                Err(Failed)
            }
        }
    }
}

/// The standard output.
#[derive(Drop)]
pub struct StdSink<R> {
    rt: R,
    faults: u64,
}

impl<R: Print> StdSink<R> {
    /// The output from where it stands.
    pub fn new(rt: R) -> StdSink<R> {
        StdSink { rt, faults: 0 }
    }
}

impl<R: Print> Sink for StdSink<R> {
    ghost written = { λ _. None };

    ghost faults = { λ sink. sink.faults };

    fn put(&mut self, bytes: &[u8]) -> Result<(), Failed> {
        // No further fault could be counted, so nothing is written; no one lives to see so many.
        if self.faults == u64::MAX {
            return Ok(());
        }
        // A write that takes nothing of what is not empty is an error here too.
        if self.rt.write_all(bytes).is_err() {
            self.faults += 1;
            return Err(Failed);
        }
        Ok(())
    }
}

/// The files of the system.
#[derive(Drop)]
pub struct RealFiles<R> {
    rt: R,
    faults: u64,
}

/// How many bytes a file is asked for at once.
const PIECE: usize = 65536;

impl<R: std::rt::Files> RealFiles<R> {
    /// The files that this process may open.
    pub fn new(rt: R) -> RealFiles<R> {
        RealFiles { rt, faults: 0 }
    }

    fn read_whole(&self, alloc: Global, name: &str, limit: u64) -> Result<Vec<u8>, FileFault>
        ensures { IfOk result (λ bytes. length bytes.items ≤ limit) }
    {
        match fs::open(&self.rt, name) {
            Ok(mut file) => read_within(alloc, &mut file, limit),
            Err(error) if error.kind() == ErrorKind::NotFound => Err(FileFault::Missing),
            Err(_) => Err(FileFault::Failed),
        }
    }

    // Where no further fault can be counted, which no one lives to see, it says that memory is
    // wanting: that answer is free.
    fn count_fault(&mut self) -> FileFault
        ensures failed { result ≡ FileFault.Failed → self.old.faults < self.new.faults }
        ensures count { self.old.faults ≤ self.new.faults }
        ensures answer { (result ≡ FileFault.Failed) ⊎ (result ≡ FileFault.NoMemory) }
    {
        match self.faults.checked_add(1) {
            Some(faults) => {
                self.faults = faults;
                FileFault::Failed
            }
            None => FileFault::NoMemory,
        }
    }
}

/// All that is left in a file, unless it is more than `limit` bytes.
fn read_within<F: Read>(alloc: Global, file: &mut F, limit: u64) -> Result<Vec<u8>, FileFault>
    ensures { IfOk result (λ bytes. length bytes.items ≤ limit) }
{
    let mut bytes = Vec::new(alloc);
    let mut piece = vec![in alloc; 0u8; PIECE].map_err(|_| FileFault::NoMemory)?;
    for _ in 0..u64::MAX {
        let count = file.read(&mut piece).map_err(|_| FileFault::Failed)?;
        if count == 0 {
            return Ok(bytes);
        }
        if count as u64 > limit - bytes.len() as u64 {
            return Err(FileFault::TooLong);
        }
        bytes
            .extend_from_slice(&piece[..count])
            .map_err(|_| FileFault::NoMemory)?;
    }
    Err(FileFault::Failed)
}

impl<R: std::rt::Files> Files for RealFiles<R> {
    ghost told = { λ _. None };

    ghost faults = { λ files. files.faults };

    fn load(
        &mut self,
        alloc: Global,
        name: &str,
        limit: u64,
        into: &mut Vec<u8>,
    ) -> Result<(), FileFault> {
        match self.read_whole(alloc, name, limit) {
            Ok(bytes) => {
                *into = bytes;
                Ok(())
            }
            Err(FileFault::Failed) => Err(self.count_fault()),
            Err(fault) => Err(fault),
        }
    }
}
