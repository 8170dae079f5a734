//! Objects in memory of which chosen calls fail. They tell their bytes.
ghost use Rattle.std.specs.Prelude.{◌≡◌, ◌≤◌, [], take, Some, IfSome};
ghost use Rattle.outside.specs.Memory.{file_of};

use crate::kept::KeptBytes;
use crate::plans::Plan;
use crate::unread::Unread;
use outside::{Failed, FileFault, Files, Sink, Source, SureFiles};
use std::alloc::Global;

/// A source in memory.
#[derive(Drop)]
pub struct MemSource {
    unread: Unread,
    piece: usize,
    plan: Plan,
    ghost some: { 1 ≤ piece },
}

impl MemSource {
    /// A source of these bytes, of which a read gives at most `piece`. `failing` lists the numbers
    /// of the reads that are to fail, counted from 1; such a read takes nothing.
    pub fn new(bytes: Vec<u8>, piece: usize, failing: Vec<u64>) -> MemSource
        requires piece { 1 ≤ piece }
        ensures left { ⟦<MemSource as Source>⟧.left result ≡ Some bytes.items }
        ensures faultless { ⟦<MemSource as Source>⟧.faults result ≡ 0 }
    {
        MemSource {
            unread: Unread::new(bytes),
            piece,
            plan: Plan::new(failing),
        }
    }
}

impl Source for MemSource {
    ghost left = { λ source. Some source.unread };

    ghost faults = { λ source. source.plan.faults };

    fn read(&mut self, into: &mut [u8]) -> Result<usize, Failed> {
        if self.plan.fails_next() {
            return Err(Failed);
        }
        Ok(self.unread.give(self.piece, into))
    }
}

/// A sink in memory. A put that finds no memory for what it is to take takes nothing and answers
/// Ok, one that was to fail too; from then on the sink tells nothing.
#[derive(Drop)]
pub struct MemSink {
    kept: KeptBytes,
    plan: Plan,
    taken: usize,
}

impl MemSink {
    /// An empty sink. `failing` lists the numbers of the puts that are to fail, counted from 1;
    /// such a put takes the first `taken` bytes of its piece, or the whole piece where it is
    /// shorter.
    pub fn new(alloc: Global, failing: Vec<u64>, taken: usize) -> MemSink
        ensures empty { ⟦<MemSink as Sink>⟧.written result ≡ Some [] }
        ensures faultless { ⟦<MemSink as Sink>⟧.faults result ≡ 0 }
    {
        MemSink {
            kept: KeptBytes::new(alloc),
            plan: Plan::new(failing),
            taken,
        }
    }

    /// What was written, as far as there was memory for it.
    pub fn written(&self) -> &[u8]
        ensures { IfSome (⟦<MemSink as Sink>⟧.written self.now) (λ bytes. result.now ≡ bytes) }
    {
        self.kept.as_slice()
    }
}

impl Sink for MemSink {
    ghost written = { λ sink. sink.kept };

    ghost faults = { λ sink. sink.plan.faults };

    fn put(&mut self, bytes: &[u8]) -> Result<(), Failed> {
        if self.plan.fails_next() {
            let front = front_of(bytes, self.taken);
            return if self.kept.append(front) {
                Err(Failed)
            } else {
                Ok(())
            };
        }
        self.kept.append(bytes);
        Ok(())
    }
}

fn front_of(bytes: &[u8], count: usize) -> &[u8]
    ensures { result.now ≡ take count bytes.now }
{
    if count < bytes.len() {
        &bytes[..count]
    } else {
        bytes
    }
}

/// Files in memory. Of two with one name the first counts.
#[derive(Drop)]
pub struct MemFiles {
    files: SureFiles,
    plan: Plan,
}

impl MemFiles {
    /// `failing` lists the numbers of the loads that are to fail, counted from 1.
    pub fn new(files: Vec<(String, Vec<u8>)>, failing: Vec<u64>) -> MemFiles
        ensures told { ⟦<MemFiles as Files>⟧.told result ≡ Some (file_of files.items) }
        ensures faultless { ⟦<MemFiles as Files>⟧.faults result ≡ 0 }
    {
        MemFiles {
            files: SureFiles::new(files),
            plan: Plan::new(failing),
        }
    }
}

impl Files for MemFiles {
    ghost told = { λ memory. ⟦<SureFiles as Files>⟧.told memory.files };

    ghost faults = { λ memory. memory.plan.faults };

    fn load(
        &mut self,
        alloc: Global,
        name: &str,
        limit: u64,
        into: &mut Vec<u8>,
    ) -> Result<(), FileFault> {
        if self.plan.fails_next() {
            return Err(FileFault::Failed);
        }
        self.files.load(alloc, name, limit, into)
    }
}
