//! A source and a sink in memory that never fail. They tell their bytes.
ghost use Rattle.std.specs.Prelude.{◌≡◌, [], Some, IfSome};

use crate::kept::KeptBytes;
use crate::unread::Unread;
use outside::{Failed, Sink, Source};
use std::alloc::Global;

/// A source in memory.
#[derive(Drop)]
pub struct SureSource {
    unread: Unread,
}

impl SureSource {
    /// A source of these bytes.
    pub fn new(bytes: Vec<u8>) -> SureSource
        ensures { ⟦<SureSource as Source>⟧.left result ≡ Some bytes.items }
    {
        SureSource {
            unread: Unread::new(bytes),
        }
    }
}

impl Source for SureSource {
    ghost left = { λ source. Some source.unread };

    ghost faults = { λ _. 0 };

    fn read(&mut self, into: &mut [u8]) -> Result<usize, Failed> {
        Ok(self.unread.give(into.len(), into))
    }
}

/// A sink in memory. A put that finds no memory for its piece takes nothing and answers Ok; from
/// then on the sink tells nothing.
#[derive(Drop)]
pub struct SureSink {
    kept: KeptBytes,
}

impl SureSink {
    /// An empty sink.
    pub fn new(alloc: Global) -> SureSink
        ensures { ⟦<SureSink as Sink>⟧.written result ≡ Some [] }
    {
        SureSink {
            kept: KeptBytes::new(alloc),
        }
    }

    /// What was written, as far as there was memory for it.
    pub fn written(&self) -> &[u8]
        ensures { IfSome (⟦<SureSink as Sink>⟧.written self.now) (λ bytes. result.now ≡ bytes) }
    {
        self.kept.as_slice()
    }
}

impl Sink for SureSink {
    ghost written = { λ sink. sink.kept };

    ghost faults = { λ _. 0 };

    fn put(&mut self, bytes: &[u8]) -> Result<(), Failed> {
        self.kept.append(bytes);
        Ok(())
    }
}
