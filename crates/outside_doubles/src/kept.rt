//! The bytes that a sink in memory keeps.
ghost use Rattle.std.specs.Prelude.{◌≡◌, ℕ, List, [], Option, Some, None, IfSome};
ghost use Rattle.std.specs.Bool.{OnTrue, OnFalse};
ghost use Rattle.outside_doubles.specs.Keeping.{kept_while};
ghost use Rattle.outside.specs.Sink.{Appends};

use std::alloc::Global;
use std::marker::Model;

/// Bytes that pieces were added to. Contracts see them until memory for a piece was wanting.
#[derive(Drop)]
pub(crate) struct KeptBytes {
    bytes: Vec<u8>,
    is_whole: bool,
}

impl Model for KeptBytes {
    ghost Value = { Option (List ℕ) };

    ghost view = { λ inside. kept_while inside.is_whole inside.bytes.items };
}

impl KeptBytes {
    pub(crate) fn new(alloc: Global) -> KeptBytes
        ensures { result ≡ Some [] }
    {
        KeptBytes {
            bytes: Vec::new(alloc),
            is_whole: true,
        }
    }

    /// Adds the whole piece; or nothing, where memory for it is wanting, and answers false.
    pub(crate) fn append(&mut self, piece: &[u8]) -> bool
        ensures added { OnTrue result (Appends self.old self.new piece.now) }
        ensures wanting { OnFalse result (self.new ≡ None) }
    {
        if self.bytes.extend_from_slice(piece).is_ok() {
            return true;
        }
        self.is_whole = false;
        false
    }

    pub(crate) fn as_slice(&self) -> &[u8]
        ensures { IfSome self.now (λ bytes. result.now ≡ bytes) }
    {
        self.bytes.as_slice()
    }
}
