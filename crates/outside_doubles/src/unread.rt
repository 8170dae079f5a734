//! The bytes that a source in memory has still to give.
ghost use Rattle.std.specs.Prelude.{◌≡◌, ℕ, ◌<◌, ◌≤◌, ◌↔◌, List, [], ◌++◌, drop, length, take};
ghost use Rattle.std.specs.Prelude.{vec_len};

use std::marker::Model;

/// Bytes that are given from the front. Contracts see those that are left.
#[derive(Drop)]
pub(crate) struct Unread {
    bytes: Vec<u8>,
    place: usize,
}

impl Model for Unread {
    ghost Value = { List ℕ };

    ghost view = { λ inside. drop inside.place inside.bytes.items };

    ghost invariant = { λ inside. inside.place ≤ vec_len inside.bytes };
}

impl Unread {
    pub(crate) fn new(bytes: Vec<u8>) -> Unread
        ensures { result ≡ bytes.items }
    {
        Unread { bytes, place: 0 }
    }

    /// Moves the next bytes, at most `most`, to the front of `into`, and answers how many: 0 is the
    /// end.
    pub(crate) fn give(&mut self, most: usize, into: &mut [u8]) -> usize
        requires most { 1 ≤ most }
        requires room { 0 < length into.old }
        ensures most { result ≤ most }
        ensures bounded { result ≤ length into.new }
        ensures taken { self.old ≡ take result into.new ++ self.new }
        ensures end { (result ≡ 0) ↔ (self.old ≡ []) }
    {
        let rest = &self.bytes[self.place..];
        let count = most.min(into.len()).min(rest.len());
        into[..count].copy_from_slice(&rest[..count]);
        self.place += count;
        count
    }
}
