//! The ways to break a piece.

/// A way to break a piece, by places of the piece from 0 on.
#[derive(Clone, Copy)]
pub enum Way {
    /// Into what stands before the first place and what stands from the second on.
    Between(usize, usize),
    /// Into what stands from the place on.
    Behind(usize),
    /// Into what stands before the place.
    Before(usize),
}
