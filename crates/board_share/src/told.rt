//! What is told of an event that was published.

/// Where the history stands behind an event.
#[derive(Clone, Copy, Debug, PartialEq, Eq)]
pub struct Told {
    /// How many events it has, this one among them.
    pub point: u64,
    /// The version of the text.
    pub text: u64,
    /// The version of the dictionary.
    pub dict: u64,
    /// The id of the paragraph that the event put in.
    pub made: Option<u64>,
}
