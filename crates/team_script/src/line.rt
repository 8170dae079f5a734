//! A line of a session.

use text_lines::Text;

/// A line of a session: its number, from 1 to 16, and the text that it is given. The text may be
/// empty, and has no line feed.
#[derive(Debug, Drop)]
pub struct SessionLine {
    pub session: u32,
    pub text: Text,
}
