//! Pieces of an input between line feeds.

ghost use Rattle.std.specs.Prelude.{◌≡◌, ◌++◌, ◌∷◌, IfNone, IfSome};
ghost use Rattle.input_lines.specs.Answers.{HasNoBreak};
ghost use Rattle.input_lines.specs.Lines.{piece_text, unmarked};

use bstr::ByteSlice;
use text_lines::all_lines;

/// The bytes before the first line feed, if there is one, and those behind it.
pub fn split_line(bytes: &[u8]) -> Option<(&[u8], &[u8])>
    ensures none { IfNone result (HasNoBreak bytes.now) }
    ensures some { IfSome result (λ parts. bytes.now ≡ parts.0.now ++ 10 ∷ parts.1.now) }
    ensures whole { IfSome result (λ parts. HasNoBreak parts.0.now) }
{
    let end = bytes.find_byte(b'\n')?;
    Some((&bytes[..end], &bytes[end + 1..]))
}

/// The bytes of a piece between two line feeds without the byte order mark that may stand at the
/// start of an input.
pub fn unmarked(bytes: &[u8], is_first: bool) -> &[u8]
    ensures { result.now ≡ unmarked is_first bytes.now }
{
    if is_first {
        &bytes[all_lines(bytes).place..]
    } else {
        bytes
    }
}

/// The line that a piece between two line feeds is.
pub fn piece_text(bytes: &[u8], is_first: bool) -> &[u8]
    ensures { result.now ≡ piece_text is_first bytes.now }
{
    let bare = unmarked(bytes, is_first);
    bare.strip_suffix(b"\r").unwrap_or(bare)
}
