//! The text of a file that is UTF-8, whose bytes are looked at once for that, and its lines.

ghost use Rattle.std.specs.Prelude.{◌≡◌, ◌∷◌, ◌<◌, ◌≤◌, None, Some, IfOk, IfErr, drop, length};
ghost use Rattle.std.specs.Str.Lines.{strip_carriage_return};
ghost use Rattle.text_lines.specs.Lines.{bad_line, first_place, line_texts};
ghost use Rattle.text_lines.specs.Texts.{texts_in};

use crate::bad_line;
use bstr::ByteSlice;

/// The text of a file, behind a byte order mark; or the number, from 1, of its first line that is
/// not UTF-8.
pub fn text_of_file(bytes: &[u8]) -> Result<&str, u64>
    ensures good { IfOk result (λ _. bad_line bytes.now ≡ None) }
    ensures lines { IfOk result (λ text. texts_in text.now ≡ line_texts bytes.now) }
    ensures bad { IfErr result (λ line. bad_line bytes.now ≡ Some line) }
{
    match std::str::from_utf8(without_mark(bytes)) {
        Ok(text) => Ok(text),
        // Line feeds are UTF-8, so a line is not.
        Err(_) => Err(bad_line(bytes).unwrap()),
    }
}

/// The bytes of a file without the byte order mark at its start, if it has one.
fn without_mark(bytes: &[u8]) -> &[u8]
    ensures { result.now ≡ drop (first_place bytes.now) bytes.now }
{
    bytes.strip_prefix(b"\xef\xbb\xbf").unwrap_or(bytes)
}

/// The first line of a text that has one, and the text behind it.
pub fn first_line(text: &str) -> (&str, &str)
    requires { 0 < length text.now }
    ensures first { texts_in text.now ≡ result.0.now ∷ texts_in result.1.now }
    ensures shorter { length result.1.now < length text.now }
{
    match text.as_bytes().find_byte(b'\n') {
        Some(end) => (without_return(&text[..end]), &text[end + 1..]),
        None => (without_return(text), ""),
    }
}

/// A line without the carriage return at its end, if it has one.
fn without_return(line: &str) -> &str
    ensures { result.now ≡ strip_carriage_return line.now }
{
    line.strip_suffix('\r').unwrap_or(line)
}
