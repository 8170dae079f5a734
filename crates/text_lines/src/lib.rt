//! Texts of files: their lines, the fields of a line, decimals, and a text of its own.
//!
//! A byte order mark at the start of a file is dropped. A line ends at a line feed or at the end of
//! the file; a last piece without bytes is no line. One carriage return right before that end is
//! dropped. A field is a longest run of characters other than space and tab.
#![tactic(auto)]

ghost use Rattle.std.specs.Prelude.{◌≡◌, ◌+◌, ◌≤◌, ◌<◌, All, IfNone, IfOk, IfSome, OnOk, IsTrue};
ghost use Rattle.std.specs.Prelude.{length, drop, map, slice_get, slice_range};
ghost use Rattle.std.specs.List.{position_or_len, range_with_len};
ghost use Rattle.std.specs.Option.{option_copied};
ghost use Rattle.text_lines.specs.Fields.{fields, decimal_of};
ghost use Rattle.text_lines.specs.Lines.{first_place, is_line_feed, line_at, is_text, good_lines};
ghost use Rattle.text_lines.specs.Lines.{bad_line, good_ahead, bad_ahead, good_from, number_here};
ghost use Rattle.text_lines.specs.Lines.{text_of, IsInside, ComesNext};

use crate::found::{Ahead, Line, Lines};
use bstr::ByteSlice;
pub use lists;
use lists::{Items, NoMemory};
use std::alloc::Global;

pub mod found;
mod owned;
mod texts;

pub use owned::Text;
pub use texts::{first_line, text_of_file};

/// The lines of a file, up to the first that is not UTF-8. Where memory is wanting, nothing is said
/// of the file.
pub fn lines(alloc: Global, bytes: &[u8]) -> Result<Lines, NoMemory>
    ensures good { IfOk result (λ found. found.good ≡ good_lines bytes.now) }
    ensures bad { IfOk result (λ found. found.bad ≡ bad_line bytes.now) }
    ensures numbered { IfOk result
        (λ found. map (λ line. line.number) found.good ≡ range_with_len 1 (length found.good)) }
    ensures few { IfOk result (λ found. length found.good ≤ length bytes.now) }

    // So that `line_text` may be called with each of them.
    ensures inside { IfOk result (λ found. All (IsInside bytes.now) found.good) }
{
    let mut good = Items::new(alloc);
    let mut ahead = all_lines(bytes);
    while let Some((line, next)) = next_line(bytes, ahead) {
        good.push(line)?;
        ahead = next;
    }
    Ok(Lines {
        good,
        bad: number_here(bytes, ahead),
    })
}

/// The number of the first line that is not UTF-8. It takes no memory.
pub fn bad_line(bytes: &[u8]) -> Option<u64>
    ensures { result ≡ bad_line bytes.now }
{
    let mut ahead = all_lines(bytes);
    while let Some((_, next)) = next_line(bytes, ahead) {
        ahead = next;
    }
    number_here(bytes, ahead)
}

/// All lines of a file.
pub fn all_lines(bytes: &[u8]) -> Ahead
    ensures lines { (result.number ≡ 1) × (result.place ≡ first_place bytes.now) }
    ensures within { result.place ≤ length bytes.now }
{
    Ahead {
        number: 1,
        place: start_of(bytes),
    }
}

/// The first of these lines, unless it is not UTF-8, and the lines behind it.
pub fn next_line(bytes: &[u8], ahead: Ahead) -> Option<(Line, Ahead)>
    requires { ahead.number ≤ ahead.place + 1 }
    ensures good { good_from bytes.now result ≡ good_ahead bytes.now ahead }
    ensures next { IfSome result (ComesNext bytes.now ahead) }
    ensures none { IfNone result (bad_ahead bytes.now ahead ≡ number_here bytes.now ahead) }
{
    let Ahead { number, place } = ahead;
    if place >= bytes.len() {
        return None;
    }
    let end = end_of(bytes, place);
    let line = line_between(bytes, number, place, end);
    if !has_text(bytes, &line) {
        return None;
    }
    let next = Ahead {
        number: number + 1,
        place: end + 1,
    };
    Some((line, next))
}

/// The number of the first of these lines, if there is one.
fn number_here(bytes: &[u8], ahead: Ahead) -> Option<u64>
    ensures { result ≡ number_here bytes.now ahead }
{
    if ahead.place < bytes.len() {
        Some(ahead.number)
    } else {
        None
    }
}

/// The text of a line that was found in these bytes.
pub fn line_text<'a>(bytes: &'a [u8], line: &Line) -> &'a str
    requires { IsInside bytes.now line.now }
    ensures { result.now ≡ text_of bytes.now line.now }
{
    // The line was found for being UTF-8, so nothing is refused here.
    std::str::from_utf8(&bytes[line.from..line.to]).unwrap()
}

/// The field at a place, from 0. Only a space and a tab part fields.
pub fn field(text: &str, k: usize) -> Option<&str>
    ensures { option_copied result ≡ slice_get (fields text.now) k }
{
    text.split([' ', '\t'])
        .filter(|piece| !piece.is_empty())
        .nth(k)
}

/// The number that a text of ASCII digits writes, where it is below 2^64. A sign is no digit.
pub fn decimal(text: &str) -> Option<u64>
    ensures { result ≡ decimal_of text.now }
{
    if text.starts_with('+') {
        return None;
    }
    text.parse().ok()
}

/// Where the first line begins.
fn start_of(bytes: &[u8]) -> usize
    ensures place { result ≡ first_place bytes.now }
    ensures within { result ≤ length bytes.now }
{
    if bytes.starts_with(b"\xef\xbb\xbf") {
        3
    } else {
        0
    }
}

/// The place of the first line feed from `place` on, or the end of the bytes.
fn end_of(bytes: &[u8], place: usize) -> usize
    requires { place ≤ length bytes.now }
    ensures end { result ≡ place + position_or_len is_line_feed (drop place bytes.now) }
    ensures within { result ≤ length bytes.now }
{
    let rest = &bytes[place..];
    place + rest.find_byte(b'\n').unwrap_or(rest.len())
}

/// The line of the piece from `place` up to `end`.
fn line_between(bytes: &[u8], number: u64, place: usize, end: usize) -> Line
    requires ordered { place ≤ end }
    requires within { end ≤ length bytes.now }
    ensures line { result ≡ line_at number place (slice_range bytes.now place end) }
    ensures ordered { result.from ≤ result.to }
    ensures within { result.to ≤ end }
{
    let piece = &bytes[place..end];
    let text = piece.strip_suffix(b"\r").unwrap_or(piece);
    Line {
        number,
        from: place,
        to: place + text.len(),
    }
}

/// Whether the bytes of a line are UTF-8.
fn has_text(bytes: &[u8], line: &Line) -> bool
    requires ordered { line.now.from ≤ line.now.to }
    requires within { line.now.to ≤ length bytes.now }
    ensures { result ≡ is_text bytes.now line.now }
{
    std::str::from_utf8(&bytes[line.from..line.to]).is_ok()
}
