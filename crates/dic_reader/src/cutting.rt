//! Which lines have an entry, and where in its line an entry stands.

ghost use Rattle.std.specs.Prelude.{◌≡◌, ◌+◌, ◌<◌, ◌≤◌, length, drop, slice_index};
ghost use Rattle.std.specs.List.{prefix_len, suffix_len, list_all};
ghost use Rattle.dic_reader.specs.Entries.{is_space, is_blank, begins_field, ends_entry};
ghost use Rattle.dic_reader.specs.Entries.{before_fields, without_leading, without_trailing};
ghost use Rattle.dic_reader.specs.Entries.{entry_of_line, begins_with_tab, begins_with_digit};
ghost use Rattle.dic_reader.specs.Entries.{is_passed_over, is_count};

/// Whether the line begins, behind spaces, with a digit.
#[tactic(auto, unfolding(crate::specs::Entries::is_count))]
pub(crate) fn is_count(line: &str) -> bool
    ensures { result ≡ is_count line.now }
{
    begins_with_digit(without_leading(line).as_bytes())
}

/// Whether the line has no entry: it begins with a tab or is blank.
pub(crate) fn is_passed_over(line: &str) -> bool
    ensures { result ≡ is_passed_over line.now }
{
    let bytes = line.as_bytes();
    begins_with_tab(bytes) || is_blank(bytes)
}

/// The entry of a line, without spaces at its ends.
#[tactic(auto, unfolding(crate::specs::Entries::entry_of_line))]
pub(crate) fn entry_of(line: &str) -> &str
    ensures { result.now ≡ entry_of_line line.now }
{
    without_trailing(without_leading(before_fields(line)))
}

fn begins_with_digit(line: &[u8]) -> bool
    ensures { result ≡ begins_with_digit line.now }
{
    match line {
        [first, ..] => first.is_ascii_digit(),
        [] => false,
    }
}

fn begins_with_tab(line: &[u8]) -> bool
    ensures { result ≡ begins_with_tab line.now }
{
    matches!(line, [b'\t', ..])
}

fn is_blank(line: &[u8]) -> bool
    ensures { result ≡ list_all is_blank line.now }
{
    line.iter().all(|byte| *byte == b' ' || *byte == b'\t')
}

/// The line up to the tab or to the field of morphology that ends its entry.
fn before_fields(line: &str) -> &str
    ensures { result.now ≡ before_fields line.now }
{
    let bytes = line.as_bytes();
    for place in 0..bytes.len() {
        if ends_at(bytes, place) {
            return &line[..place];
        }
    }
    line
}

/// Whether the entry of a line ends at a place. Most bytes are higher than those that may end one.
fn ends_at(line: &[u8], place: usize) -> bool
    requires { place < length line.now }
    ensures { result ≡ ends_entry (drop place line.now) }
{
    line[place] <= b' ' && ends_entry(&line[place..])
}

fn ends_entry(rest: &[u8]) -> bool
    ensures { result ≡ ends_entry rest.now }
{
    match rest {
        [b'\t', ..] => true,
        [b' ', field @ ..] => begins_field(field),
        _ => false,
    }
}

/// Whether a field of morphology begins so, as `po:noun`.
fn begins_field(text: &[u8]) -> bool
    ensures { result ≡ begins_field text.now }
{
    match text {
        [first, second, b':', ..] => first.is_ascii_lowercase() && second.is_ascii_lowercase(),
        _ => false,
    }
}

fn without_leading(text: &str) -> &str
    ensures { result.now ≡ without_leading text.now }
{
    &text[leading_spaces(text.as_bytes())..]
}

fn leading_spaces(text: &[u8]) -> usize
    ensures spaces { result ≡ prefix_len is_space text.now }
    ensures within { result ≤ length text.now }
{
    text.iter().take_while(|byte| **byte == b' ').count()
}

fn without_trailing(text: &str) -> &str
    ensures { result.now ≡ without_trailing text.now }
{
    &text[..end_of_text(text.as_bytes())]
}

/// Where the spaces at the end of a text begin.
fn end_of_text(text: &[u8]) -> usize
    ensures spaces { result + suffix_len is_space text.now ≡ length text.now }
    ensures begins { result < length text.now → slice_index text.now result ≡ 32 }
{
    let mut end = text.len();
    while end > 0 && text[end - 1] == b' ' {
        end -= 1;
    }
    end
}
