//! Which lines are blank, and what a line is without the spaces at its ends.

ghost use Rattle.std.specs.Prelude.{◌≡◌, ◌+◌, ◌<◌, ◌≤◌, length, slice_index};
ghost use Rattle.std.specs.List.{prefix_len, suffix_len};
ghost use Rattle.personal_words.specs.Items.{is_blank_line, is_space, without_leading};
ghost use Rattle.personal_words.specs.Items.{without_trailing, trimmed};

/// Whether the line has nothing but spaces and tabs.
pub(crate) fn is_blank(line: &str) -> bool
    ensures { result ≡ is_blank_line line.now }
{
    line.as_bytes()
        .iter()
        .all(|byte| *byte == b' ' || *byte == b'\t')
}

/// The line without spaces at its ends.
#[tactic(auto, unfolding(crate::specs::Items::trimmed))]
pub(crate) fn trimmed(line: &str) -> &str
    ensures { result.now ≡ trimmed line.now }
{
    without_trailing(without_leading(line))
}

fn without_leading(text: &str) -> &str
    ensures { result.now ≡ without_leading text.now }
{
    &text[leading_spaces(text.as_bytes())..]
}

fn leading_spaces(text: &[u8]) -> usize
    ensures spaces { result ≡ prefix_len is_space text.now }
    ensures within { result ≤ length text.now }
{
    text.iter().take_while(|byte| **byte == b' ').count()
}

fn without_trailing(text: &str) -> &str
    ensures { result.now ≡ without_trailing text.now }
{
    &text[..end_of_text(text.as_bytes())]
}

/// Where the spaces at the end of a text begin.
fn end_of_text(text: &[u8]) -> usize
    ensures spaces { result + suffix_len is_space text.now ≡ length text.now }
    ensures begins { result < length text.now → slice_index text.now result ≡ 32 }
{
    let mut end = text.len();
    while end > 0 && text[end - 1] == b' ' {
        end -= 1;
    }
    end
}
