//! Reads a line of a script, by which sessions are told what to do.

ghost use Rattle.std.specs.Prelude.{◌≡◌, Some, None, MatchOption};
ghost use Rattle.console_lang.specs.Scripts.{session_of, session_text, script_of, said_as};
ghost use Rattle.console_lang.specs.Handed.{words_left_of_line};

use crate::words::{Words, is_blank, number};

/// How many digits the number of a session has at most.
const SESSION_DIGITS: usize = 2;

/// The greatest number of a session.
const MOST_SESSIONS: u32 = 16;

/// What a line of a script says.
#[derive(Clone, Copy, Debug)]
pub enum ScriptLine<'a> {
    /// Nothing but spaces and tabs.
    Blank,
    /// `K TEXT`: a text for a session, which counts from 1 to 16. Any text may stand there: whether
    /// it is a command is asked when the session comes to it.
    Of { session: u32, text: &'a str },
    /// Any other line.
    Bad,
}

/// What a line of a script says. A number of one or two ASCII digits stands first. The text is all
/// behind one space, which may be missing where the text is empty.
#[tactic(auto, unfolding(crate::specs::Scripts::script_of))]
pub fn script_line(line: &str) -> ScriptLine<'_>
    ensures { said_as result ≡ script_of line.now }
{
    if is_blank(line) {
        return ScriptLine::Blank;
    }
    match session_text(Words::of(line)) {
        Some((session, text)) => ScriptLine::Of { session, text },
        None => ScriptLine::Bad,
    }
}

/// `K TEXT`: a session and a text.
fn session_text(words: Words<'_>) -> Option<(u32, &str)>
    ensures { MatchOption result (session_text (words_left_of_line words.entry) ≡ None)
        (λ said. session_text (words_left_of_line words.entry) ≡ Some (said.0, said.1.now)) }
{
    let (word, words) = words.split_first()?;
    let session = session(word)?;
    Some((session, words.text()))
}

/// The session that a word names.
#[tactic(auto, unfolding(crate::specs::Scripts::session_of))]
fn session(word: &str) -> Option<u32>
    ensures { result ≡ session_of word.now }
{
    if word.len() > SESSION_DIGITS {
        return None;
    }
    match number(word) {
        Some(session) if 1 <= session && session <= MOST_SESSIONS => Some(session),
        _ => None,
    }
}
