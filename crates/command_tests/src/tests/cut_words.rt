//! WORDCHARS: the words that a paragraph is cut into.

use mark_types::Span;
use outside::lists::NoMemory;
use std::alloc::{AllocError, Global};
use std::test::Fail;
use word_cutter::cut;

const WORDCHARS: [char; 3] = ['0', '9', '-'];

/// Each row is a paragraph and its words, each by its first byte and the byte past its end, with a
/// comma behind it. By hand: letters, combining marks and `0`, `9` and `-` make words, and an
/// apostrophe between two of them. A word has a letter or a digit, so that a dash or a combining
/// mark alone is none, and `90` is one. `1` parts words. `\u{e9}` and the combining mark have two
/// bytes each, the other apostrophe three.
const PARAGRAPHS: &str = "a0b a9b a1b=0-3,4-7,8-9,10-11,
co-op -=0-5,
90 1=0-2,
don't 'x' don\u{2019}t=0-5,7-8,10-17,
\u{e9} b\u{301}=0-2,3-6,
\u{301}=
' - \u{2019}=
=";

/// Words by their bytes, each with a comma behind it.
fn told(alloc: Global, words: &[Span]) -> Result<String, AllocError> {
    let mut text = String::new(alloc);
    for word in words {
        let from = word.from;
        let to = word.to;
        write!(text, "{from}-{to},")?;
    }
    Ok(text)
}

/// The words of a paragraph of fewer than a hundred bytes.
fn words_told(alloc: Global, text: &str) -> Result<String, NoMemory> {
    if text.len() >= 100 {
        return Err(NoMemory);
    }
    let words = cut(alloc, text, &WORDCHARS)?;
    Ok(told(alloc, &words)?)
}

#[test]
fn paragraphs_are_cut_into_words(rt: HostRuntime) -> Result<(), Fail> {
    for row in PARAGRAPHS.split('\n') {
        let (text, want) = row.split_once('=').unwrap_or((row, "no row"));
        assert_eq!(rt; words_told(rt.alloc(), text)?.as_str(), want, "{text}");
    }
    Ok(())
}
