//! Words and marks of a text.
#![tactic(auto)]

ghost use Rattle.std.specs.Prelude.{◌≡◌, ℕ, List, [], ◌∷◌, map};
ghost use Rattle.std.specs.List.{AllByRecursion};
ghost use Rattle.spell_types.specs.declared.Lexicon.{Lexicon};
ghost use Rattle.mark_types.specs.Words.{words_of, StandsIn};
ghost use Rattle.mark_types.specs.Marks.{located_at, located_words, one_by_one, marks_of};

mod judges;

pub use judges::{Asker, Judge};
pub use spell_types;
use std::alloc::Global;
pub use text_lines;
use text_lines::Text;
pub use text_lines::lists;
use text_lines::lists::{Copied, Items, NoMemory};

/// Where a word stands in its paragraph: its first byte and the byte past its end, from 0.
#[derive(Clone, Copy, Debug, PartialEq, Eq)]
pub struct Span {
    pub from: u32,
    pub to: u32,
}

/// A word that the dictionary does not generate, with its bytes in its paragraph: the first one and
/// the one past its end, from 0.
#[derive(Debug, Drop)]
pub struct Mark {
    pub from: u32,
    pub to: u32,
    pub word: Text,
}

/// The marks of a paragraph, in the order of its words.
pub type Marks = Items<Mark>;

impl Copied for Mark {
    fn copy(&self, alloc: Global) -> Result<Mark, NoMemory> {
        Ok(Mark {
            from: self.from,
            to: self.to,
            word: self.word.copy(alloc)?,
        })
    }
}

/// The marks of a text are those of its paragraphs one by one, and so are its words. In a paragraph
/// that stands alone a word is where it is in the paragraph's text.
pub fn marks_are_local()
    ensures words { (wordchars : List ℕ) (paragraphs : List (List ℕ)) →
        located_words wordchars paragraphs ≡ one_by_one
        (λ paragraph. located_words wordchars (paragraph ∷ [])) paragraphs }
    ensures marks { (lexicon : Lexicon) (paragraphs : List (List ℕ)) →
        marks_of lexicon paragraphs ≡ one_by_one (λ paragraph. marks_of lexicon (paragraph ∷ []))
        paragraphs }
    ensures alone { (wordchars paragraph : List ℕ) →
        located_words wordchars (paragraph ∷ []) ≡ map (λ word. located_at 1 word.from word)
        (words_of wordchars paragraph) }
{}

/// Each word of a text stands in it where it says.
pub fn words_stand_in_their_text()
    ensures { (wordchars text : List ℕ) → AllByRecursion (StandsIn text) (words_of wordchars text) }
{}
