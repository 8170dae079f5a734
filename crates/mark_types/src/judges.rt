//! Who says whether a dictionary generates a word.

ghost use Rattle.std.specs.Prelude.{◌≡◌, IfOk};
ghost use Rattle.spell_types.specs.declared.Lexicon.{Lexicon};
ghost use Rattle.spell_types.specs.Yields.{yields};

use std::alloc::Global;
use text_lines::lists::NoMemory;

/// What answers by a dictionary that no call changes.
pub trait Judge {
    /// The dictionary that it answers by.
    ghost lexicon: { Self → Lexicon };

    /// Whether the dictionary generates a word, which is given as it is written.
    fn verdict(&self, alloc: Global, written: &[char]) -> Result<bool, NoMemory>
        ensures { IfOk result (λ answer. answer ≡ yields (lexicon self.now) written.now) };

    /// The characters that are word characters beside letters and marks: the option WORDCHARS of
    /// hunspell(5).
    fn wordchars(&self) -> &[char]
        ensures { result.now ≡ (lexicon self.now).affixes.wordchars };
}

/// What answers by a dictionary that no call changes, and may remember what it answered.
pub trait Asker {
    /// The dictionary that it answers by.
    ghost lexicon: { Self → Lexicon };

    /// Whether the dictionary generates a word, which is given as it is written.
    fn verdict(&mut self, alloc: Global, written: &[char]) -> Result<bool, NoMemory>
        ensures answer { IfOk result (λ answer. answer ≡ yields (lexicon self.old) written.now) }
        ensures same { lexicon self.new ≡ lexicon self.old };

    /// The characters that are word characters beside letters and marks: the option WORDCHARS of
    /// hunspell(5).
    fn wordchars(&self) -> &[char]
        ensures { result.now ≡ (lexicon self.now).affixes.wordchars };
}
