//! The judge of a dictionary without words.

ghost use Rattle.std.specs.Char.{is_ascii_digit};
ghost use Rattle.std.specs.List.{list_all};
ghost use Rattle.std.specs.Prelude.{◌≡◌};
ghost use Rattle.mark_types.specs.spell_types.Numbers.{is_separator, is_group, is_number};

use mark_types::Judge;
use mark_types::lists::NoMemory;
use std::alloc::Global;
use std::sync::atomic::{AtomicBool, AtomicU32, Ordering};
use std::thread;

/// How often a thread looks whether another one has come so far.
const MOST_TURNS: u32 = 100_000_000;

/// The judge of a dictionary without words, which generates numbers alone. It counts how often it is
/// asked, and can be held before it answers.
#[derive(Drop)]
pub struct Numbers {
    asked: AtomicU32,
    is_held: AtomicBool,
}

impl Numbers {
    pub fn new() -> Numbers {
        Numbers {
            asked: AtomicU32::new(0),
            is_held: AtomicBool::new(false),
        }
    }

    /// How often it was asked.
    pub fn asked(&self) -> u32 {
        self.asked.load(Ordering::SeqCst)
    }

    /// Lets it wait before its answers, or go on.
    pub fn hold(&self, is_held: bool) {
        self.is_held.store(is_held, Ordering::SeqCst);
    }

    /// Waits until it is asked, and tells whether it was.
    pub fn is_asked_in_time(&self) -> bool {
        for _ in 0..MOST_TURNS {
            if self.asked() > 0 {
                return true;
            }
            thread::yield_now();
        }
        false
    }

    /// Waits until it is no longer held.
    fn wait(&self) {
        for _ in 0..MOST_TURNS {
            if !self.is_held.load(Ordering::SeqCst) {
                return;
            }
            thread::yield_now();
        }
    }
}

impl Judge for Numbers {
    ghost use Rattle.mark_types.specs.spell_types.Blank.{blank_lexicon};

    ghost lexicon = { λ _. blank_lexicon };

    #[tactic(auto, using(crate::proofs::NoWords::yields_numbers))]
    fn verdict(&self, _alloc: Global, written: &[char]) -> Result<bool, NoMemory> {
        self.asked.fetch_add(1, Ordering::SeqCst);
        self.wait();
        Ok(written.is_empty() || is_number(written))
    }

    fn wordchars(&self) -> &[char] {
        &[]
    }
}

/// Whether what stands between separators are groups of digits.
fn is_number(word: &[char]) -> bool
    ensures { result ≡ is_number word.now }
{
    word.split(|c| is_separator(*c)).all(|text| is_group(text))
}

fn is_separator(c: char) -> bool
    ensures { result ≡ is_separator c }
{
    c == '.' || c == ',' || c == '-'
}

/// Whether a text is one digit or more.
fn is_group(text: &[char]) -> bool
    ensures { result ≡ is_group text.now }
{
    !text.is_empty() && are_digits(text)
}

fn are_digits(text: &[char]) -> bool
    ensures { result ≡ list_all is_ascii_digit text.now }
{
    text.iter().all(|c| c.is_ascii_digit())
}
