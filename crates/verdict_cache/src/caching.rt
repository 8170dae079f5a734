//! A judge that is shared, beside the last words that it was asked for.

ghost use Rattle.std.specs.Prelude.{◌≡◌, ◌<◌, ◌≤◌, IfOk, IfSome};
ghost use Rattle.std.specs.Arc.{arc_value};
ghost use Rattle.mark_types.specs.spell_types.declared.Lexicon.{Lexicon};
ghost use Rattle.mark_types.specs.spell_types.Yields.{yields};
ghost use Rattle.verdict_cache.specs.Verdicts.{AreVerdicts};

use lru::LruCache;
use mark_types::lists::NoMemory;
use mark_types::{Asker, Judge};
use std::alloc::Global;
use std::marker::Model;
use std::num::NonZeroUsize;
use std::sync::Arc;

/// The last words that a judge was asked for, each with its verdict.
type Verdicts = LruCache<Vec<char>, bool>;

/// Asks a shared judge, and remembers its last verdicts. Contracts see it as the judge.
#[derive(Drop)]
pub struct Cached<J: Judge> {
    judge: Arc<J>,
    verdicts: Verdicts,
}

impl<J: Judge> Model for Cached<J> {
    ghost use Rattle.std.specs.Arc.{arc_value};
    ghost use Rattle.verdict_cache.specs.Verdicts.{AreVerdicts};

    ghost Value = { J };

    ghost view = { λ inside. arc_value inside.judge };

    ghost invariant = { λ inside.
        AreVerdicts (J.lexicon (arc_value inside.judge)) inside.verdicts.entries };
}

impl<J: Judge + Drop> Cached<J> {
    /// Asks this judge, and remembers so many words. It takes memory for a word when it remembers
    /// it.
    pub fn new(alloc: Global, judge: Arc<J>, capacity: usize) -> Result<Cached<J>, NoMemory>
        requires { (0 < capacity) × (capacity ≤ 65536) }
        ensures { IfOk result (λ cached. cached ≡ arc_value judge) }
    {
        let Some(places) = NonZeroUsize::new(capacity) else {
            unreachable!()
        };
        Ok(Cached {
            judge,
            verdicts: LruCache::sparse(alloc, places)?,
        })
    }
}

impl<J: Judge> Asker for Cached<J> {
    ghost lexicon = { λ judge. J.lexicon judge };

    /// A verdict that is remembered takes no memory. One for which there is no memory is given, and
    /// not remembered.
    fn verdict(&mut self, alloc: Global, written: &[char]) -> Result<bool, NoMemory> {
        if let Some(answer) = recall(&mut self.verdicts, written) {
            return Ok(answer);
        }
        let answer = self.judge.verdict(alloc, written)?;
        let _unless_wanting = remember(alloc, &mut self.verdicts, written, answer);
        Ok(answer)
    }

    fn wordchars(&self) -> &[char] {
        self.judge.wordchars()
    }
}

/// The verdict of a word, if it is remembered. The word is then the last one that was asked for.
fn recall(verdicts: &mut Verdicts, written: &[char]) -> Option<bool>
    ensures answer { (lexicon : Lexicon) → AreVerdicts lexicon verdicts.old.entries
        → IfSome result (λ answer. answer ≡ yields lexicon written.now) }
    ensures kept { (lexicon : Lexicon) → AreVerdicts lexicon verdicts.old.entries
        → AreVerdicts lexicon verdicts.new.entries }
{
    verdicts.get(written).copied()
}

/// Remembers a verdict in place of the one that was asked for least recently.
fn remember(
    alloc: Global,
    verdicts: &mut Verdicts,
    written: &[char],
    answer: bool,
) -> Result<(), NoMemory>
    ensures { (lexicon : Lexicon) → answer ≡ yields lexicon written.now
        → AreVerdicts lexicon verdicts.old.entries → AreVerdicts lexicon verdicts.new.entries }
{
    let word = Vec::from_slice(alloc, written)?;
    verdicts.put(word, answer)?;
    Ok(())
}
