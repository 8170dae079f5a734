//! Patterns that are prepared once for all words.

ghost use Rattle.std.specs.Prelude.{◌≡◌, map, IfOk};
ghost use Rattle.break_points.specs.Patterns.{anchored_of, BreakAlike};

use spell_types::Anchored;
use spell_types::lists::NoMemory;
use std::alloc::Global;
use std::marker::Model;

/// A pattern: its text, and whether it is anchored at the front and at the back.
pub(crate) type BreakPattern = (Vec<char>, (bool, bool));

/// The patterns by which a dictionary breaks words, ready to be looked for in words. Contracts see
/// them as a list, which breaks words as that which they were made of.
#[derive(Drop)]
pub struct Breaks {
    /// In the order of their texts; none stands there twice.
    pub(crate) patterns: Vec<BreakPattern>,
}

impl Model for Breaks {
    ghost use Rattle.std.specs.Prelude.{List, map};
    ghost use Rattle.spell_types.specs.declared.breaks.Anchored.{Anchored};
    ghost use Rattle.text_order.specs.TextOrder.{AreInOrder};
    ghost use Rattle.break_points.specs.Patterns.{anchored_of};

    ghost Value = { List Anchored };

    ghost view = { λ inside. map anchored_of inside.patterns.items };

    ghost invariant = { λ inside. AreInOrder inside.patterns.items };
}

impl Breaks {
    /// The patterns, of which each is kept once.
    pub fn new(alloc: Global, breaks: &[Anchored]) -> Result<Breaks, NoMemory>
        ensures { IfOk result (λ made. BreakAlike made breaks.now) }
    {
        let mut patterns = copies_of(alloc, breaks)?;
        patterns.sort_unstable();
        patterns.dedup();
        Ok(Breaks { patterns })
    }
}

/// The patterns as they are prepared, one after another.
fn copies_of(alloc: Global, breaks: &[Anchored]) -> Result<Vec<BreakPattern>, NoMemory>
    ensures { IfOk result (λ patterns. map anchored_of patterns.items ≡ breaks.now) }
{
    let mut patterns = Vec::with_capacity(alloc, breaks.len())?;
    for pattern in breaks {
        let text = pattern.text.as_slice().to_vec(alloc)?;
        patterns.push((text, (pattern.front, pattern.back)))?;
    }
    Ok(patterns)
}
