//! Copies of what the .aff file says.

ghost use Rattle.std.specs.Prelude.{◌≡◌, IfOk};

use mark_types::lists::{Copied, Items, NoMemory};
use mark_types::spell_types::{Affixes, Flag, FlagSet, Signs};
use std::alloc::Global;

/// A copy with this sign of forbidden words, if there is one.
pub fn copied_affixes(
    alloc: Global,
    affixes: &Affixes,
    forbidden: Option<Flag>,
) -> Result<Affixes, NoMemory>
    ensures { IfOk result (λ made. made
        ≡ record affixes.now { signs = record affixes.now.signs { forbidden = forbidden } }) }
{
    Ok(Affixes {
        kind: affixes.kind,
        aliases: copied_aliases(alloc, &affixes.aliases)?,
        rules: affixes.rules.copy(alloc)?,
        signs: Signs {
            forbidden,
            ..affixes.signs
        },
        options: affixes.options,
        ignore: affixes.ignore.copy(alloc)?,
        wordchars: affixes.wordchars.copy(alloc)?,
        iconv: affixes.iconv.copy(alloc)?,
        reps: affixes.reps.copy(alloc)?,
        breaks: affixes.breaks.copy(alloc)?,
        joints: affixes.joints.copy(alloc)?,
        patterns: affixes.patterns.copy(alloc)?,
    })
}

fn copied_aliases(
    alloc: Global,
    aliases: &Option<Items<FlagSet>>,
) -> Result<Option<Items<FlagSet>>, NoMemory>
    ensures { IfOk result (λ made. made ≡ aliases.now) }
{
    match aliases {
        None => Ok(None),
        Some(sets) => Ok(Some(sets.copy(alloc)?)),
    }
}
