//! The tables of a dictionary, made at once by several threads. The thread that starts them waits, since
//! the system may put the first one on its processor, also where another one is idle.

ghost use Rattle.std.specs.Prelude.{◌≡◌, ◌^◌, ◌<◌, length, IfOk};
ghost use Rattle.entry_table.specs.EntryTable.{HasEntries, HasHalf};
ghost use Rattle.affix_strip.specs.Tables.{AreTablesOf};
ghost use Rattle.entry_table.specs.declared.table.EntryTable.{EntryTable};

use crate::walk::Tables;
use entry_table::Half;
use spell_types::Lexicon;
use spell_types::lists::NoMemory;
use std::alloc::Global;
use std::thread::{Threads, join};

/// All tables of a dictionary. That of its entries, which takes longest, is made in two halves.
pub(crate) fn tables_at_once<R: Threads + Sync>(
    rt: &R,
    alloc: Global,
    lexicon: &Lexicon,
) -> (
    Result<Half, NoMemory>,
    Result<Half, NoMemory>,
    Result<Tables, NoMemory>,
)
    requires rules { length lexicon.now.affixes.rules < 2 ^ 32 }
    requires entries { length lexicon.now.entries < 2 ^ 32 }
    ensures even { IfOk result.0 (HasHalf 0 lexicon.now.entries) }
    ensures odd { IfOk result.1 (HasHalf 1 lexicon.now.entries) }
    ensures tables { IfOk result.2 (λ made. (by_word : EntryTable)
        → HasEntries lexicon.now.entries by_word → AreTablesOf lexicon.now made by_word) }
{
    let (even, (odd, tables)) = join(
        rt,
        || -> Result<Half, NoMemory>
            requires { length lexicon.now.entries < 2 ^ 32 }
            ensures { IfOk result (HasHalf 0 lexicon.entry.now.entries) }
        { Half::new(alloc, &lexicon.entries, 0) },
        || -> (Result<Half, NoMemory>, Result<Tables, NoMemory>)
            requires rules { length lexicon.now.affixes.rules < 2 ^ 32 }
            requires entries { length lexicon.now.entries < 2 ^ 32 }
            ensures odd { IfOk result.0 (HasHalf 1 lexicon.entry.now.entries) }
            ensures tables { IfOk result.1 (λ made. (by_word : EntryTable)
                → HasEntries lexicon.entry.now.entries by_word
                → AreTablesOf lexicon.entry.now made by_word) }
        { odd_and_tables(rt, alloc, lexicon) },
    );
    (even, odd, tables)
}

/// The half of the entries for odd hashes, and the other tables.
fn odd_and_tables<R: Threads>(
    rt: &R,
    alloc: Global,
    lexicon: &Lexicon,
) -> (Result<Half, NoMemory>, Result<Tables, NoMemory>)
    requires rules { length lexicon.now.affixes.rules < 2 ^ 32 }
    requires entries { length lexicon.now.entries < 2 ^ 32 }
    ensures odd { IfOk result.0 (HasHalf 1 lexicon.now.entries) }
    ensures tables { IfOk result.1 (λ made. (by_word : EntryTable)
        → HasEntries lexicon.now.entries by_word → AreTablesOf lexicon.now made by_word) }
{
    join(
        rt,
        || -> Result<Half, NoMemory>
            requires { length lexicon.now.entries < 2 ^ 32 }
            ensures { IfOk result (HasHalf 1 lexicon.entry.now.entries) }
        { Half::new(alloc, &lexicon.entries, 1) },
        || -> Result<Tables, NoMemory>
            requires { length lexicon.now.affixes.rules < 2 ^ 32 }
            ensures { IfOk result (λ made. (by_word : EntryTable)
                → HasEntries lexicon.entry.now.entries by_word
                → AreTablesOf lexicon.entry.now made by_word) }
        { tables_alone(rt, alloc, lexicon) },
    )
}

/// The other tables, made in a thread while this one waits.
fn tables_alone<R: Threads>(rt: &R, alloc: Global, lexicon: &Lexicon) -> Result<Tables, NoMemory>
    requires { length lexicon.now.affixes.rules < 2 ^ 32 }
    ensures { IfOk result (λ made. (by_word : EntryTable)
        → HasEntries lexicon.now.entries by_word → AreTablesOf lexicon.now made by_word) }
{
    let (tables, ()) = join(
        rt,
        || -> Result<Tables, NoMemory>
            requires { length lexicon.now.affixes.rules < 2 ^ 32 }
            ensures { IfOk result (λ made. (by_word : EntryTable)
                → HasEntries lexicon.entry.now.entries by_word
                → AreTablesOf lexicon.entry.now made by_word) }
        { Tables::new(alloc, lexicon) },
        || {},
    );
    tables
}
