//! What the bytes of files say.

ghost use Rattle.std.specs.Prelude.{◌≡◌, ◌≤◌, length, nat_le, IfOk};
ghost use Rattle.mark_types.specs.lists.Answers.{GivesDue};
ghost use Rattle.mark_types.specs.spell_types.Sanity.{AreSaneAffixes, AreSaneEntries};
ghost use Rattle.mark_types.specs.spell_types.Sanity.{HasOrdinaryFlags, HaveOrdinaryFlags};
ghost use Rattle.dictionary_swap.specs.declared.limits.TheConstants.{SIZE_LIMIT};
ghost use Rattle.affedit_c.specs.Dictionaries.{IsLoaded};
ghost use Rattle.affedit_c.specs.Faults.{MayComeOfCalls, affixes_read, entries_of_bytes};
ghost use Rattle.affedit_c.specs.Faults.{lexicon_read};
ghost use Rattle.affedit_c.specs.Faults.{list_read};

use crate::faults::{AFF_FILE, DIC_FILE, OWN_FILE, Refusal, dic_cause};
use aff_lines::AffFault;
use aff_reader::read_aff;
use dic_reader::{DicFault, read_dic};
use dictionary_swap::SIZE_LIMIT;
use line_faults::Cause;
use mark_types::spell_types::{Affixes, Entries, Lexicon};
use personal_words::{OwnFault, OwnList, read_own};
use std::alloc::Global;

/// The dictionary that the bytes of its two files are, or its first fault.
#[tactic(auto, unfolding(crate::specs::Faults::lexicon_read))]
pub fn read_lexicon(alloc: Global, aff: &[u8], dic: &[u8]) -> Result<Lexicon, Refusal>
    ensures due { GivesDue MayComeOfCalls (λ lexicon. lexicon) (lexicon_read aff.now dic.now) result }
    ensures loaded { IfOk result IsLoaded }
{
    let affixes = read_affixes(alloc, aff)?;
    let entries = read_entries(alloc, &affixes, dic)?;
    Ok(Lexicon { affixes, entries })
}

/// What the bytes of an .aff file say.
#[tactic(auto, unfolding(crate::specs::Faults::affixes_read))]
fn read_affixes(alloc: Global, bytes: &[u8]) -> Result<Affixes, Refusal>
    ensures due { GivesDue MayComeOfCalls (λ affixes. affixes) (affixes_read bytes.now) result }
    ensures sane { IfOk result AreSaneAffixes }
    ensures ordinary { IfOk result HasOrdinaryFlags }
{
    if !is_short(bytes) {
        return Err(Refusal::too_long(AFF_FILE));
    }
    match read_aff(alloc, bytes) {
        Ok(affixes) => Ok(affixes),
        Err(AffFault::At { line, why }) => Err(Refusal::at(AFF_FILE, line, why.number())),
        Err(AffFault::NoMemory) => Err(Refusal::NoMemory),
    }
}

/// What the bytes of a .dic file say, where its flags are written as the affixes have them.
#[tactic(auto, unfolding(crate::specs::Faults::entries_of_bytes))]
fn read_entries(alloc: Global, affixes: &Affixes, bytes: &[u8]) -> Result<Entries, Refusal>
    ensures due { GivesDue MayComeOfCalls (λ entries. entries)
        (entries_of_bytes affixes.now bytes.now) result }
    ensures sane { IfOk result AreSaneEntries }
    ensures few { IfOk result (λ entries. length entries ≤ 1000000) }
    ensures ordinary { HasOrdinaryFlags affixes.now → IfOk result HaveOrdinaryFlags }
{
    if !is_short(bytes) {
        return Err(Refusal::too_long(DIC_FILE));
    }
    match read_dic(alloc, affixes, bytes) {
        Ok(entries) => Ok(entries),
        Err(DicFault::At { line, why }) => Err(Refusal::at(DIC_FILE, line, dic_cause(why))),
        Err(DicFault::NoMemory) => Err(Refusal::NoMemory),
    }
}

/// The personal words that the bytes of a list are, or its first fault.
#[tactic(auto, unfolding(crate::specs::Faults::list_read))]
pub fn read_list(alloc: Global, affixes: &Affixes, bytes: &[u8]) -> Result<OwnList, Refusal>
    ensures { GivesDue MayComeOfCalls (λ own. own) (list_read bytes.now affixes.now) result }
{
    if !is_short(bytes) {
        return Err(Refusal::too_long(OWN_FILE));
    }
    match read_own(alloc, affixes, bytes) {
        Ok(own) => Ok(own),
        Err(OwnFault::At { line, why }) => Err(Refusal::at(OWN_FILE, line, why.number())),
        Err(OwnFault::NoMemory) => Err(Refusal::NoMemory),
    }
}

/// Whether a file has no more bytes than it may have.
fn is_short(bytes: &[u8]) -> bool
    ensures { result ≡ nat_le (length bytes.now) SIZE_LIMIT }
{
    bytes.len() as u64 <= SIZE_LIMIT
}
