//! The steps of a load: a file's bytes, and what they say.

ghost use Rattle.std.specs.Prelude.{◌≡◌, ◌<◌, ◌≤◌, ℕ, List, Option, length, IfSome, IfOk, IsErrOf};
ghost use Rattle.outside.specs.lists.Answers.{GivesDue};
ghost use Rattle.spell_types.specs.Sanity.{AreSaneAffixes, AreSaneEntries};
ghost use Rattle.spell_types.specs.Sanity.{HasOrdinaryFlags, HaveOrdinaryFlags};
ghost use Rattle.dic_reader.specs.Faults.{entry_limit};
ghost use Rattle.dictionary_swap.specs.Loads.{MayComeOfLoads, load_due, affixes_step, entries_step};
ghost use Rattle.dictionary_swap.specs.Loads.{affixes_due, entries_due};
ghost use Rattle.dictionary_swap.specs.declared.limits.TheConstants.{SIZE_LIMIT};

use crate::fault::LoadFault;
use crate::limits::SIZE_LIMIT;
use aff_lines::AffFault;
use aff_reader::read_aff;
use dic_reader::{DicFault, read_dic};
use outside::Files;
use spell_types::{Affixes, Entries};
use std::alloc::Global;

/// What the .aff file of this name says.
#[tactic(auto, unfolding(crate::specs::Loads::affixes_due))]
pub fn load_affixes<F: Files>(
    alloc: Global,
    files: &mut F,
    name: &str,
) -> Result<Affixes, LoadFault>
    ensures found { (file : Option (List ℕ))
        × GivesDue MayComeOfLoads (λ affixes. affixes) (affixes_due file) result }
    ensures told { IfSome (F.told files.old) (λ folder.
        GivesDue MayComeOfLoads (λ affixes. affixes) (affixes_due (folder name.now)) result) }
    ensures sane { IfOk result AreSaneAffixes }
    ensures ordinary { IfOk result HasOrdinaryFlags }
    ensures same { F.told files.new ≡ F.told files.old }
    ensures failed { IsErrOf result LoadFault.Failed → F.faults files.old < F.faults files.new }
    ensures count { F.faults files.old ≤ F.faults files.new }
{
    let bytes = load_file(alloc, files, name)?;
    read_affixes(alloc, &bytes)
}

/// What the .dic file of this name says.
#[tactic(auto, unfolding(crate::specs::Loads::entries_due))]
pub fn load_entries<F: Files>(
    alloc: Global,
    files: &mut F,
    affixes: &Affixes,
    name: &str,
) -> Result<Entries, LoadFault>
    ensures found { (file : Option (List ℕ))
        × GivesDue MayComeOfLoads (λ entries. entries) (entries_due affixes.now file) result }
    ensures told { IfSome (F.told files.old) (λ folder.
        GivesDue MayComeOfLoads (λ entries. entries) (entries_due affixes.now (folder name.now)) result) }
    ensures sane { IfOk result AreSaneEntries }
    ensures few { IfOk result (λ entries. length entries ≤ entry_limit) }
    ensures ordinary { HasOrdinaryFlags affixes.now → IfOk result HaveOrdinaryFlags }
    ensures same { F.told files.new ≡ F.told files.old }
    ensures failed { IsErrOf result LoadFault.Failed → F.faults files.old < F.faults files.new }
    ensures count { F.faults files.old ≤ F.faults files.new }
{
    let bytes = load_file(alloc, files, name)?;
    read_entries(alloc, affixes, &bytes)
}

/// The bytes of the file of this name.
#[tactic(auto, unfolding(crate::specs::Loads::load_due))]
fn load_file<F: Files>(alloc: Global, files: &mut F, name: &str) -> Result<Vec<u8>, LoadFault>
    ensures found { (file : Option (List ℕ))
        × GivesDue MayComeOfLoads (λ bytes. bytes.items) (load_due SIZE_LIMIT file) result }
    ensures told { IfSome (F.told files.old) (λ folder.
        GivesDue MayComeOfLoads (λ bytes. bytes.items) (load_due SIZE_LIMIT (folder name.now)) result) }
    ensures same { F.told files.new ≡ F.told files.old }
    ensures failed { IsErrOf result LoadFault.Failed → F.faults files.old < F.faults files.new }
    ensures count { F.faults files.old ≤ F.faults files.new }
{
    outside::load_file(alloc, files, name, SIZE_LIMIT).map_err(|fault| LoadFault::of_file(
        fault, SIZE_LIMIT,
    ))
}

/// What the bytes of an .aff file say.
#[tactic(auto, unfolding(crate::specs::Loads::affixes_step))]
fn read_affixes(alloc: Global, bytes: &[u8]) -> Result<Affixes, LoadFault>
    ensures due { GivesDue MayComeOfLoads (λ affixes. affixes) (affixes_step bytes.now) result }
    ensures sane { IfOk result AreSaneAffixes }
    ensures ordinary { IfOk result HasOrdinaryFlags }
    ensures failed { ¬ (IsErrOf result LoadFault.Failed) }
{
    match read_aff(alloc, bytes) {
        Ok(affixes) => Ok(affixes),
        Err(AffFault::At { line, why }) => Err(LoadFault::Aff { line, why }),
        Err(AffFault::NoMemory) => Err(LoadFault::NoMemory),
    }
}

/// What the bytes of a .dic file say, where its flags are written as the affixes have them.
#[tactic(auto, unfolding(crate::specs::Loads::entries_step))]
fn read_entries(alloc: Global, affixes: &Affixes, bytes: &[u8]) -> Result<Entries, LoadFault>
    ensures due { GivesDue MayComeOfLoads (λ entries. entries)
        (entries_step affixes.now bytes.now) result }
    ensures sane { IfOk result AreSaneEntries }
    ensures few { IfOk result (λ entries. length entries ≤ entry_limit) }
    ensures ordinary { HasOrdinaryFlags affixes.now → IfOk result HaveOrdinaryFlags }
    ensures failed { ¬ (IsErrOf result LoadFault.Failed) }
{
    match read_dic(alloc, affixes, bytes) {
        Ok(entries) => Ok(entries),
        Err(DicFault::At { line, why }) => Err(LoadFault::Dic { line, why }),
        Err(DicFault::NoMemory) => Err(LoadFault::NoMemory),
    }
}
