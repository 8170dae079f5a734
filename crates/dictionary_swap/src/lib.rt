//! Loads a dictionary: its two files, and what they say.
#![tactic(auto)]

ghost use Rattle.std.specs.Prelude.{◌≡◌, ◌<◌, ◌≤◌, length, IfOk, IfSome, IsErrOf};
ghost use Rattle.outside.specs.lists.Answers.{GivesDue};
ghost use Rattle.spell_types.specs.Sanity.{IsSane, HasOrdinaryFlags, HaveOrdinaryFlags};
ghost use Rattle.dic_reader.specs.Faults.{entry_limit};
ghost use Rattle.dictionary_swap.specs.Loads.{DictionaryFiles, MayComeOfLoads, lexicon_due};
ghost use Rattle.dictionary_swap.specs.Loads.{found_in};

mod causes;
mod fault;
mod limits;
mod steps;

pub use fault::LoadFault;
pub use limits::{SIZE_LIMIT, files_are_limited};
use outside::Files;
use spell_types::Lexicon;
use std::alloc::Global;
use steps::{load_affixes, load_entries};

/// What these two files say, or what is wrong first: the .aff file is loaded and read before the
/// .dic file, and of each file its bytes come before its lines. No file may have more than
/// 16,777,216 bytes.
#[tactic(auto, unfolding(crate::specs::Loads::lexicon_due))]
pub fn load_lexicon<F: Files>(
    alloc: Global,
    files: &mut F,
    aff: &str,
    dic: &str,
) -> Result<Lexicon, LoadFault>
    // It is what is due of some files, which are those that are told, where some are.
    ensures found { (there : DictionaryFiles)
        × GivesDue MayComeOfLoads (λ lexicon. lexicon) (lexicon_due there) result }
    ensures told { IfSome (F.told files.old) (λ folder. GivesDue MayComeOfLoads (λ lexicon. lexicon)
        (lexicon_due (found_in folder aff.now dic.now)) result) }

    // What every dictionary meets that is read.
    ensures sane { IfOk result IsSane }
    ensures few { IfOk result (λ lexicon. length lexicon.entries ≤ entry_limit) }
    ensures ordinary_affixes { IfOk result (λ lexicon. HasOrdinaryFlags lexicon.affixes) }
    ensures ordinary_entries { IfOk result (λ lexicon. HaveOrdinaryFlags lexicon.entries) }
    ensures same { F.told files.new ≡ F.told files.old }
    ensures failed { IsErrOf result LoadFault.Failed → F.faults files.old < F.faults files.new }
    ensures count { F.faults files.old ≤ F.faults files.new }
{
    let affixes = load_affixes(alloc, files, aff)?;
    let entries = load_entries(alloc, files, &affixes, dic)?;
    Ok(Lexicon { affixes, entries })
}
