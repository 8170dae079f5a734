//! The dictionary of two files, ready to be asked.

ghost use Rattle.std.specs.Prelude.{◌≡◌, ◌<◌, ◌≤◌, IfSome, IsErrOf};
ghost use Rattle.outside.specs.lists.Answers.{GivesDue};
ghost use Rattle.dictionary_swap.specs.Loads.{DictionaryFiles, MayComeOfLoads, lexicon_due};
ghost use Rattle.dictionary_swap.specs.Loads.{found_in};
ghost use Rattle.dictionary_swap.specs.declared.fault.LoadFault.TheVariants.{Failed};

use dictionary_swap::{LoadFault, load_lexicon};
use outside::Files;
use spell_types::Lexicon;
use std::alloc::Global;
use word_verdict::Speller;

/// The dictionary of these two files, ready to be asked, or what is wrong first, as `load_lexicon`
/// tells it.
#[tactic(auto, unfolding(dictionary_swap::specs::Loads::lexicon_due))]
pub fn load<F: Files>(
    alloc: Global,
    files: &mut F,
    aff: &str,
    dic: &str,
) -> Result<Speller, LoadFault>
    // It is what is due of some files, which are those that are told, where some are.
    ensures found { (there : DictionaryFiles)
        × GivesDue MayComeOfLoads (λ speller. speller) (lexicon_due there) result }
    ensures told { IfSome (F.told files.old) (λ folder. GivesDue MayComeOfLoads (λ speller. speller)
        (lexicon_due (found_in folder aff.now dic.now)) result) }
    ensures same { F.told files.new ≡ F.told files.old }
    ensures failed { IsErrOf result Failed → F.faults files.old < F.faults files.new }
    ensures count { F.faults files.old ≤ F.faults files.new }
{
    let Lexicon { affixes, entries } = load_lexicon(alloc, files, aff, dic)?;
    Ok(Speller::build(alloc, affixes, entries)?)
}
