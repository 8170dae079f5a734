//! Loads the files that words name. Why a file is not loaded is a failure.

ghost use Rattle.std.specs.Prelude.{◌≡◌, ◌<◌, ◌≤◌, ℕ, List, length, Option, IfOk, IsErrOf};
ghost use Rattle.std.specs.Arc.{arc_value};
ghost use Rattle.std.specs.Option.{option_copied};
ghost use Rattle.outside.specs.lists.Answers.{GivesDue};
ghost use Rattle.console_board.specs.Transcripts.{IsThere};
ghost use Rattle.own_dictionary.specs.dictionary_swap.Loads.{DictionaryFiles, MayComeOfLoads};
ghost use Rattle.own_dictionary.specs.dictionary_swap.Loads.{lexicon_due};
ghost use Rattle.own_dictionary.specs.dictionary_swap.declared.fault.LoadFault.TheVariants.{Failed};
ghost use Rattle.own_dictionary.specs.dictionary_swap.declared.limits.TheConstants.{SIZE_LIMIT};
ghost use Rattle.own_dictionary.specs.personal_words.Dictionaries.{IsLoadedBase, in_force};
ghost use Rattle.file_loading.specs.Due.{IsFileThere, IsListThere, IsOwnThere, MayCome, OwnFiles};
ghost use Rattle.file_loading.specs.Due.{base_due, bytes_due_of_file, dictionary_due, in_force_due};
ghost use Rattle.file_loading.specs.Due.{items_due, list_due, own_due, unextended_due};
ghost use Rattle.file_loading.specs.declared.failure.Failure.TheVariants.{Load};

use crate::failure::Failure;
use crate::names::DictionaryNames;
use affix_strip::Stems;
use outside::lists::NoMemory;
use outside::{Files, load_file};
use own_dictionary::dictionary_swap::{LoadFault, SIZE_LIMIT, load_lexicon};
use own_dictionary::personal_words::{OwnList, extend_with, read_own};
use own_dictionary::{OwnDictionary, load};
use spell_types::{Affixes, Lexicon};
use std::alloc::Global;
use std::marker::Model;
use std::sync::Arc;
use std::thread::Threads;
use word_verdict::Speller;

/// What a dictionary is made of: its base, and the items of a personal list. Contracts see it as
/// the dictionary.
#[derive(Drop)]
pub struct DictionaryParts {
    pub base: Lexicon,
    pub own: OwnList,
}

impl Model for DictionaryParts {
    ghost use Rattle.own_dictionary.specs.personal_words.Dictionaries.{OwnSeen};

    ghost Value = { OwnSeen };

    ghost view = { λ inside. record { base = inside.base; own = inside.own } };
}

/// The dictionary that these names name: its two files, and the personal list behind them, if one is
/// named.
pub fn load_dictionary<F: Files>(
    alloc: Global,
    files: &mut F,
    names: &DictionaryNames<'_>,
) -> Result<OwnDictionary, Failure>
    // It is what is due of some files, which are those that are told, where some are.
    ensures due { (there : OwnFiles) × IsOwnThere (F.told files.old) names.now there
        × GivesDue MayCome (λ dictionary. dictionary) (dictionary_due there) result }
    ensures failed { IsErrOf result (Load Failed) → F.faults files.old < F.faults files.new }
    ensures same { F.told files.new ≡ F.told files.old }
    ensures count { F.faults files.old ≤ F.faults files.new }
{
    let DictionaryParts { base, own } = load_parts(alloc, files, names)?;
    Ok(OwnDictionary::new(alloc, base, own)?)
}

/// What the dictionary that these names name is made of.
pub fn load_parts<F: Files>(
    alloc: Global,
    files: &mut F,
    names: &DictionaryNames<'_>,
) -> Result<DictionaryParts, Failure>
    ensures due { (there : OwnFiles) × IsOwnThere (F.told files.old) names.now there
        × GivesDue MayCome (λ parts. parts) (dictionary_due there) result }
    ensures base { IfOk result (λ parts. IsLoadedBase parts.base) }
    ensures failed { IsErrOf result (Load Failed) → F.faults files.old < F.faults files.new }
    ensures same { F.told files.new ≡ F.told files.old }
    ensures count { F.faults files.old ≤ F.faults files.new }
{
    let base = load_base(alloc, files, names.aff, names.dic)?;
    let own = load_own(alloc, files, &base.affixes, names.own)?;
    Ok(DictionaryParts { base, own })
}

/// The same, to be asked, which threads may share.
pub fn load_judge<F: Files>(
    alloc: Global,
    files: &mut F,
    names: &DictionaryNames<'_>,
) -> Result<Arc<Speller>, Failure>
    ensures due { (there : OwnFiles) × IsOwnThere (F.told files.old) names.now there
        × GivesDue MayCome (λ judge. arc_value judge) (in_force_due there) result }
    ensures failed { IsErrOf result (Load Failed) → F.faults files.old < F.faults files.new }
    ensures same { F.told files.new ≡ F.told files.old }
    ensures count { F.faults files.old ≤ F.faults files.new }
{
    let parts = load_parts(alloc, files, names)?;
    Ok(judge_made(alloc, parts)?)
}

/// The dictionary of the two files that these names name, without a personal list, to be asked, which
/// threads may share.
pub fn load_unextended<F: Files>(
    alloc: Global,
    files: &mut F,
    names: &DictionaryNames<'_>,
) -> Result<Arc<Speller>, Failure>
    ensures due { (there : OwnFiles) × IsOwnThere (F.told files.old) names.now there
        × GivesDue MayCome (λ judge. arc_value judge) (unextended_due there) result }
    ensures failed { IsErrOf result (Load Failed) → F.faults files.old < F.faults files.new }
    ensures same { F.told files.new ≡ F.told files.old }
    ensures count { F.faults files.old ≤ F.faults files.new }
{
    load_base_judge(alloc, files, names.aff, names.dic)
}

/// The dictionary of these two files alone, to be asked, which threads may share.
pub fn load_base_judge<F: Files>(
    alloc: Global,
    files: &mut F,
    aff: &str,
    dic: &str,
) -> Result<Arc<Speller>, Failure>
    ensures due { (there : DictionaryFiles) × IsThere (F.told files.old) aff.now dic.now there
        × GivesDue MayCome (λ judge. arc_value judge) (base_due there) result }
    ensures failed { IsErrOf result (Load Failed) → F.faults files.old < F.faults files.new }
    ensures same { F.told files.new ≡ F.told files.old }
    ensures count { F.faults files.old ≤ F.faults files.new }
{
    match load_speller(alloc, files, aff, dic) {
        Ok(judge) => Ok(judge),
        Err(fault) => Err(Failure::from(fault)),
    }
}

/// The same, where a fault is told as that of the files.
pub fn load_speller<F: Files>(
    alloc: Global,
    files: &mut F,
    aff: &str,
    dic: &str,
) -> Result<Arc<Speller>, LoadFault>
    ensures due { (there : DictionaryFiles) × IsThere (F.told files.old) aff.now dic.now there
        × GivesDue MayComeOfLoads (λ judge. arc_value judge) (lexicon_due there) result }
    ensures failed { IsErrOf result Failed → F.faults files.old < F.faults files.new }
    ensures same { F.told files.new ≡ F.told files.old }
    ensures count { F.faults files.old ≤ F.faults files.new }
{
    let speller = load(alloc, files, aff, dic)?;
    Ok(shared(alloc, speller)?)
}

/// The dictionary that is made of these parts, to be asked.
pub fn judge_made(alloc: Global, parts: DictionaryParts) -> Result<Arc<Speller>, NoMemory>
    requires { IsLoadedBase parts.base }
    ensures { IfOk result (λ judge. arc_value judge ≡ in_force parts) }
{
    let DictionaryParts { base, own } = parts;
    let lexicon = extend_with(alloc, base, &own)?;
    let stems = Stems::new(alloc, lexicon)?;
    judge_of(alloc, stems)
}

/// The same, made in three threads, while the caller waits. It does the work of a thread that
/// cannot be started.
pub fn judge_in_threads<R: Threads + Sync>(
    rt: &R,
    alloc: Global,
    parts: DictionaryParts,
) -> Result<Arc<Speller>, NoMemory>
    requires { IsLoadedBase parts.base }
    ensures { IfOk result (λ judge. arc_value judge ≡ in_force parts) }
{
    let DictionaryParts { base, own } = parts;
    let lexicon = extend_with(alloc, base, &own)?;
    let stems = Stems::in_threads(rt, alloc, lexicon)?;
    judge_of(alloc, stems)
}

/// A dictionary with these stems, to be asked.
fn judge_of(alloc: Global, stems: Stems) -> Result<Arc<Speller>, NoMemory>
    ensures { IfOk result (λ judge. arc_value judge ≡ stems) }
{
    let speller = Speller::of_stems(alloc, stems)?;
    shared(alloc, speller)
}

/// A dictionary to be asked, for threads to share.
pub fn shared(alloc: Global, speller: Speller) -> Result<Arc<Speller>, NoMemory>
    ensures { IfOk result (λ judge. arc_value judge ≡ speller) }
{
    Ok(Arc::new(alloc, speller)?)
}

/// The dictionary of these two files alone.
pub fn load_base<F: Files>(
    alloc: Global,
    files: &mut F,
    aff: &str,
    dic: &str,
) -> Result<Lexicon, Failure>
    ensures due { (there : DictionaryFiles) × IsThere (F.told files.old) aff.now dic.now there
        × GivesDue MayCome (λ base. base) (base_due there) result }
    ensures base { IfOk result IsLoadedBase }
    ensures failed { IsErrOf result (Load Failed) → F.faults files.old < F.faults files.new }
    ensures same { F.told files.new ≡ F.told files.old }
    ensures count { F.faults files.old ≤ F.faults files.new }
{
    match load_lexicon(alloc, files, aff, dic) {
        Ok(base) => Ok(base),
        Err(fault) => Err(Failure::from(fault)),
    }
}

/// The personal list of this name, if there is a name. Otherwise the list is empty.
fn load_own<F: Files>(
    alloc: Global,
    files: &mut F,
    affixes: &Affixes,
    name: Option<&str>,
) -> Result<OwnList, Failure>
    ensures due { (there : Option (Option (List ℕ)))
        × IsListThere (F.told files.old) (option_copied name.entry) there
        × GivesDue MayCome (λ own. own) (own_due affixes.now there) result }
    ensures failed { IsErrOf result (Load Failed) → F.faults files.old < F.faults files.new }
    ensures same { F.told files.new ≡ F.told files.old }
    ensures count { F.faults files.old ≤ F.faults files.new }
{
    match name {
        None => Ok(OwnList::new(alloc)),
        Some(name) => load_list(alloc, files, affixes, name),
    }
}

/// The personal list of this name.
fn load_list<F: Files>(
    alloc: Global,
    files: &mut F,
    affixes: &Affixes,
    name: &str,
) -> Result<OwnList, Failure>
    ensures due { (file : Option (List ℕ)) × IsFileThere (F.told files.old) name.now file
        × GivesDue MayCome (λ own. own) (list_due affixes.now file) result }
    ensures failed { IsErrOf result (Load Failed) → F.faults files.old < F.faults files.new }
    ensures same { F.told files.new ≡ F.told files.old }
    ensures count { F.faults files.old ≤ F.faults files.new }
{
    let bytes = load_bytes(alloc, files, name, SIZE_LIMIT)?;
    read_list(alloc, affixes, &bytes)
}

/// What the bytes of a personal list say.
fn read_list(alloc: Global, affixes: &Affixes, bytes: &[u8]) -> Result<OwnList, Failure>
    ensures due { GivesDue MayCome (λ own. own) (items_due affixes.now bytes.now) result }
    ensures failed { ¬ (IsErrOf result (Load Failed)) }
{
    match read_own(alloc, affixes, bytes) {
        Ok(own) => Ok(own),
        Err(fault) => Err(Failure::from(fault)),
    }
}

/// The bytes of a file, which may have so many.
pub fn load_bytes<F: Files>(
    alloc: Global,
    files: &mut F,
    name: &str,
    limit: u64,
) -> Result<Vec<u8>, Failure>
    ensures due { (file : Option (List ℕ)) × IsFileThere (F.told files.old) name.now file
        × GivesDue MayCome (λ bytes. bytes.items) (bytes_due_of_file limit file) result }
    ensures bounded { IfOk result (λ bytes. length bytes.items ≤ limit) }
    ensures failed { IsErrOf result (Load Failed) → F.faults files.old < F.faults files.new }
    ensures same { F.told files.new ≡ F.told files.old }
    ensures count { F.faults files.old ≤ F.faults files.new }
{
    match load_file(alloc, files, name, limit) {
        Ok(bytes) => Ok(bytes),
        Err(fault) => Err(Failure::from(LoadFault::of_file(fault, limit))),
    }
}
