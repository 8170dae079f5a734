//! A dictionary that is made in other threads, while this one loads a document.

ghost use Rattle.std.specs.Prelude.{◌≡◌, ◌<◌, ◌≤◌, ℕ, List, Option, Some, IfOk, IfSome, IsErrOf};
ghost use Rattle.std.specs.Arc.{arc_value};
ghost use Rattle.std.specs.Thread.{IsSync};
ghost use Rattle.outside.specs.lists.Answers.{GivesDue};
ghost use Rattle.dictionary_swap.specs.declared.fault.LoadFault.TheVariants.{Failed};
ghost use Rattle.personal_words.specs.Dictionaries.{IsLoadedBase, OwnSeen, in_force};
ghost use Rattle.file_loading.specs.Due.{IsFileThere, MayCome, bytes_due_of_file};
ghost use Rattle.file_loading.specs.declared.failure.Failure.TheVariants.{Load};
ghost use Rattle.report_forms.specs.declared.limits.TheConstants.{DOCUMENT_LIMIT};

use crate::limits::DOCUMENT_LIMIT;
use file_loading::{DictionaryParts, Failure, Workers, judge_in_threads, judge_made, load_bytes};
use joined_tasks::{Task, perform_both};
use outside::Files;
use outside::lists::NoMemory;
use std::alloc::Global;
use std::sync::Arc;
use std::thread::Threads;
use word_verdict::Speller;

/// A dictionary, to be asked, and the bytes of a document, each as far as it could be had.
pub type JudgeAndDocument = (Result<Arc<Speller>, NoMemory>, Result<Vec<u8>, Failure>);

/// The task of making a dictionary. It has nothing of its own, so that what becomes of all that it
/// is lent is known where it ends.
#[derive(Drop)]
struct MakingTask<'r, 'p, 'j, R> {
    rt: &'r R,
    alloc: Global,
    parts: &'p mut Option<DictionaryParts>,
    judge: &'j mut Result<Arc<Speller>, NoMemory>,
}

impl<R: Threads + Sync> Task for MakingTask<'_, '_, '_, R> {
    ghost IsReady = { λ making.
        IsSync R.row × IfSome making.parts.now (λ parts. IsLoadedBase parts.base) };

    ghost Does = { λ old new. (old.judge.ghost_name ≡ new.judge.ghost_name)
        × ((parts : OwnSeen) → old.parts.now ≡ Some parts
        → IfOk new.judge.now (λ judge. arc_value judge ≡ in_force parts)) };

    /// Makes the dictionary of the parts, which are taken.
    fn perform(&mut self) {
        if let Some(parts) = self.parts.take() {
            *self.judge = judge_in_threads(self.rt, self.alloc, parts);
        }
    }
}

/// The task of loading a document. It has nothing of its own either.
#[derive(Drop)]
struct Loading<'f, 'n, 'd, F> {
    alloc: Global,
    files: &'f mut F,
    name: &'n str,
    document: &'d mut Result<Vec<u8>, Failure>,
}

impl<F: Files> Task for Loading<'_, '_, '_, F> {
    ghost IsReady = { λ loading. Unit {0} };

    ghost Does = { λ old new. (old.files.ghost_name ≡ new.files.ghost_name)
        × (old.document.ghost_name ≡ new.document.ghost_name)
        × ((file : Option (List ℕ)) × IsFileThere (F.told old.files.now) old.name.now file
        × GivesDue MayCome (λ bytes. bytes.items) (bytes_due_of_file DOCUMENT_LIMIT file) new.document.now)
        × (IsErrOf new.document.now (Load Failed)
        → F.faults old.files.now < F.faults new.files.now)
        × (F.told new.files.now ≡ F.told old.files.now)
        × (F.faults old.files.now ≤ F.faults new.files.now) };

    /// Loads the document.
    fn perform(&mut self) {
        *self.document = load_document(self.alloc, self.files, self.name);
    }
}

/// The dictionary that is made of these parts, and the document of this name. Where there are two
/// workers or more, the one is made in other threads while the other is loaded.
pub fn make_and_load<R: Threads + Sync, F: Files>(
    rt: &R,
    alloc: Global,
    workers: Workers,
    parts: DictionaryParts,
    files: &mut F,
    name: &str,
) -> JudgeAndDocument
    requires { IsLoadedBase parts.base }
    ensures made { IfOk result.0 (λ judge. arc_value judge ≡ in_force parts) }
    ensures due { (file : Option (List ℕ)) × IsFileThere (F.told files.old) name.now file
        × GivesDue MayCome (λ bytes. bytes.items) (bytes_due_of_file DOCUMENT_LIMIT file) result.1 }
    ensures failed { IsErrOf result.1 (Load Failed) → F.faults files.old < F.faults files.new }
    ensures same { F.told files.new ≡ F.told files.old }
    ensures count { F.faults files.old ≤ F.faults files.new }
{
    if workers.count() < 2 {
        let judge = judge_made(alloc, parts);
        return (judge, load_document(alloc, files, name));
    }
    make_beside(rt, alloc, parts, files, name)
}

/// The same in several threads, or in this one alone, where no other can be made.
fn make_beside<R: Threads + Sync, F: Files>(
    rt: &R,
    alloc: Global,
    parts: DictionaryParts,
    files: &mut F,
    name: &str,
) -> JudgeAndDocument
    requires { IsLoadedBase parts.base }
    ensures made { IfOk result.0 (λ judge. arc_value judge ≡ in_force parts) }
    ensures due { (file : Option (List ℕ)) × IsFileThere (F.told files.old) name.now file
        × GivesDue MayCome (λ bytes. bytes.items) (bytes_due_of_file DOCUMENT_LIMIT file) result.1 }
    ensures failed { IsErrOf result.1 (Load Failed) → F.faults files.old < F.faults files.new }
    ensures same { F.told files.new ≡ F.told files.old }
    ensures count { F.faults files.old ≤ F.faults files.new }
{
    let mut parts = Some(parts);
    let mut judge = Err(NoMemory);
    let mut document = Err(Failure::NoMemory);
    let mut making = MakingTask {
        rt,
        alloc,
        parts: &mut parts,
        judge: &mut judge,
    };
    let mut loading = Loading {
        alloc,
        files,
        name,
        document: &mut document,
    };
    perform_both(rt, &mut making, &mut loading);
    (judge, document)
}

/// The bytes of a document.
fn load_document<F: Files>(alloc: Global, files: &mut F, name: &str) -> Result<Vec<u8>, Failure>
    ensures due { (file : Option (List ℕ)) × IsFileThere (F.told files.old) name.now file
        × GivesDue MayCome (λ bytes. bytes.items) (bytes_due_of_file DOCUMENT_LIMIT file) result }
    ensures failed { IsErrOf result (Load Failed) → F.faults files.old < F.faults files.new }
    ensures same { F.told files.new ≡ F.told files.old }
    ensures count { F.faults files.old ≤ F.faults files.new }
{
    load_bytes(alloc, files, name, DOCUMENT_LIMIT)
}
