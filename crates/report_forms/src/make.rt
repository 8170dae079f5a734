//! What `make` is asked for, and what it is to print.

ghost use Rattle.std.specs.Prelude.{◌≡◌, true, ◌<◌, ◌≤◌, ℕ, Option, Some, IfOk, IsErrOf};
ghost use Rattle.outside.specs.lists.Answers.{GivesDue};
ghost use Rattle.outside.specs.Files.{Folder};
ghost use Rattle.document_report.specs.Given.{printed_by};
ghost use Rattle.input_lines.specs.Ends.{Reading};
ghost use Rattle.report_forms.specs.Due.{HasMade, make_due};
ghost use Rattle.file_loading.specs.Due.{MayCome};
ghost use Rattle.file_loading.specs.Ends.{EndsAs};
ghost use Rattle.report_forms.specs.Forms.{make_form};
ghost use Rattle.file_loading.specs.Forms.{IsAnswerBy, IsUntouched, Met};
ghost use Rattle.report_forms.specs.Operands.{of_numbers};
ghost use Rattle.file_loading.specs.declared.failure.Failure.TheVariants.{Load};
ghost use Rattle.dictionary_swap.specs.declared.fault.LoadFault.TheVariants.{Failed};

use crate::check::report_by;
use crate::printing::put_outcome;
use document_report::{Output, Report};
use file_loading::{DictionaryNames, Failure, load_judge};
use outside::lists::NoMemory;
use outside::{Files, Sink, SureFiles};
use std::alloc::Global;
use std::marker::Model;
use std::thread::Threads;
use work_maker::{make_aff, make_dic, make_text};

/// The greatest size that is made.
const SIZE_LIMIT: u64 = 50_000;

/// What the words `make START SIZE` ask for. Contracts see both numbers, and that the size is one
/// that is made.
#[derive(Drop)]
pub struct Making {
    /// Where the words of the text are drawn from.
    start: u64,
    /// How many entries the dictionary has, and how many words the text.
    size: u32,
}

impl Model for Making {
    ghost use Rattle.std.specs.Prelude.{◌≤◌};
    ghost use Rattle.report_forms.specs.Operands.{StartAndSize};

    ghost Value = { StartAndSize };

    ghost view = { λ inside. record { start = inside.start; size = inside.size } };

    ghost invariant = { λ inside. (1 ≤ inside.size) × (inside.size ≤ 50000) };
}

/// A start and a size, if it is one that is made.
pub fn of_numbers(start: Option<u64>, size: Option<u64>) -> Option<Making>
    ensures { result ≡ of_numbers start size }
{
    match (start, size) {
        (Some(start), Some(size)) if 1 <= size && size <= SIZE_LIMIT => Some(Making {
            start,
            size: size as u32,
        }),
        _ => None,
    }
}

/// Writes the summary of a dictionary and a text that are made.
pub fn make<R: Threads + Sync, K: Sink>(rt: &R, alloc: Global, making: Making, out: &mut K) -> u8
    // Whatever there is outside, which stays untouched.
    ensures due { (folder : Option Folder) (files : ℕ) (reading : Reading) → IsUntouched reading
        → EndsAs (IsAnswerBy true (make_form making) (record {
          folder = folder;
          files_before = files;
          files_after = files;
          reading = reading;
          closed = None;
        })) (K.faults out.old < K.faults out.new) (K.written out.old) (K.written out.new) result }
    ensures complete { (met : Met) → K.faults out.new ≡ K.faults out.old
        → EndsAs ((make_form making).whole met) ⊥ (K.written out.old)
        (K.written out.new) result }
    ensures sink_count { K.faults out.old ≤ K.faults out.new }
{
    let outcome = outcome_of(rt, alloc, making);
    put_outcome(alloc, out, outcome)
}

/// The summary of a dictionary and a text that are made: the dictionary is loaded from memory, and
/// the text is checked by it, as files are.
fn outcome_of<R: Threads + Sync>(rt: &R, alloc: Global, making: Making) -> Result<Report, Failure>
    ensures due { GivesDue MayCome printed_by (make_due making) result }
    ensures failed { ¬ (IsErrOf result (Load Failed)) }
{
    let mut files = made_files(alloc, making.size)?;
    let names = DictionaryNames {
        aff: "made.aff",
        dic: "made.dic",
        own: None,
    };
    let judge = load_judge(alloc, &mut files, &names)?;
    let text = make_text(alloc, making.start, making.size)?;
    let output = Output::Summary {
        entries: making.size,
    };
    report_by(rt, alloc, &judge, 0, output, &text)
}

/// The files of the dictionary that is made, in memory.
fn made_files(alloc: Global, size: u32) -> Result<SureFiles, NoMemory>
    requires some { 1 ≤ size }
    requires limited { size ≤ 50000 }
    ensures { IfOk result (λ files. HasMade size (⟦<SureFiles as Files>⟧.told files)) }
{
    let aff_name = String::from_str(alloc, "made.aff")?;
    let dic_name = String::from_str(alloc, "made.dic")?;
    let aff = make_aff(alloc)?;
    let dic = make_dic(alloc, size)?;
    let mut files = Vec::new(alloc);
    files.push((aff_name, aff))?;
    files.push((dic_name, dic))?;
    Ok(SureFiles::new(files))
}
