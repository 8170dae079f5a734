//! What `check` is asked for, and what it is to print, as far as the files let it.

ghost use Rattle.std.specs.Prelude.{◌≡◌, true, ◌<◌, ◌≤◌, IsErrOf};
ghost use Rattle.std.specs.Arc.{arc_value};
ghost use Rattle.outside.specs.lists.Answers.{GivesDue};
ghost use Rattle.document_report.specs.Given.{printed_as, printed_by};
ghost use Rattle.input_lines.specs.Ends.{Reading};
ghost use Rattle.report_forms.specs.Due.{Found, AreInputsFound, check_due, printed_due};
ghost use Rattle.file_loading.specs.Due.{MayCome};
ghost use Rattle.file_loading.specs.Ends.{EndsAs};
ghost use Rattle.report_forms.specs.Forms.{check_form};
ghost use Rattle.file_loading.specs.Forms.{IsAnswerBy, IsUntouched};
ghost use Rattle.file_loading.specs.declared.failure.Failure.TheVariants.{Load};
ghost use Rattle.dictionary_swap.specs.declared.fault.LoadFault.TheVariants.{Failed};

use crate::making::make_and_load;
use crate::printing::put_outcome;
use document_report::{Output, Report, report};
use file_loading::{DictionaryNames, Failure, Workers, load_parts};
use outside::{Files, Sink};
use std::alloc::Global;
use std::marker::Model;
use std::sync::Arc;
use std::thread::Threads;
use word_verdict::Speller;

/// The files that the words `check AFF DIC FILE` name, with the options behind them. Contracts see
/// their names.
#[derive(Drop)]
pub struct CheckNames<'a> {
    pub dictionary: DictionaryNames<'a>,
    pub document: &'a str,
}

impl<'a> Model for CheckNames<'a> {
    ghost use Rattle.report_forms.specs.Operands.{CheckedFiles};

    ghost Value = { CheckedFiles };

    ghost view = { λ inside.
        record { dictionary = inside.dictionary; document = inside.document.now } };
}

/// Writes the report on a document.
pub fn check<R: Threads + Sync, F: Files, K: Sink>(
    rt: &R,
    alloc: Global,
    names: CheckNames<'_>,
    workers: Workers,
    files: &mut F,
    out: &mut K,
) -> u8
    // Whatever there is of an input, which stays untouched.
    ensures due { (reading : Reading) → IsUntouched reading
        → EndsAs (IsAnswerBy true (check_form names.entry) (record {
          folder = F.told files.old;
          files_before = F.faults files.old;
          files_after = F.faults files.new;
          reading = reading;
          closed = None;
        })) (K.faults out.old < K.faults out.new) (K.written out.old) (K.written out.new) result }
    ensures complete { (reading : Reading) → K.faults out.new ≡ K.faults out.old
        → EndsAs ((check_form names.entry).whole (record {
          folder = F.told files.old;
          files_before = F.faults files.old;
          files_after = F.faults files.new;
          reading = reading;
          closed = None;
        })) ⊥ (K.written out.old) (K.written out.new) result }
    ensures same { F.told files.new ≡ F.told files.old }
    ensures files_count { F.faults files.old ≤ F.faults files.new }
    ensures sink_count { K.faults out.old ≤ K.faults out.new }
{
    let outcome = outcome_of(rt, alloc, names, workers, files);
    put_outcome(alloc, out, outcome)
}

/// The report on the document, or what stops it first: the dictionary is loaded before the
/// document, and of that its bytes come before its lines.
fn outcome_of<R: Threads + Sync, F: Files>(
    rt: &R,
    alloc: Global,
    names: CheckNames<'_>,
    workers: Workers,
    files: &mut F,
) -> Result<Report, Failure>
    // It is what is due of some files, which are those that are told, where some are.
    ensures due { (found : Found) × AreInputsFound (F.told files.old) names.entry found
        × GivesDue MayCome printed_by (check_due found) result }
    ensures failed { IsErrOf result (Load Failed) → F.faults files.old < F.faults files.new }
    ensures same { F.told files.new ≡ F.told files.old }
    ensures count { F.faults files.old ≤ F.faults files.new }
{
    let parts = load_parts(alloc, files, &names.dictionary)?;
    let (judge, document) = make_and_load(rt, alloc, workers, parts, files, names.document);
    let judge = judge?;
    let document = document?;
    report_by(rt, alloc, &judge, workers.count(), Output::Marks, &document)
}

/// What is to be printed of a document by a dictionary, whose paragraphs so many workers share.
pub fn report_by<R: Threads + Sync>(
    rt: &R,
    alloc: Global,
    judge: &Arc<Speller>,
    workers: u64,
    output: Output,
    document: &[u8],
) -> Result<Report, Failure>
    ensures due { GivesDue MayCome printed_by
        (printed_due (printed_as output) (arc_value judge.now) document.now) result }
    ensures failed { ¬ (IsErrOf result (Load Failed)) }
{
    match report(rt, alloc, judge, workers, output, document) {
        Ok(report) => Ok(report),
        Err(fault) => Err(Failure::from(fault)),
    }
}
