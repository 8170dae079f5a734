//! What `forms` is asked for, and what it is to print: the forms of a dictionary.

ghost use Rattle.std.specs.Prelude.{◌≡◌, true, ◌++◌, ◌<◌, ◌≤◌, IfOk, IsErrOf, OnOk};
ghost use Rattle.std.specs.Prelude.{encode_utf8_all};
ghost use Rattle.std.specs.String.{string_bytes};
ghost use Rattle.outside.specs.lists.Answers.{GivesDue};
ghost use Rattle.spell_types.specs.Sanity.{IsSane};
ghost use Rattle.console_board.specs.Transcripts.{IsThere};
ghost use Rattle.dictionary_swap.specs.Loads.{DictionaryFiles};
ghost use Rattle.dictionary_swap.specs.declared.fault.LoadFault.TheVariants.{Failed};
ghost use Rattle.document_report.specs.Given.{printed_by};
ghost use Rattle.input_lines.specs.Ends.{Reading};
ghost use Rattle.file_loading.specs.Due.{MayCome};
ghost use Rattle.report_forms.specs.Due.{forms_due, listing_due};
ghost use Rattle.file_loading.specs.Ends.{EndsAs};
ghost use Rattle.report_forms.specs.Forms.{listing_form};
ghost use Rattle.file_loading.specs.Forms.{IsAnswerBy, IsUntouched};
ghost use Rattle.report_forms.specs.Listings.{failure_of_forms, form_line, form_lines, listing};
ghost use Rattle.file_loading.specs.declared.failure.Failure.TheVariants.{Load};

use crate::limits::MOST_FORMS;
use crate::printing::put_outcome;
use affix_strip::Stems;
use document_report::Report;
use file_loading::{Failure, load_base};
use form_lister::{FormsFault, forms};
use outside::lists::NoMemory;
use outside::{Files, Sink};
use spell_types::{Chars, Lexicon};
use std::alloc::{AllocError, Global};
use std::marker::Model;

/// The files that the words `forms AFF DIC` name. Contracts see their names.
#[derive(Drop)]
pub struct ListedNames<'a> {
    pub aff: &'a str,
    pub dic: &'a str,
}

impl<'a> Model for ListedNames<'a> {
    ghost use Rattle.report_forms.specs.Operands.{ListedFiles};

    ghost Value = { ListedFiles };

    ghost view = { λ inside. record { aff = inside.aff.now; dic = inside.dic.now } };
}

/// Writes the forms of a dictionary.
pub fn list_forms<F: Files, K: Sink>(
    alloc: Global,
    names: ListedNames<'_>,
    files: &mut F,
    out: &mut K,
) -> u8
    // Whatever there is of an input, which stays untouched.
    ensures due { (reading : Reading) → IsUntouched reading
        → EndsAs (IsAnswerBy true (listing_form names.entry) (record {
          folder = F.told files.old;
          files_before = F.faults files.old;
          files_after = F.faults files.new;
          reading = reading;
          closed = None;
        })) (K.faults out.old < K.faults out.new) (K.written out.old) (K.written out.new) result }
    ensures complete { (reading : Reading) → K.faults out.new ≡ K.faults out.old
        → EndsAs ((listing_form names.entry).whole (record {
          folder = F.told files.old;
          files_before = F.faults files.old;
          files_after = F.faults files.new;
          reading = reading;
          closed = None;
        })) ⊥ (K.written out.old) (K.written out.new) result }
    ensures same { F.told files.new ≡ F.told files.old }
    ensures files_count { F.faults files.old ≤ F.faults files.new }
    ensures sink_count { K.faults out.old ≤ K.faults out.new }
{
    let outcome = outcome_of(alloc, names, files);
    put_outcome(alloc, out, outcome)
}

/// The listing of a dictionary, or what stops it first.
fn outcome_of<F: Files>(
    alloc: Global,
    names: ListedNames<'_>,
    files: &mut F,
) -> Result<Report, Failure>
    // It is what is due of some files, which are those that are told, where some are.
    ensures due { (there : DictionaryFiles)
        × IsThere (F.told files.old) names.entry.aff names.entry.dic there
        × GivesDue MayCome printed_by (forms_due there) result }
    ensures failed { IsErrOf result (Load Failed) → F.faults files.old < F.faults files.new }
    ensures same { F.told files.new ≡ F.told files.old }
    ensures count { F.faults files.old ≤ F.faults files.new }
{
    let base = load_base(alloc, files, names.aff, names.dic)?;
    listing_by(alloc, base)
}

/// The listing of a dictionary, of which its tables are made first.
fn listing_by(alloc: Global, base: Lexicon) -> Result<Report, Failure>
    requires { IsSane base }
    ensures due { GivesDue MayCome printed_by (listing_due base) result }
    ensures failed { ¬ (IsErrOf result (Load Failed)) }
{
    let stems = Stems::new(alloc, base)?;
    listing_from(alloc, &stems)
}

/// The listing of a dictionary, if it has no more forms than are listed.
fn listing_from(alloc: Global, stems: &Stems) -> Result<Report, Failure>
    ensures due { GivesDue MayCome printed_by (listing_due stems.now) result }
    ensures failed { ¬ (IsErrOf result (Load Failed)) }
{
    match forms(alloc, stems, MOST_FORMS) {
        Ok(words) => Ok(printed(alloc, &words)?),
        Err(fault) => Err(failure_of_forms(fault)),
    }
}

/// Why a call fails by which forms are not listed.
fn failure_of_forms(fault: FormsFault) -> Failure
    ensures { result ≡ failure_of_forms fault }
{
    match fault {
        FormsFault::TooMany { limit } => Failure::ManyForms { limit },
        FormsFault::NoMemory => Failure::NoMemory,
    }
}

/// Forms as they are printed, and how many they are.
fn printed(alloc: Global, words: &[Chars]) -> Result<Report, NoMemory>
    ensures { IfOk result (λ report. printed_by report ≡ listing words.now) }
{
    let count = words.len() as u64;
    let mut text = String::new(alloc);
    push_forms(&mut text, words)?;
    write!(text, "{count} forms\n")?;
    Ok(Report {
        text,
        marks: 0,
        words: count,
    })
}

fn push_forms(text: &mut String, words: &[Chars]) -> Result<(), AllocError>
    ensures { OnOk result (string_bytes text.new ≡ string_bytes text.old ++ form_lines words.now) }
{
    for word in words {
        push_form(text, word)?;
    }
    Ok(())
}

fn push_form(text: &mut String, word: &[char]) -> Result<(), AllocError>
    ensures { OnOk result (string_bytes text.new ≡ string_bytes text.old ++ form_line word.now) }
{
    push_characters(text, word)?;
    text.push_str("\n")
}

fn push_characters(text: &mut String, characters: &[char]) -> Result<(), AllocError>
    ensures { OnOk result
        (string_bytes text.new ≡ string_bytes text.old ++ encode_utf8_all characters.now) }
{
    for c in characters {
        text.push(*c)?;
    }
    Ok(())
}
