//! Why a call does not do what it was asked for.

ghost use Rattle.std.specs.Prelude.{◌≡◌, ◌++◌, OnOk};
ghost use Rattle.std.specs.String.{string_bytes};
ghost use Rattle.file_loading.specs.declared.failure.Failure.TheVariants.{NoMemory as OutOfMemory};
ghost use Rattle.file_loading.specs.Failures.{document_failure, document_line, document_status};
ghost use Rattle.file_loading.specs.Failures.{failure_of, failure_of_own, fault_line, last_line};
ghost use Rattle.file_loading.specs.Failures.{limit_line, load_line, load_status, status_of};

use document_report::DocumentFault;
use outside::lists::NoMemory;
use own_dictionary::dictionary_swap::LoadFault;
use own_dictionary::personal_words::{OwnFault, OwnWhy};
use std::alloc::{AllocError, AllocFailed};

/// Why a call failed. Lines count from 1.
#[derive(Clone, Copy, Debug, PartialEq, Eq)]
pub enum Failure {
    /// The words are in none of the program's forms.
    Words,
    /// A file is not loaded, or a file of a dictionary has a fault.
    Load(LoadFault),
    /// The personal list has a fault at this line.
    Own { line: u64, why: OwnWhy },
    /// There is no report on the document.
    Document(DocumentFault),
    /// The dictionary has more forms than this.
    ManyForms { limit: u64 },
    /// The file is no script: this is the first line that is not UTF-8, or of no form.
    Script { line: u64 },
    /// The input failed.
    Input,
    /// The input, a line of it or of a script has more bytes than this, or a script loads more
    /// pairs of dictionary files.
    Limit { limit: u64 },
    /// Memory was wanting.
    NoMemory,
}

impl Failure {
    /// The exit status.
    pub fn status(self) -> u8
        ensures { result ≡ status_of self }
    {
        match self {
            Failure::Words => 2,
            Failure::Load(fault) => load_status(fault),
            Failure::Own { .. } => 3,
            Failure::Document(fault) => document_status(fault),
            Failure::ManyForms { .. } => 8,
            Failure::Script { .. } => 4,
            Failure::Input => 5,
            Failure::Limit { .. } => 8,
            Failure::NoMemory => 7,
        }
    }

    /// Adds the last line that is to be written.
    #[tactic(auto, unfolding(crate::specs::Failures::last_line))]
    pub fn push_line(self, text: &mut String) -> Result<(), AllocError>
        ensures { OnOk result (string_bytes text.new ≡ string_bytes text.old ++ last_line self) }
    {
        match self {
            Failure::Words => text.push_str("affedit: words\n"),
            Failure::Load(fault) => push_load_line(text, fault),
            Failure::Own { line, why } => push_fault(text, "own", line, why.name()),
            Failure::Document(fault) => push_document_line(text, fault),
            Failure::ManyForms { limit } => push_limit(text, limit),
            Failure::Script { line } => write!(text, "script {line}\n"),
            Failure::Input => text.push_str("input\n"),
            Failure::Limit { limit } => push_limit(text, limit),
            Failure::NoMemory => text.push_str("memory\n"),
        }
    }
}

fn load_status(fault: LoadFault) -> u8
    ensures { result ≡ load_status fault }
{
    match fault {
        LoadFault::Aff { .. } | LoadFault::Dic { .. } => 3,
        LoadFault::Failed | LoadFault::Missing => 5,
        LoadFault::NoMemory => 7,
        LoadFault::TooLong { .. } => 8,
    }
}

fn document_status(fault: DocumentFault) -> u8
    ensures { result ≡ document_status fault }
{
    match fault {
        DocumentFault::NotUtf8 { .. } => 4,
        DocumentFault::NoMemory => 7,
        DocumentFault::TooManyParagraphs { .. } | DocumentFault::LongParagraph { .. } => 8,
    }
}

fn push_load_line(text: &mut String, fault: LoadFault) -> Result<(), AllocError>
    ensures { OnOk result (string_bytes text.new ≡ string_bytes text.old ++ load_line fault) }
{
    match fault {
        LoadFault::Failed => text.push_str("files\n"),
        LoadFault::Missing => text.push_str("missing\n"),
        LoadFault::TooLong { limit } => push_limit(text, limit),
        LoadFault::Aff { line, why } => push_fault(text, "aff", line, why.name()),
        LoadFault::Dic { line, why } => push_fault(text, "dic", line, why.name()),
        LoadFault::NoMemory => text.push_str("memory\n"),
    }
}

fn push_document_line(text: &mut String, fault: DocumentFault) -> Result<(), AllocError>
    ensures { OnOk result (string_bytes text.new ≡ string_bytes text.old ++ document_line fault) }
{
    match fault {
        DocumentFault::NotUtf8 { line } => write!(text, "doc {line}\n"),
        DocumentFault::TooManyParagraphs { limit } => push_limit(text, limit),
        DocumentFault::LongParagraph { limit } => push_limit(text, limit),
        DocumentFault::NoMemory => text.push_str("memory\n"),
    }
}

/// Adds the line of a fault of a file.
fn push_fault(text: &mut String, file: &str, line: u64, why: &str) -> Result<(), AllocError>
    ensures { OnOk result
        (string_bytes text.new ≡ string_bytes text.old ++ fault_line file.now line why.now) }
{
    write!(text, "{file} {line} {why}\n")
}

/// Adds the line of a limit that is passed.
fn push_limit(text: &mut String, limit: u64) -> Result<(), AllocError>
    ensures { OnOk result (string_bytes text.new ≡ string_bytes text.old ++ limit_line limit) }
{
    write!(text, "limit {limit}\n")
}

impl From<LoadFault> for Failure {
    ghost from_gives = { λ fault failure. failure ≡ failure_of fault };

    fn from(fault: LoadFault) -> Failure {
        match fault {
            LoadFault::NoMemory => Failure::NoMemory,
            other => Failure::Load(other),
        }
    }
}

impl From<OwnFault> for Failure {
    ghost from_gives = { λ fault failure. failure ≡ failure_of_own fault };

    fn from(fault: OwnFault) -> Failure {
        match fault {
            OwnFault::At { line, why } => Failure::Own { line, why },
            OwnFault::NoMemory => Failure::NoMemory,
        }
    }
}

impl From<DocumentFault> for Failure {
    ghost from_gives = { λ fault failure. failure ≡ document_failure fault };

    fn from(fault: DocumentFault) -> Failure {
        match fault {
            DocumentFault::NoMemory => Failure::NoMemory,
            other => Failure::Document(other),
        }
    }
}

impl From<NoMemory> for Failure {
    ghost from_gives = { λ _ failure. failure ≡ OutOfMemory };

    fn from(_wanting: NoMemory) -> Failure {
        Failure::NoMemory
    }
}

impl<T: Drop> From<AllocFailed<T>> for Failure {
    ghost from_gives = { λ _ failure. failure ≡ OutOfMemory };

    fn from(_wanting: AllocFailed<T>) -> Failure {
        Failure::NoMemory
    }
}
