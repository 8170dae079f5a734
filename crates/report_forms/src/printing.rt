//! The writing of a report, or of why there is none.

ghost use Rattle.std.specs.Prelude.{◌<◌, ◌≤◌, ◌++◌, Ok};
ghost use Rattle.std.specs.String.{string_bytes};
ghost use Rattle.file_loading.specs.Ends.{IsOrWanting, IsPut, status_at, tail_of};
ghost use Rattle.report_forms.specs.Given.{end_by, text_by};

use document_report::Report;
use file_loading::{End, Failure, put, put_line};
use outside::Sink;
use std::alloc::Global;

/// Writes a report, or the last line that tells why there is none, and gives the exit status.
pub fn put_outcome<K: Sink>(alloc: Global, out: &mut K, outcome: Result<Report, Failure>) -> u8
    ensures puts { (end : End) × IsOrWanting (end_by outcome) end
        × IsPut (status_at end) (text_by outcome ++ tail_of end)
        (K.faults out.old < K.faults out.new) (K.written out.old) (K.written out.new) result }
    ensures count { K.faults out.old ≤ K.faults out.new }
{
    match outcome {
        Ok(report) => put_report(out, &report),
        Err(failure) => put_line(alloc, out, failure),
    }
}

fn put_report<K: Sink>(out: &mut K, report: &Report) -> u8
    ensures puts { IsPut (status_at (end_by (Ok report.now))) (string_bytes report.now.text)
        (K.faults out.old < K.faults out.new)
        (K.written out.old) (K.written out.new) result }
    ensures count { K.faults out.old ≤ K.faults out.new }
{
    let end = if report.marks == 0 {
        End::Quiet
    } else {
        End::Marked
    };
    put(out, report.text.as_bytes(), end.status())
}
