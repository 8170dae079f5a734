//! What `edit` is asked for, and what it does: it opens a console over a desk by a dictionary, which
//! replies to the commands that are read, beside workers.

ghost use Rattle.std.specs.Prelude.{◌≡◌, ◌<◌, ◌≤◌, ℕ, Option, Some, true};
ghost use Rattle.outside.specs.Files.{Folder};
ghost use Rattle.file_loading.specs.Ends.{EndsAs};
ghost use Rattle.console_board.specs.Transcripts.{is_quit};
ghost use Rattle.line_forms.specs.Dialogues.{AreReplied};
ghost use Rattle.line_forms.specs.Forms.{edit_form, IsDialogue};
ghost use Rattle.file_loading.specs.Forms.{IsAnswerBy, IsClosedAfter};

use crate::dialogue::converse;
use crate::ending::end_of;
use board_share::Closed;
use console_board::quits_are_short;
use file_loading::{DictionaryNames, End, Ended, SINK_FAILED, Workers, load_dictionary, put_end};
use input_lines::fitting_inputs_are_read;
use outside::{Files, Gate, Sink, Source};
use own_dictionary::OwnDictionary;
use std::sync::Wait;
use std::thread::Threads;
use word_verdict::Speller;
use worker_crew::Workplace;

/// Opens a console over a desk by a dictionary, and replies to the commands that are read until
/// `quit` or the end of the input, while so many workers check beside it.
pub fn edit<R, F, S, K, G>(
    place: &Workplace<'_, R, G>,
    names: DictionaryNames<'_>,
    workers: Workers,
    files: &mut F,
    input: &mut S,
    out: &mut K,
) -> Ended<Closed<Speller>>
where
    R: Threads + Wait + Sync,
    F: Files,
    S: Source,
    K: Sink,
    G: Gate + Sync,
    ensures due { EndsAs (IsAnswerBy true (edit_form names.entry workers) (record {
      folder = F.told files.old;
      files_before = F.Files.faults files.old;
      files_after = F.Files.faults files.new;
      reading = record {
        before = S.left input.old;
        after = S.left input.new;
        faults_before = S.Source.faults input.old;
        faults_after = S.Source.faults input.new;
      };
      closed = result.closed;
    })) (K.Sink.faults out.old < K.Sink.faults out.new) (K.written out.old) (K.written out.new)
        result.status }
    ensures complete { K.Sink.faults out.new ≡ K.Sink.faults out.old
        → EndsAs ((edit_form names.entry workers).whole (record {
          folder = F.told files.old;
          files_before = F.Files.faults files.old;
          files_after = F.Files.faults files.new;
          reading = record {
            before = S.left input.old;
            after = S.left input.new;
            faults_before = S.Source.faults input.old;
            faults_after = S.Source.faults input.new;
          };
          closed = result.closed;
        })) ⊥ (K.written out.old) (K.written out.new) result.status }
    ensures closed { IsClosedAfter true result.status result.closed }
    ensures same { F.told files.new ≡ F.told files.old }
    ensures files_count { F.Files.faults files.old ≤ F.Files.faults files.new }
    ensures input_count { S.Source.faults input.old ≤ S.Source.faults input.new }
    ensures sink_count { K.Sink.faults out.old ≤ K.Sink.faults out.new }
{
    fitting_inputs_are_read();
    quits_are_short();
    match load_dictionary(place.alloc, files, &names) {
        Ok(dictionary) => talk(place, dictionary, workers, files, input, out),
        Err(failure) => Ended {
            status: put_end(place.alloc, out, End::Failed(failure)),
            closed: None,
        },
    }
}

/// Lets a console that opens by a dictionary reply to the lines of the input, and writes how it ends.
fn talk<R, F, S, K, G>(
    place: &Workplace<'_, R, G>,
    dictionary: OwnDictionary,
    workers: Workers,
    files: &mut F,
    input: &mut S,
    out: &mut K,
) -> Ended<Closed<Speller>>
where
    R: Threads + Wait + Sync,
    F: Files,
    S: Source,
    K: Sink,
    G: Gate + Sync,
    // The files may have failed before.
    ensures dialogue { (folder : Option Folder) (files_before : ℕ) → folder ≡ F.told files.old
        → files_before ≤ F.Files.faults files.old
        → EndsAs (IsDialogue (record {
          before = S.left input.old;
          after = S.left input.new;
          faults_before = S.Source.faults input.old;
          faults_after = S.Source.faults input.new;
        }) is_quit (AreReplied (record {
          workers = workers;
          dictionary = dictionary;
          folder = folder;
          failed = files_before;
          failed_now = F.Files.faults files.new;
        }) result.closed)) (K.Sink.faults out.old < K.Sink.faults out.new)
        (K.written out.old) (K.written out.new) result.status }
    ensures closed { IsClosedAfter true result.status result.closed }
    ensures same { F.told files.new ≡ F.told files.old }
    ensures files_count { F.Files.faults files.old ≤ F.Files.faults files.new }
    ensures input_count { S.Source.faults input.old ≤ S.Source.faults input.new }
    ensures sink_count { K.Sink.faults out.old ≤ K.Sink.faults out.new }
{
    let count = workers.count() as u32;
    let done = converse(place, count, dictionary, files, input, out);
    match end_of(done.ended) {
        Some(end) => Ended {
            status: put_end(place.alloc, out, end),
            closed: done.closed,
        },
        None => Ended {
            status: SINK_FAILED,
            closed: done.closed,
        },
    }
}
