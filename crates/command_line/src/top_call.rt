//! The top call: what the program does, from its words to its exit status.

ghost use Rattle.std.specs.Prelude.{◌≡◌, ℕ, ◌<◌, ◌≤◌, ◌⊎◌, map, Option, None};
ghost use Rattle.std.specs.String.{string_bytes};
ghost use Rattle.outside.specs.Files.{Folder};
ghost use Rattle.outside.specs.Sink.{Appends};
ghost use Rattle.input_lines.specs.Ends.{Reading};
ghost use Rattle.file_loading.specs.Ends.{EndsAs, sink_status};
ghost use Rattle.file_loading.specs.Failures.{last_line};
ghost use Rattle.command_line.specs.Forms.{IsAnswerTo, command_form_of, without_input};
ghost use Rattle.file_loading.specs.Forms.{IsClosedAfter, IsUntouched, Met};
ghost use Rattle.command_line.specs.Requests.{asked_in};
ghost use Rattle.file_loading.specs.declared.failure.Failure.TheVariants.{Load};
ghost use Rattle.dictionary_swap.specs.declared.fault.LoadFault.TheVariants.{Missing};

use crate::requests::{Request, request_of};
use board_share::Closed;
use file_loading::{End, Ended, Failure, put_end};
use line_forms::edit::edit;
use line_forms::pipe::pipe;
use outside::{Files, Gate, Sink, Source};
use report_forms::check::check;
use report_forms::listing::list_forms;
use report_forms::make::make;
use std::alloc::Global;
use std::sync::Wait;
use std::thread::Threads;
use team_forms::team::team;
use word_verdict::Speller;
use worker_crew::Workplace;

/// Does what the words ask for, and tells how it ended. `words` are the arguments without the
/// program's name; everything that is printed goes to `out`. Each check of a worker passes the gate.
pub fn run<R, F, S, K, G>(
    rt: &R,
    alloc: Global,
    words: &[String],
    files: &mut F,
    input: &mut S,
    out: &mut K,
    gate: &G,
) -> Ended<Closed<Speller>>
where
    R: Threads + Wait + Sync,
    F: Files + Send,
    S: Source + Send,
    K: Sink + Send,
    G: Gate + Sync,
    // What was written and the status are what the words may be answered by what is met outside.
    ensures due { EndsAs (IsAnswerTo (asked_in (map string_bytes words.now)) (record {
      folder = F.told files.old;
      files_before = F.Files.faults files.old;
      files_after = F.Files.faults files.new;
      reading = record {
        before = S.left input.old;
        after = S.left input.new;
        faults_before = S.Source.faults input.old;
        faults_after = S.Source.faults input.new;
      };
      closed = result.closed;
    })) (K.Sink.faults out.old < K.Sink.faults out.new) (K.written out.old) (K.written out.new)
        result.status }

    // If the sink does not fail, the answer is whole as the form of the words says: where nothing
    // else fails and no limit is passed, all is printed, or memory was wanting.
    ensures complete { K.Sink.faults out.new ≡ K.Sink.faults out.old
        → EndsAs ((command_form_of (asked_in (map string_bytes words.now))).whole (record {
          folder = F.told files.old;
          files_before = F.Files.faults files.old;
          files_after = F.Files.faults files.new;
          reading = record {
            before = S.left input.old;
            after = S.left input.new;
            faults_before = S.Source.faults input.old;
            faults_after = S.Source.faults input.new;
          };
          closed = result.closed;
        })) ⊥ (K.written out.old) (K.written out.new) result.status }

    // The history of a desk is told exactly where the words open one and the status is 0.
    ensures closed { IsClosedAfter (command_form_of (asked_in (map string_bytes words.now))).opens_desk
        result.status result.closed }

    // What a reader may take from these alone, whatever is told.
    ensures no_form { result.status ≡ 2 → asked_in (map string_bytes words.now) ≡ None }
    ensures failed { result.status ≡ 5 → (F.Files.faults files.old < F.Files.faults files.new)
        ⊎ ((S.Source.faults input.old < S.Source.faults input.new)
        ⊎ Appends (K.written out.old) (K.written out.new) (last_line (Load Missing))) }
    ensures sink { result.status ≡ sink_status → K.Sink.faults out.old < K.Sink.faults out.new }

    // What stays.
    ensures same { F.told files.new ≡ F.told files.old }
    ensures input_count { S.Source.faults input.old ≤ S.Source.faults input.new }
    ensures files_count { F.Files.faults files.old ≤ F.Files.faults files.new }
    ensures sink_count { K.Sink.faults out.old ≤ K.Sink.faults out.new }
{
    let place = Workplace { rt, alloc, gate };
    answer(&place, request_of(words), files, input, out)
}

/// Does what a request asks for, and answers 2 where words ask for nothing.
fn answer<R, F, S, K, G>(
    place: &Workplace<'_, R, G>,
    request: Option<Request<'_>>,
    files: &mut F,
    input: &mut S,
    out: &mut K,
) -> Ended<Closed<Speller>>
where
    R: Threads + Wait + Sync,
    F: Files,
    S: Source,
    K: Sink,
    G: Gate + Sync,
    ensures due { EndsAs (IsAnswerTo request.entry (record {
      folder = F.told files.old;
      files_before = F.Files.faults files.old;
      files_after = F.Files.faults files.new;
      reading = record {
        before = S.left input.old;
        after = S.left input.new;
        faults_before = S.Source.faults input.old;
        faults_after = S.Source.faults input.new;
      };
      closed = result.closed;
    })) (K.Sink.faults out.old < K.Sink.faults out.new) (K.written out.old) (K.written out.new)
        result.status }
    ensures complete { K.Sink.faults out.new ≡ K.Sink.faults out.old
        → EndsAs ((command_form_of request.entry).whole (record {
          folder = F.told files.old;
          files_before = F.Files.faults files.old;
          files_after = F.Files.faults files.new;
          reading = record {
            before = S.left input.old;
            after = S.left input.new;
            faults_before = S.Source.faults input.old;
            faults_after = S.Source.faults input.new;
          };
          closed = result.closed;
        })) ⊥ (K.written out.old) (K.written out.new) result.status }
    ensures closed { IsClosedAfter (command_form_of request.entry).opens_desk result.status result.closed }
    ensures same { F.told files.new ≡ F.told files.old }
    ensures input_count { S.Source.faults input.old ≤ S.Source.faults input.new }
    ensures files_count { F.Files.faults files.old ≤ F.Files.faults files.new }
    ensures sink_count { K.Sink.faults out.old ≤ K.Sink.faults out.new }
{
    let (rt, alloc) = (place.rt, place.alloc);
    match request {
        Some(Request::Check { names, workers }) => {
            told(check(rt, alloc, names, workers, files, out))
        }
        Some(Request::Make(making)) => told(make(rt, alloc, making, out)),
        Some(Request::Edit { names, workers }) => edit(place, names, workers, files, input, out),
        Some(Request::Listing(names)) => told(list_forms(alloc, names, files, out)),
        Some(Request::Pipe(names)) => told(pipe(alloc, names, files, input, out)),
        Some(Request::Team { names, workers }) => team(place, names, workers, files, out),
        None => told(tell_words(alloc, out)),
    }
}

/// The end of a call that opens no desk.
fn told(status: u8) -> Ended<Closed<Speller>>
    ensures status { result.status ≡ status }
    ensures closed { result.closed ≡ None }
{
    Ended {
        status,
        closed: None,
    }
}

/// Does all of `check`, `make` and `forms`, and answers 2 for other words. It always returns.
pub fn run_check<R, F, K>(rt: &R, alloc: Global, words: &[String], files: &mut F, out: &mut K) -> u8
where
    R: Threads + Sync,
    F: Files,
    K: Sink,
    // What was written and the status are what the words may be answered by what is met outside,
    // without an input.
    ensures due { EndsAs
        (IsAnswerTo (without_input (asked_in (map string_bytes words.now))) (record {
          folder = F.told files.old;
          files_before = F.faults files.old;
          files_after = F.faults files.new;
          reading = record { before = None; after = None; faults_before = 0; faults_after = 0 };
          closed = None;
        })) (K.faults out.old < K.faults out.new) (K.written out.old) (K.written out.new) result }

    // If the sink does not fail, the answer is whole as the form of the words says.
    ensures complete { K.faults out.new ≡ K.faults out.old
        → EndsAs ((command_form_of (without_input (asked_in (map string_bytes words.now)))).whole (record {
          folder = F.told files.old;
          files_before = F.faults files.old;
          files_after = F.faults files.new;
          reading = record { before = None; after = None; faults_before = 0; faults_after = 0 };
          closed = None;
        })) ⊥ (K.written out.old) (K.written out.new) result }

    // What a reader may take from these alone, whatever is told.
    ensures no_form { result ≡ 2 → without_input (asked_in (map string_bytes words.now)) ≡ None }
    ensures files { result ≡ 5 → (F.faults files.old < F.faults files.new)
        ⊎ Appends (K.written out.old) (K.written out.new) (last_line (Load Missing)) }
    ensures sink { result ≡ sink_status → K.faults out.old < K.faults out.new }

    // What stays.
    ensures same { F.told files.new ≡ F.told files.old }
    ensures files_count { F.faults files.old ≤ F.faults files.new }
    ensures sink_count { K.faults out.old ≤ K.faults out.new }
{
    answer_unread(rt, alloc, request_of(words), files, out)
}

/// Does what a request asks for that does without an input, and answers 2 to others, as where words
/// ask for nothing.
fn answer_unread<R: Threads + Sync, F: Files, K: Sink>(
    rt: &R,
    alloc: Global,
    request: Option<Request<'_>>,
    files: &mut F,
    out: &mut K,
) -> u8
    // Whatever there is of an input, which stays untouched.
    ensures due { (reading : Reading) → IsUntouched reading
        → EndsAs (IsAnswerTo (without_input request.entry) (record {
          folder = F.told files.old;
          files_before = F.faults files.old;
          files_after = F.faults files.new;
          reading = reading;
          closed = None;
        })) (K.faults out.old < K.faults out.new) (K.written out.old) (K.written out.new) result }
    ensures complete { (reading : Reading) → K.faults out.new ≡ K.faults out.old
        → EndsAs ((command_form_of (without_input request.entry)).whole (record {
          folder = F.told files.old;
          files_before = F.faults files.old;
          files_after = F.faults files.new;
          reading = reading;
          closed = None;
        })) ⊥ (K.written out.old) (K.written out.new) result }
    ensures same { F.told files.new ≡ F.told files.old }
    ensures files_count { F.faults files.old ≤ F.faults files.new }
    ensures sink_count { K.faults out.old ≤ K.faults out.new }
{
    match request {
        Some(Request::Check { names, workers }) => check(rt, alloc, names, workers, files, out),
        Some(Request::Make(making)) => make(rt, alloc, making, out),
        Some(Request::Listing(names)) => list_forms(alloc, names, files, out),
        Some(Request::Edit { .. }) => tell_words(alloc, out),
        Some(Request::Pipe(_)) => tell_words(alloc, out),
        Some(Request::Team { .. }) => tell_words(alloc, out),
        None => tell_words(alloc, out),
    }
}

/// Tells that the words are of no form.
fn tell_words<K: Sink>(alloc: Global, out: &mut K) -> u8
    // Whatever there is outside, which stays untouched.
    ensures due { (folder : Option Folder) (files : ℕ) (reading : Reading) → IsUntouched reading
        → EndsAs (IsAnswerTo None (record {
          folder = folder;
          files_before = files;
          files_after = files;
          reading = reading;
          closed = None;
        })) (K.faults out.old < K.faults out.new) (K.written out.old) (K.written out.new) result }
    ensures complete { (met : Met) → K.faults out.new ≡ K.faults out.old
        → EndsAs ((command_form_of None).whole met) ⊥ (K.written out.old) (K.written out.new) result }
    ensures sink_count { K.faults out.old ≤ K.faults out.new }
{
    put_end(alloc, out, End::Failed(Failure::Words))
}
