//! What `pipe` is asked for, and what it does: it answers the lines of its input by the words in
//! them, one after another.

ghost use Rattle.std.specs.Prelude.{◌≡◌, true, ◌<◌, ◌≤◌, Some, None};
ghost use Rattle.pipe_mode.specs.Pipes.{ends_input, opened, pipe_answers};
ghost use Rattle.file_loading.specs.Ends.{EndsAs};
ghost use Rattle.line_forms.specs.Forms.{pipe_form, IsDialogue};
ghost use Rattle.file_loading.specs.Forms.{IsAnswerBy};

use crate::ending::end_of;
use file_loading::{DictionaryNames, End, Failure, SINK_FAILED, load_unextended, put_end};
use input_lines::{answer_lines, fitting_inputs_are_read};
use outside::lists::NoMemory;
use outside::{Files, Sink, Source};
use pipe_mode::Pipe;
use std::alloc::Global;

/// Answers the lines that are read, to the end of the input, by a dictionary. It takes no personal list.
pub fn pipe<F: Files, S: Source, K: Sink>(
    alloc: Global,
    names: DictionaryNames<'_>,
    files: &mut F,
    input: &mut S,
    out: &mut K,
) -> u8
    ensures due { EndsAs (IsAnswerBy true (pipe_form names.entry) (record {
      folder = F.told files.old;
      files_before = F.Files.faults files.old;
      files_after = F.Files.faults files.new;
      reading = record {
        before = S.left input.old;
        after = S.left input.new;
        faults_before = S.Source.faults input.old;
        faults_after = S.Source.faults input.new;
      };
      closed = None;
    })) (K.Sink.faults out.old < K.Sink.faults out.new) (K.written out.old) (K.written out.new)
        result }
    ensures complete { K.Sink.faults out.new ≡ K.Sink.faults out.old
        → EndsAs ((pipe_form names.entry).whole (record {
          folder = F.told files.old;
          files_before = F.Files.faults files.old;
          files_after = F.Files.faults files.new;
          reading = record {
            before = S.left input.old;
            after = S.left input.new;
            faults_before = S.Source.faults input.old;
            faults_after = S.Source.faults input.new;
          };
          closed = None;
        })) ⊥ (K.written out.old) (K.written out.new) result }
    ensures same { F.told files.new ≡ F.told files.old }
    ensures files_count { F.Files.faults files.old ≤ F.Files.faults files.new }
    ensures input_count { S.Source.faults input.old ≤ S.Source.faults input.new }
    ensures sink_count { K.Sink.faults out.old ≤ K.Sink.faults out.new }
{
    fitting_inputs_are_read();
    match load_unextended(alloc, files, &names) {
        Ok(speller) => match Pipe::open(alloc, &speller) {
            Ok(mut pipe) => answer_input(alloc, &mut pipe, input, out),
            Err(NoMemory) => put_end(alloc, out, End::Failed(Failure::NoMemory)),
        },
        Err(failure) => put_end(alloc, out, End::Failed(failure)),
    }
}

/// Answers the lines of an input, and writes how it ends.
fn answer_input<S: Source, K: Sink>(
    alloc: Global,
    pipe: &mut Pipe<'_>,
    input: &mut S,
    out: &mut K,
) -> u8
    requires { pipe.old ≡ opened pipe.old.lexicon }
    ensures dialogue { EndsAs (IsDialogue (record {
      before = S.left input.old;
      after = S.left input.new;
      faults_before = S.Source.faults input.old;
      faults_after = S.Source.faults input.new;
    }) ends_input (λ lines said. said ≡ pipe_answers pipe.old.lexicon lines))
        (K.Sink.faults out.old < K.Sink.faults out.new) (K.written out.old) (K.written out.new)
        result }
    ensures input_count { S.Source.faults input.old ≤ S.Source.faults input.new }
    ensures sink_count { K.Sink.faults out.old ≤ K.Sink.faults out.new }
{
    let ended = answer_lines(alloc, pipe, &mut (), input, out);
    match end_of(ended) {
        Some(end) => put_end(alloc, out, end),
        None => SINK_FAILED,
    }
}
