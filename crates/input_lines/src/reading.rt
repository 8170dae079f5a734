//! Reads an input turn by turn.

ghost use Rattle.std.specs.Prelude.{◌≡◌, ◌+◌, ◌<◌, ◌≤◌, ℕ, length, IfOk, IfSome, OnOk};
ghost use Rattle.input_lines.specs.Answers.{HasNoBreak};
ghost use Rattle.input_lines.specs.Ends.{Reading};
ghost use Rattle.input_lines.specs.Turns.{Comes, IsOver, AreBytesTaken, Channel, Since};
ghost use Rattle.input_lines.specs.Turns.{read_between};
ghost use Rattle.input_lines.specs.Turns.{channel};
ghost use Rattle.input_lines.specs.declared.limits.TheConstants.{INPUT_LIMIT};

use crate::limits::INPUT_LIMIT;
use crate::listener::Listener;
use crate::reading_end::ReadingEnd;
use crate::responder::Responder;
use outside::{Sink, Source};
use std::alloc::Global;

/// How many bytes are read at once at most.
const PIECE: usize = 65_536;

/// Reads an input to its end, or to a line that ends it, and has each line answered as soon as it
/// is whole. All answers to what was read are written before more is read, a put for each 64 KB or
/// so. An input of more than 4,294,967,295 bytes and a line of more than 131,072 end the reading.
pub fn answer_lines<B, R: Responder<B>, S: Source, K: Sink>(
    alloc: Global,
    responder: &mut R,
    beside: &mut B,
    input: &mut S,
    out: &mut K,
) -> ReadingEnd
    requires room { INPUT_LIMIT + 1 ≤ R.room responder.old }
    // What was written is what these lines are answered from here on.
    ensures over { IsOver R.quits
        (λ lines said. R.Leads responder.old beside.old lines said responder.new beside.new)
        (record {
          before = S.left input.old;
          after = S.left input.new;
          faults_before = S.Source.faults input.old;
          faults_after = S.Source.faults input.new;
        }) (K.Sink.faults out.old < K.Sink.faults out.new) (K.written out.old) (K.written out.new)
        result }
    ensures input_count { S.Source.faults input.old ≤ S.Source.faults input.new }
    ensures sink_count { K.Sink.faults out.old ≤ K.Sink.faults out.new }
{
    match zeros(alloc, PIECE) {
        Some(mut piece) => read_all(alloc, responder, beside, input, out, &mut piece),
        None => ReadingEnd::NoMemory,
    }
}

/// So many zeros, unless memory is wanting.
fn zeros(alloc: Global, count: usize) -> Option<Vec<u8>>
    requires { count ≤ 65536 }
    ensures { IfSome result (λ zeros. length zeros.items ≡ count) }
{
    vec![in alloc; 0u8; count].ok()
}

/// Reads an input through a buffer.
fn read_all<B, R: Responder<B>, S: Source, K: Sink>(
    alloc: Global,
    responder: &mut R,
    beside: &mut B,
    input: &mut S,
    out: &mut K,
    buffer: &mut [u8],
) -> ReadingEnd
    requires some { 0 < length buffer.old }
    requires few { length buffer.old ≤ 65536 }
    requires room { INPUT_LIMIT + 1 ≤ R.room responder.old }
    ensures over { IsOver R.quits
        (λ lines said. R.Leads responder.old beside.old lines said responder.new beside.new)
        (record {
          before = S.left input.old;
          after = S.left input.new;
          faults_before = S.Source.faults input.old;
          faults_after = S.Source.faults input.new;
        }) (K.Sink.faults out.old < K.Sink.faults out.new) (K.written out.old) (K.written out.new)
        result }
    ensures input_count { S.Source.faults input.old ≤ S.Source.faults input.new }
    ensures sink_count { K.Sink.faults out.old ≤ K.Sink.faults out.new }
{
    let mut listener = Listener::new(alloc);
    let mut taken = 0u64;
    while taken < INPUT_LIMIT {
        let room = (INPUT_LIMIT - taken).min(buffer.len() as u64) as usize;
        let piece = &mut buffer[..room];
        match listener.take_turn(alloc, responder, beside, input, out, piece) {
            Ok(count) => taken += count as u64,
            Err(ended) => return ended,
        }
    }
    listener.end_at_limit(alloc, responder, beside, input, out)
}

impl Listener {
    /// Reads one piece, and hears it.
    fn take_turn<B, R: Responder<B>, S: Source, K: Sink>(
        &mut self,
        alloc: Global,
        responder: &mut R,
        beside: &mut B,
        input: &mut S,
        out: &mut K,
        piece: &mut [u8],
    ) -> Result<usize, ReadingEnd>
        requires some { 0 < length piece.old }
        requires room { length piece.old + 1 ≤ R.room responder.old }
        requires no_more { HasNoBreak self.old.pending.items }
        ensures comes { (first : R × B) (before begun : Channel) (taken : ℕ)
            → taken + length piece.old ≤ INPUT_LIMIT
            → AreBytesTaken R.quits (Since R.Leads first (responder.old, beside.old)) before
            (channel (K.written out.old) (K.Sink.faults out.old)) self.old
            begun (channel (S.left input.old) (S.Source.faults input.old)) taken
            → Comes R.quits (Since R.Leads first (responder.new, beside.new)) before
            (channel (K.written out.new) (K.Sink.faults out.new)) self.new
            begun (channel (S.left input.new) (S.Source.faults input.new)) taken result }
        ensures some { IfOk result (λ count. 0 < count) }
        ensures few { IfOk result (λ count. count ≤ length piece.old) }
        ensures room { IfOk result (λ count. R.room responder.old ≤ R.room responder.new + count) }
        ensures no_more { OnOk result (HasNoBreak self.new.pending.items) }
        ensures input_count { S.Source.faults input.old ≤ S.Source.faults input.new }
        ensures sink_count { K.Sink.faults out.old ≤ K.Sink.faults out.new }
    {
        match input.read(piece) {
            Ok(0) => Err(self.end(alloc, responder, beside, out)),
            Ok(count) => {
                self.hear(alloc, responder, beside, out, &piece[..count])?;
                Ok(count)
            }
            Err(_) => Err(ReadingEnd::Interrupted),
        }
    }

    /// Looks whether the input goes on where as many bytes were taken as may be.
    fn end_at_limit<B, R: Responder<B>, S: Source, K: Sink>(
        &mut self,
        alloc: Global,
        responder: &mut R,
        beside: &mut B,
        input: &mut S,
        out: &mut K,
    ) -> ReadingEnd
        requires room { 1 ≤ R.room responder.old }
        requires no_more { HasNoBreak self.old.pending.items }
        ensures over { (first : R × B) (before begun : Channel)
            → AreBytesTaken R.quits (Since R.Leads first (responder.old, beside.old)) before
            (channel (K.written out.old) (K.Sink.faults out.old)) self.old
            begun (channel (S.left input.old) (S.Source.faults input.old)) INPUT_LIMIT
            → IsOver R.quits (Since R.Leads first (responder.new, beside.new))
            (read_between begun (channel (S.left input.new) (S.Source.faults input.new)))
            (before.faults < K.Sink.faults out.new) before.bytes (K.written out.new) result }
        ensures input_count { S.Source.faults input.old ≤ S.Source.faults input.new }
        ensures sink_count { K.Sink.faults out.old ≤ K.Sink.faults out.new }
    {
        match input.read(&mut [0u8; 1]) {
            Ok(0) => self.end(alloc, responder, beside, out),
            Ok(_) => ReadingEnd::TooMuch,
            Err(_) => ReadingEnd::Interrupted,
        }
    }
}
