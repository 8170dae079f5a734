//! What hears an input piece by piece, and has each line answered as soon as it is whole.

ghost use Rattle.std.specs.Prelude.{◌≡◌, ◌+◌, ◌≤◌, ◌++◌, [], List, ℕ, true, false, length, OnOk};
ghost use Rattle.std.specs.Prelude.{IfErr};
ghost use Rattle.std.specs.String.{string_bytes};
ghost use Rattle.input_lines.specs.Answers.{HasNoBreak};
ghost use Rattle.input_lines.specs.Lines.{unmarked};
ghost use Rattle.input_lines.specs.Turns.{IsHeardAs, IsNotKept, IsReadingUnderWay, PutLeaves};
ghost use Rattle.input_lines.specs.Turns.{Channel};
ghost use Rattle.input_lines.specs.Turns.{Since, Stops, Turns, line_heard_with, channel, midway};
ghost use Rattle.input_lines.specs.declared.limits.TheConstants.{INPUT_LIMIT};

use crate::limits::LINE_LIMIT;
use crate::pieces::{piece_text, split_line, unmarked};
use crate::reading_end::ReadingEnd;
use crate::responder::{Flow, Responder};
use outside::Sink;
use outside::lists::NoMemory;
use std::alloc::Global;
use std::mem;

/// How many bytes of answers are gathered before they are written.
const MANY: usize = 65_536;

/// What was heard of a line that is not whole yet, and what is not written yet.
#[derive(Drop)]
pub struct Listener {
    /// The bytes behind the last line feed.
    pub pending: Vec<u8>,
    /// Whether no line feed has come yet: a byte order mark may stand before the first line.
    pub is_first: bool,
    /// Answers that are not written yet.
    pub answers: String,
}

impl Listener {
    /// Nothing was heard.
    pub fn new(alloc: Global) -> Listener
        ensures pending { result.pending.items ≡ [] }
        ensures first { result.is_first ≡ true }
        ensures answers { string_bytes result.answers ≡ [] }
    {
        Listener {
            pending: Vec::new(alloc),
            is_first: true,
            answers: String::new(alloc),
        }
    }

    /// Hears the next bytes of an input: the lines that are whole with them are answered, and the
    /// answers are written.
    pub fn hear<B, R: Responder<B>, K: Sink>(
        &mut self,
        alloc: Global,
        responder: &mut R,
        beside: &mut B,
        out: &mut K,
        piece: &[u8],
    ) -> Result<(), ReadingEnd>
        requires no_more { HasNoBreak self.old.pending.items }
        requires room { length piece.now ≤ R.room responder.old }
        ensures hears { IsHeardAs R.quits R.Leads
            (midway (responder.old, beside.old) (channel (K.written out.old) (K.faults out.old))
            self.old)
            (midway (responder.new, beside.new) (channel (K.written out.new) (K.faults out.new))
            self.new)
            piece.now result }
        ensures empty { string_bytes self.new.answers ≡ [] }
        ensures no_more { OnOk result (HasNoBreak self.new.pending.items) }
        ensures room { R.room responder.old ≤ R.room responder.new + length piece.now }
        ensures count { K.faults out.old ≤ K.faults out.new }
    {
        let heard = self.hear_lines(alloc, responder, beside, out, piece);
        self.put_all(out)?;
        heard
    }

    /// Hears that the input is at its end: a last line without a line feed is answered, and the
    /// answer is written.
    pub fn end<B, R: Responder<B>, K: Sink>(
        &mut self,
        alloc: Global,
        responder: &mut R,
        beside: &mut B,
        out: &mut K,
    ) -> ReadingEnd
        requires room { 1 ≤ R.room responder.old }
        requires no_more { HasNoBreak self.old.pending.items }
        ensures ends { (first : R × B) (before : Channel) (heard : List ℕ)
            → length heard ≤ INPUT_LIMIT
            → IsReadingUnderWay R.quits (Since R.Leads first (responder.old, beside.old)) before
            (channel (K.written out.old) (K.faults out.old)) self.old heard
            → Stops R.quits (Since R.Leads first (responder.new, beside.new)) before
            (channel (K.written out.new) (K.faults out.new)) (string_bytes self.new.answers) heard
            result }
        ensures empty { string_bytes self.new.answers ≡ [] }
        ensures count { K.faults out.old ≤ K.faults out.new }
    {
        let ended = self.end_input(alloc, responder, beside);
        match self.put_all(out) {
            Ok(()) => ended,
            Err(failed) => failed,
        }
    }

    /// Hears the next bytes of an input. The answers to the last lines are gathered.
    fn hear_lines<B, R: Responder<B>, K: Sink>(
        &mut self,
        alloc: Global,
        responder: &mut R,
        beside: &mut B,
        out: &mut K,
        piece: &[u8],
    ) -> Result<(), ReadingEnd>
        requires no_more { HasNoBreak self.old.pending.items }
        requires room { length piece.now ≤ R.room responder.old }
        ensures hears { IsHeardAs R.quits R.Leads
            (midway (responder.old, beside.old) (channel (K.written out.old) (K.faults out.old))
            self.old)
            (midway (responder.new, beside.new) (channel (K.written out.new) (K.faults out.new))
            self.new)
            piece.now result }
        ensures no_more { OnOk result (HasNoBreak self.new.pending.items) }
        ensures room { R.room responder.old ≤ R.room responder.new + length piece.now }
        ensures count { K.faults out.old ≤ K.faults out.new }
    {
        let mut rest = piece;
        while let Some((bytes, behind)) = split_line(rest) {
            self.end_line(alloc, responder, beside, bytes)?;
            self.put_many(out)?;
            rest = behind;
        }
        self.keep(rest)
    }

    /// Answers a last line without a line feed, if there is one.
    fn end_input<B, R: Responder<B>>(
        &mut self,
        alloc: Global,
        responder: &mut R,
        beside: &mut B,
    ) -> ReadingEnd
        requires room { 1 ≤ R.room responder.old }
        requires no_more { HasNoBreak self.old.pending.items }
        ensures ends { (first : R × B) (before now : Channel) (heard : List ℕ)
            → length heard ≤ INPUT_LIMIT
            → IsReadingUnderWay R.quits (Since R.Leads first (responder.old, beside.old)) before now
            self.old heard
            → Stops R.quits (Since R.Leads first (responder.new, beside.new)) before now
            (string_bytes self.new.answers) heard result }
    {
        if unmarked(&self.pending, self.is_first).is_empty() {
            return ReadingEnd::Finished;
        }
        match self.end_line(alloc, responder, beside, &[]) {
            Ok(()) => ReadingEnd::Finished,
            Err(ended) => ended,
        }
    }

    /// Answers the line that ends with these bytes.
    fn end_line<B, R: Responder<B>>(
        &mut self,
        alloc: Global,
        responder: &mut R,
        beside: &mut B,
        bytes: &[u8],
    ) -> Result<(), ReadingEnd>
        requires whole { HasNoBreak (self.old.pending.items ++ bytes.now) }
        requires room { 1 ≤ R.room responder.old }
        ensures turns { Turns R.quits R.Leads (responder.old, beside.old)
            (responder.new, beside.new)
            (line_heard_with self.old bytes.now) (string_bytes self.old.answers)
            (string_bytes self.new.answers) result }
        ensures empty { OnOk result (self.new.pending.items ≡ []) }
        ensures later { OnOk result (self.new.is_first ≡ false) }
        ensures room { R.room responder.old ≤ R.room responder.new + 1 }
    {
        let is_first = mem::replace(&mut self.is_first, false);
        let answers = &mut self.answers;
        if self.pending.as_slice().is_empty() {
            return answer_line(
                alloc,
                responder,
                beside,
                piece_text(bytes, is_first),
                answers,
            );
        }
        self.pending.extend_from_slice(bytes)?;
        let line = piece_text(&self.pending, is_first);
        answer_line(alloc, responder, beside, line, answers)?;
        self.pending.clear();
        Ok(())
    }

    /// Keeps the bytes of a line that is not whole. One that is too long already, whatever comes,
    /// is not waited for.
    fn keep(&mut self, rest: &[u8]) -> Result<(), ReadingEnd>
        ensures kept { OnOk result (self.new.pending.items ≡ self.old.pending.items ++ rest.now) }
        ensures stopped { IfErr result
            (IsNotKept (unmarked self.old.is_first (self.old.pending.items ++ rest.now))) }
        ensures first { self.new.is_first ≡ self.old.is_first }
        ensures answers { self.new.answers ≡ self.old.answers }
    {
        self.pending.extend_from_slice(rest)?;
        // The last byte may be a carriage return that a line feed comes behind.
        if unmarked(&self.pending, self.is_first).len() > LINE_LIMIT + 1 {
            return Err(ReadingEnd::LongLine);
        }
        Ok(())
    }

    /// Writes the answers that are gathered, if they are many.
    fn put_many<K: Sink>(&mut self, out: &mut K) -> Result<(), ReadingEnd>
        ensures puts { PutLeaves (channel (K.written out.old) (K.faults out.old))
            (channel (K.written out.new) (K.faults out.new))
            (string_bytes self.old.answers) (string_bytes self.new.answers) result }
        ensures pending { self.new.pending ≡ self.old.pending }
        ensures first { self.new.is_first ≡ self.old.is_first }
        ensures count { K.faults out.old ≤ K.faults out.new }
    {
        if self.answers.len() < MANY {
            return Ok(());
        }
        self.put_all(out)
    }

    /// Writes the answers that are gathered.
    fn put_all<K: Sink>(&mut self, out: &mut K) -> Result<(), ReadingEnd>
        ensures puts { PutLeaves (channel (K.written out.old) (K.faults out.old))
            (channel (K.written out.new) (K.faults out.new))
            (string_bytes self.old.answers) (string_bytes self.new.answers) result }
        ensures empty { string_bytes self.new.answers ≡ [] }
        ensures pending { self.new.pending ≡ self.old.pending }
        ensures first { self.new.is_first ≡ self.old.is_first }
        ensures count { K.faults out.old ≤ K.faults out.new }
    {
        if self.answers.is_empty() {
            return Ok(());
        }
        let put = out.put(self.answers.as_bytes());
        self.answers.clear();
        match put {
            Ok(()) => Ok(()),
            Err(_) => Err(ReadingEnd::SinkFailed),
        }
    }
}

/// Answers one line, if it is not too long.
#[tactic(auto, unfolding(crate::specs::Answers::AnswersLine))]
fn answer_line<B, R: Responder<B>>(
    alloc: Global,
    responder: &mut R,
    beside: &mut B,
    line: &[u8],
    answers: &mut String,
) -> Result<(), ReadingEnd>
    requires whole { HasNoBreak line.now }
    requires room { 1 ≤ R.room responder.old }
    ensures turns { Turns R.quits R.Leads (responder.old, beside.old) (responder.new, beside.new)
        line.now
        (string_bytes answers.old) (string_bytes answers.new) result }
    ensures room { R.room responder.old ≤ R.room responder.new + 1 }
{
    if line.len() > LINE_LIMIT {
        return Err(ReadingEnd::LongLine);
    }
    match responder.answer(alloc, beside, line, answers) {
        Ok(Flow::On) => Ok(()),
        Ok(Flow::Quit) => Err(ReadingEnd::Finished),
        Err(NoMemory) => Err(ReadingEnd::NoMemory),
    }
}
