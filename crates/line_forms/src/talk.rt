//! The answers to an input, beside the workers of a desk.

ghost use Rattle.std.specs.Prelude.{◌≡◌, ◌+◌, ◌<◌, ◌≤◌, vec_len};
ghost use Rattle.std.specs.List.{AllZip};
ghost use Rattle.std.specs.Vec.{vec_capacity};
ghost use Rattle.input_lines.specs.Turns.{IsOver};
ghost use Rattle.input_lines.specs.declared.limits.TheConstants.{INPUT_LIMIT};
ghost use Rattle.worker_crew.specs.Crews.{HasWorked};

use board_share::{Eye, Naming};
use check_workers::Bell;
use input_lines::{ReadingEnd, Responder, answer_lines};
use joined_tasks::Task;
use mark_types::Judge;
use outside::{Gate, Sink, Source};
use std::alloc::Global;
use std::sync::Wait;
use std::thread::Threads;
use worker_crew::{Crew, work_beside};

/// What ends the work of workers: their bell, which is closed.
#[derive(Drop)]
pub(crate) struct Closing<'a, R: Wait> {
    pub(crate) rt: &'a R,
    pub(crate) alloc: Global,
    pub(crate) bell: &'a Bell,
}

/// The task of answering an input. It has nothing of its own, so that what becomes of all that it is
/// lent is known where it ends.
#[derive(Drop)]
struct Talk<'a, 'c, 'b, 'i, 'o, 'e, R: Wait, C, B, S, K> {
    rt: &'a R,
    alloc: Global,
    bell: &'a Bell,
    responder: &'c mut C,
    beside: &'b mut B,
    input: &'i mut S,
    out: &'o mut K,
    ended: &'e mut ReadingEnd,
}

impl<R: Wait, C: Responder<B>, B, S: Source, K: Sink> Task
    for Talk<'_, '_, '_, '_, '_, '_, R, C, B, S, K> {
    ghost IsReady = { λ talk. INPUT_LIMIT + 1 ≤ C.room talk.responder.now };

    ghost Does = { λ old new.
        (old.responder.ghost_name ≡ new.responder.ghost_name)
        × (old.beside.ghost_name ≡ new.beside.ghost_name)
        × (old.input.ghost_name ≡ new.input.ghost_name)
        × (old.out.ghost_name ≡ new.out.ghost_name)
        × (old.ended.ghost_name ≡ new.ended.ghost_name)
        × (S.Source.faults old.input.now ≤ S.Source.faults new.input.now)
        × (K.Sink.faults old.out.now ≤ K.Sink.faults new.out.now)
        × IsOver C.quits
        (λ lines said.
        C.Leads old.responder.now old.beside.now lines said new.responder.now new.beside.now)
        (record {
          before = S.left old.input.now;
          after = S.left new.input.now;
          faults_before = S.Source.faults old.input.now;
          faults_after = S.Source.faults new.input.now;
        }) (K.Sink.faults old.out.now < K.Sink.faults new.out.now) (K.written old.out.now)
        (K.written new.out.now) new.ended.now };

    /// Answers all lines, and closes the bell.
    fn perform(&mut self) {
        *self.ended = answer_lines(
            self.alloc,
            self.responder,
            self.beside,
            self.input,
            self.out,
        );
        self.bell.close(self.rt);
    }
}

/// Answers the lines of an input in this thread, beside workers, whose bell it closes behind the last
/// line. How the reading of the input has ended stands in `ended`. The workers' eyes are given back in
/// their order, with room for one more.
pub(crate) fn talk_beside<
    'x,
    J: Judge + Drop + Send + Sync,
    D: Naming + Send + Sync,
    W: Wait + Drop + Send + Sync,
    R: Threads + Wait + Sync,
    G: Gate + Sync,
    C: Responder<B>,
    B,
    S: Source,
    K: Sink,
>(
    crew: Crew<'x, J, D, W, R, G>,
    closing: Closing<'_, R>,
    responder: &mut C,
    beside: &mut B,
    input: &mut S,
    out: &mut K,
    ended: &mut ReadingEnd,
) -> Vec<Eye<J, D>>
    requires room { INPUT_LIMIT + 1 ≤ C.room responder.old }
    ensures worked { AllZip HasWorked crew.entry result.items }
    ensures room { vec_len result < vec_capacity result }
    // What was written is what these lines are answered from here on.
    ensures over { IsOver C.quits
        (λ lines said. C.Leads responder.old beside.old lines said responder.new beside.new)
        (record {
          before = S.left input.old;
          after = S.left input.new;
          faults_before = S.Source.faults input.old;
          faults_after = S.Source.faults input.new;
        }) (K.Sink.faults out.old < K.Sink.faults out.new) (K.written out.old) (K.written out.new)
        ended.new }
    ensures input_count { S.Source.faults input.old ≤ S.Source.faults input.new }
    ensures sink_count { K.Sink.faults out.old ≤ K.Sink.faults out.new }
{
    let Closing { rt, alloc, bell } = closing;
    let mut talk = Talk {
        rt,
        alloc,
        bell,
        responder,
        beside,
        input,
        out,
        ended,
    };
    work_beside(crew, &mut talk)
}
