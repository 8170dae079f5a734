//! Answers the lines of an input, one after another.

ghost use Rattle.std.specs.Prelude.{◌≡◌, IfOk};
ghost use Rattle.pipe_mode.specs.Pipes.{HasAnsweredLines, answered-none, ends_input};
ghost use Rattle.pipe_mode.specs.Pipes.{lines_left_in_pipe, opened};

use crate::words::PipeSpeller;
use input_lines::{Flow, Responder};
use mark_types::lists::NoMemory;
use std::alloc::Global;
use std::marker::Model;
use word_verdict::Speller;

/// What answers the lines of an input: a dictionary, whether answers are terse, and the number of
/// the line that comes next, from 1.
#[derive(Drop)]
pub struct Pipe<'a> {
    speller: PipeSpeller<'a>,
    terse: bool,
    number: u64,
}

impl<'a> Model for Pipe<'a> {
    ghost use Rattle.pipe_mode.specs.Pipes.{PipeSeen};

    ghost Value = { PipeSeen };

    ghost view = { λ inside. record {
      lexicon = inside.speller;
      terse = inside.terse;
      number = inside.number;
    } };
}

impl<'a> Pipe<'a> {
    /// Prepares a dictionary for the lines of an input. Answers are not terse before a line says so.
    pub fn open(alloc: Global, speller: &'a Speller) -> Result<Pipe<'a>, NoMemory>
        ensures { IfOk result (λ pipe. pipe ≡ opened speller.now) }
    {
        Ok(Pipe {
            speller: PipeSpeller::new(alloc, speller)?,
            terse: false,
            number: 1,
        })
    }
}

impl Responder<()> for Pipe<'_> {
    ghost quits = { ends_input };

    ghost room = { λ pipe. lines_left_in_pipe pipe };

    ghost Leads = { λ first _ lines said now _. HasAnsweredLines first now lines said };

    fn answer(
        &mut self,
        alloc: Global,
        _beside: &mut (),
        line: &[u8],
        answers: &mut String,
    ) -> Result<Flow, NoMemory> {
        let reply = self.speller.answer(alloc, self.terse, self.number, line)?;
        answers.push_str(reply.text.as_str())?;
        self.terse = reply.terse;
        self.number += 1;
        Ok(Flow::On)
    }

    ghost starts = { λ pipe _. answered-none pipe };
}
