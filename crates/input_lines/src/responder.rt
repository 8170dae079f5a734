//! What answers the lines of an input.

ghost use Rattle.std.specs.Prelude.{◌≡◌, ℕ, ◌+◌, ◌≤◌, Bool, List, [], length};
ghost use Rattle.std.specs.String.{string_bytes};
ghost use Rattle.input_lines.specs.Answers.{AnswersLine, HasNoBreak};
ghost use Rattle.input_lines.specs.declared.limits.TheConstants.{LINE_LIMIT};

use outside::lists::NoMemory;
use std::alloc::Global;

/// What a line does to the reading of its input.
#[derive(Clone, Copy, Debug, PartialEq, Eq)]
pub enum Flow {
    /// The next line is read.
    On,
    /// The input ends with this line.
    Quit,
}

/// Answers the lines of an input, one after another, with the help of what stands beside it, as
/// files. What is said of all lines together is a relation between the two states, which holds of
/// no lines and goes on by one.
pub trait Responder<B> {
    /// Whether a line ends the input. It is not answered.
    ghost quits: { List ℕ → Bool };

    /// How many lines it can answer at least.
    ghost room: { Self → ℕ };

    /// From a responder and what stands beside it these lines, with these answers in all, have led
    /// to another responder and what stands beside it now.
    ghost Leads: { Self → B → List (List ℕ) → List ℕ → Self → B → Type 0 };

    /// Adds the answer to a line of at most 131,072 bytes, if it has one. Where memory is wanting,
    /// nothing is added, and it is as before.
    fn answer(
        &mut self,
        alloc: Global,
        beside: &mut B,
        line: &[u8],
        answers: &mut String,
    ) -> Result<Flow, NoMemory>
        requires whole { HasNoBreak line.now }
        requires short { length line.now ≤ LINE_LIMIT }
        requires room { 1 ≤ room self.old }
        ensures answers { AnswersLine quits Leads self.old beside.old self.new beside.new line.now
            (string_bytes answers.old) (string_bytes answers.new) result }
        ensures room { room self.old ≤ room self.new + 1 };

    /// No lines lead anywhere else.
    ghost starts: { (responder : Self) (beside : B)
        → Leads responder beside [] [] responder beside };
}
