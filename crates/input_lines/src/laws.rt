//! What is true of every reading of an input.

ghost use Rattle.std.specs.Prelude.{◌≡◌, ◌⊎◌, ℕ, Bool, true, List, Some};
ghost use Rattle.std.specs.List.{AllByRecursion};
ghost use Rattle.text_lines.specs.Lines.{line_texts};
ghost use Rattle.input_lines.specs.Ends.{HasEnded, Reading};
ghost use Rattle.input_lines.specs.Lines.{IsBounded, IsShort, before_quit};
ghost use Rattle.input_lines.specs.declared.reading_end.ReadingEnd.{ReadingEnd};
ghost use Rattle.input_lines.specs.declared.reading_end.ReadingEnd.TheVariants.{Finished, NoMemory};
ghost use Rattle.input_lines.specs.declared.reading_end.ReadingEnd.TheVariants.{SinkFailed};

/// Where an input tells its bytes, passes no limit and does not fail, its reading ends behind all
/// its lines, for want of memory, or by the sink.
pub fn fitting_inputs_are_read()
    ensures { (quits : List ℕ → Bool) (reading : Reading) (input said : List ℕ) (ended : ReadingEnd)
        → HasEnded quits (λ lines answers. Unit {0}) reading ended said
        → reading.before ≡ Some input → IsBounded quits input
        → ((line : List ℕ) → quits line ≡ true → IsShort line)
        → AllByRecursion IsShort (before_quit quits (line_texts input))
        → reading.faults_after ≡ reading.faults_before → (ended ≡ Finished)
        ⊎ ((ended ≡ NoMemory) ⊎ (ended ≡ SinkFailed)) }
{}
