//! The laws on the pairs of a script, and on what is wrong with a file that is none.

ghost use Rattle.std.specs.Prelude.{◌≡◌, ◌≢◌, ◌↔◌, ◌++◌, ℕ, List, IsTrue, AllPairs, Err};
ghost use Rattle.text_lines.specs.Lines.{line_texts};
ghost use Rattle.team_script.specs.declared.fault.ScriptFault.TheVariants.{Bad, LongLine};
ghost use Rattle.team_script.specs.declared.fault.ScriptFault.TheVariants.{ManyPairs};
ghost use Rattle.team_script.specs.Causes.{IsFirstBad, HasLong, HasMany};
ghost use Rattle.team_script.specs.Due.{script_due};
ghost use Rattle.team_script.specs.declared.line.SessionLine.{SessionLine};
ghost use Rattle.team_script.specs.declared.pairs.Pair.{Pair};
ghost use Rattle.team_script.specs.Pairs.{pairs_in, is_pair_among, IsPairNamed, Begins};

use console_lang::commands_have_their_lines;

/// The pairs of some lines are just those that a line names by `load`, and each stands among them
/// once. Lines that come behind others leave the pairs of those in front, so that pairs stand in
/// the order of their first naming.
pub fn pairs_are_named_once()
    ensures named { (lines : List SessionLine) (pair : Pair)
        → IsTrue (is_pair_among (pairs_in lines) pair) ↔ IsPairNamed lines pair }
    ensures once { (lines : List SessionLine)
        → AllPairs (λ pair later. pair ≢ later) (pairs_in lines) }
    ensures in_order { (front back : List SessionLine)
        → Begins (pairs_in front) (pairs_in (front ++ back)) }
{
    commands_have_their_lines();
}

/// Each fault is due exactly where its cause is there: a bad line, with none before it; no bad
/// line, and a text that is too long; neither, and too many pairs.
pub fn faults_have_causes()
    ensures bad { (bytes : List ℕ) (line : ℕ) → (script_due bytes ≡ Err (Bad line))
        ↔ IsFirstBad (line_texts bytes) line }
    ensures long { (bytes : List ℕ) → (script_due bytes ≡ Err LongLine)
        ↔ HasLong (line_texts bytes) }
    ensures many { (bytes : List ℕ) → (script_due bytes ≡ Err ManyPairs)
        ↔ HasMany (line_texts bytes) }
{}
