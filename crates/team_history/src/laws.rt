//! What is true of every session that is told by the eye of a desk.

ghost use Rattle.std.specs.Prelude.{◌≡◌, ◌+◌, ◌*◌, ◌^◌, ◌<◌, ◌≤◌, ◌⊎◌, ℕ, List, [], ◌∷◌, ◌++◌};
ghost use Rattle.std.specs.Prelude.{length, map, Option, All, IsPermutation};
ghost use Rattle.std.specs.List.{AllByRecursion, range_with_len};
ghost use Rattle.spell_types.specs.declared.Lexicon.{Lexicon};
ghost use Rattle.board_share.specs.edit_core.Runs.{Run};
ghost use Rattle.board_share.specs.edit_core.Seen.{Seen};
ghost use Rattle.board_share.specs.Endings.{HasEventsOf, IsTheirs};
ghost use Rattle.board_share.specs.Eyes.{EyeSeen, events_in, fresh_eye};
ghost use Rattle.console_lang.specs.declared.command.Command.{Command};
ghost use Rattle.console_lang.specs.declared.reply.Reply.{Reply};
ghost use Rattle.console_board.specs.Transcripts.{HasWholeText};
ghost use Rattle.console_history.specs.Told.{IsLexiconTold, IsPlainTold};
ghost use Rattle.team_history.specs.Eyes.{AsksAtMost, HasHeard, IsAtLastPoint, IsSaidTo};
ghost use Rattle.team_history.specs.ToldBy.{AreOf, IsToldBy, Session};

use board_share::edit_core::{fronts_are_runs, numbers_add_up, runs_are_short, runs_go_on};
use console_board::asked_events_have_replies;

/// A session is told no replies before its first line, and what it is told goes on by each line
/// that asks for something.
pub fn heard_sessions_go_on()
    ensures start { (session : Session) (opening : Seen)
        → HasHeard session opening [] [] (fresh_eye opening session.by) }
    ensures one_more { (session : Session) (opening : Seen) (commands : List (Option Command))
        (replies : List Reply) (old new : EyeSeen) (asked : Option Command) (reply : Reply)
        → HasHeard session opening commands replies old → IsSaidTo session old asked new reply
        → HasHeard session opening (commands ++ asked ∷ []) (replies ++ reply ∷ []) new }
{
    asked_events_have_replies();
    runs_go_on();
}

/// Once its desk is closed, the replies of a session are told by the whole history.
pub fn closed_sessions_are_told()
    ensures { (session : Session) (commands : List (Option Command)) (replies : List Reply)
        (eye : EyeSeen) (history : Run)
        → HasHeard session history.opening commands replies eye → HasEventsOf history eye
        → IsToldBy session commands replies history }
{}

/// Once a desk is closed of whose eyes only those with a number from one on, of so many, have
/// edits, loads, parks and asks, all such entries of its history have one of these numbers.
pub fn only_sessions_ask()
    ensures { (first count : ℕ) (eyes : List EyeSeen) (history : Run) → IsTheirs eyes history
        → IsPermutation (range_with_len 0 (length eyes)) (map (λ eye. eye.number) eyes)
        → All (λ (eye : EyeSeen). (events_in eye.counts ≡ 0)
        ⊎ ((first ≤ eye.number) × (eye.number < first + count))) eyes
        → AreOf first count history.entries }
{}

/// By a command that is done without a dictionary, and by a dictionary that comes into force, an
/// eye counts one event more at most that is not a check.
pub fn told_commands_ask_once()
    ensures plain { (number : ℕ) (command : Command) (old new : EyeSeen) (reply : Reply)
        → HasWholeText command → IsPlainTold number command old new reply
        → AsksAtMost 1 old new }
    ensures brought { (lexicon : Lexicon) (old new : EyeSeen) (reply : Reply)
        → IsLexiconTold lexicon old new reply → AsksAtMost 1 old new }
{
    asked_events_have_replies();
    runs_go_on();
}

/// Once a desk is closed that opened without a text, and of whose eyes each counts few events that
/// are not checks, none of them knows the last point that a history may have.
pub fn closed_sessions_are_not_spent()
    ensures { (most : ℕ) (eyes : List EyeSeen) (history : Run) → IsTheirs eyes history
        → IsPermutation (range_with_len 0 (length eyes)) (map (λ eye. eye.number) eyes)
        → history.opening.paragraphs ≡ []
        → All (λ (eye : EyeSeen). events_in eye.counts ≤ most) eyes
        → length eyes * most ≤ 2 ^ 33
        → AllByRecursion (λ (eye : EyeSeen). ¬ (IsAtLastPoint eye)) eyes }
{
    fronts_are_runs();
    runs_are_short();
    numbers_add_up();
}
