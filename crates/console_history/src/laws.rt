//! What is true of every console that is told by the eye of a desk.

ghost use Rattle.std.specs.Prelude.{◌≡◌, ◌+◌, ◌^◌, ◌<◌, ◌⊎◌, ◌≤◌, ℕ, List, [], ◌∷◌, ◌++◌, length};
ghost use Rattle.std.specs.Prelude.{map, false, All, Contains, IsPermutation, Option};
ghost use Rattle.std.specs.List.{range_with_len};
ghost use Rattle.outside.specs.Files.{Folder};
ghost use Rattle.personal_words.specs.Dictionaries.{OwnSeen, in_force};
ghost use Rattle.board_share.specs.edit_core.Runs.{AreSteps, Entry, IsRun, Run, asked_of, is_quiet};
ghost use Rattle.board_share.specs.edit_core.Seen.{IsValidBoard, Seen, opening_of};
ghost use Rattle.board_share.specs.Endings.{IsTheirs};
ghost use Rattle.board_share.specs.Eyes.{EyeSeen, IsCounted, IsLater, entries_in, events_in};
ghost use Rattle.board_share.specs.Eyes.{fresh_eye, last_of};
ghost use Rattle.console_lang.specs.declared.command.Command.{Command};
ghost use Rattle.console_lang.specs.declared.reply.Reply.{Reply};
ghost use Rattle.console_board.specs.Boards.{own_console_of};
ghost use Rattle.console_board.specs.OwnConsoles.{OwnConsole};
ghost use Rattle.console_board.specs.Transcripts.{Answers};
ghost use Rattle.console_history.specs.Followed.{AreBetween, Follows, Given, IsConsoleHistory};
ghost use Rattle.console_history.specs.Told.{GoesOneOn, IsToldOne, IsToldTo, Looks, Publishes};
ghost use Rattle.console_history.specs.Told.{Seat, Told};
ghost use Rattle.board_share.specs.declared.told.Told.{Told as ToldOf};
ghost use Rattle.board_share.specs.Eyes.{CountsChecks};
ghost use Rattle.board_share.specs.edit_core.Events.{SeenEvent};

use board_share::edit_core::{
    fronts_are_runs, ids_name_paragraphs, kinds_add_up, numbers_add_up, runs_are_short, runs_go_on,
    workers_keep_texts,
};
use console_board::commands_are_their_events;

/// Where all that the eye of a told console knows has no more events that are not of workers than
/// the eye counts, and without workers has those that it counts and no more events at all, the
/// console's commands are followed in it. One command more goes on, and so does what comes behind.
pub fn told_consoles_are_followed()
    ensures one_more { (folder : Option Folder) (session : ℕ) (first seat next : Seat)
        (commands : List (Option Command)) (replies : List Reply) (asked : Option Command)
        (reply : Reply) → Told folder session first commands replies seat
        → IsToldOne folder session seat asked next reply
        → Told folder session first (commands ++ asked ∷ []) (replies ++ reply ∷ []) next }
    ensures followed { (given : Given) (opening : Seen) (dictionary : OwnSeen) (after : Seat)
        (commands : List (Option Command)) (replies : List Reply)
        → Told given.folder given.session
        (record { eye = fresh_eye opening given.by; dictionary = dictionary })
        commands replies after
        → IsRun after.eye.run
        → asked_of after.eye.run.entries ≤ events_in after.eye.counts
        → (given.workers ≡ 0 → length after.eye.run.entries ≤ entries_in after.eye.counts)
        → (given.workers ≡ 0 → IsCounted given.by after.eye.run.entries after.eye.counts)
        → Follows given dictionary opening after.eye.run.entries commands replies
        after.dictionary }
    ensures behind { (given : Given) (before after : OwnSeen) (board : Seen)
        (entries rest : List Entry) (commands : List (Option Command)) (replies : List Reply)
        → Follows given before board entries commands replies after
        → AreBetween given.workers rest
        → Follows given before board (entries ++ rest) commands replies after }
{
    workers_keep_texts();
    runs_go_on();
    numbers_add_up();
    kinds_add_up();
}

/// By a command that is replied to, a look, an event that is published, and checks alone an eye goes
/// on by one event of its own at most that is not a check; and so it does by nothing. A look before
/// adds none.
pub fn told_commands_go_one_on()
    ensures command { (folder : Option Folder) (session : ℕ) (before after : Seat)
        (command : Command) (reply : Reply)
        → IsToldTo folder session before command after reply → GoesOneOn before.eye after.eye }
    ensures same { (eye : EyeSeen) → GoesOneOn eye eye }
    ensures looks { (old new : EyeSeen) → Looks old new → GoesOneOn old new }
    ensures publishes { (event : SeenEvent) (old new : EyeSeen) (told : ToldOf)
        → is_quiet event ≡ false → Publishes event old new told → GoesOneOn old new }
    ensures checks { (old new : EyeSeen) → IsLater old new → CountsChecks old new
        → GoesOneOn old new }
    ensures looked { (old middle new : EyeSeen) → Looks old middle → GoesOneOn middle new
        → GoesOneOn old new }
{
    numbers_add_up();
    runs_go_on();
    workers_keep_texts();
}

/// Where the commands of a console are followed in a history, it replies as a console does that
/// knows nothing of ids, revs, points and workers.
pub fn followed_consoles_reply()
    ensures { (given : Given) (before after : OwnSeen) (board : Seen) (entries : List Entry)
        (commands : List (Option Command)) (replies : List Reply) → IsValidBoard board
        → AreSteps board entries → Follows given before board entries commands replies after
        → (last : OwnConsole)
        × Answers given.workers given.folder (own_console_of before board) commands replies last }
{
    ids_name_paragraphs();
    runs_go_on();
    workers_keep_texts();
    commands_are_their_events();
}

/// Once a desk is closed of whose eyes only the console's has events that are not of workers, the
/// console has replied as one that knows nothing of the desk. Where its eye has come no further than
/// to the last reply, its commands are followed in the whole history.
pub fn closed_consoles_are_followed()
    ensures { (given : Given) (dictionary : OwnSeen) (seen : Seat) (eye : EyeSeen)
        (eyes : List EyeSeen) (history : Run) (commands : List (Option Command))
        (replies : List Reply)
        → Told given.folder given.session
        (record {
          eye = fresh_eye (opening_of (in_force dictionary) []) given.by;
          dictionary = dictionary;
        }) commands replies seen
        → IsLater seen.eye eye
        → events_in eye.counts + asked_of seen.eye.run.entries
        ≤ asked_of eye.run.entries + events_in seen.eye.counts
        → IsTheirs eyes history
        → IsPermutation (range_with_len 0 (length eyes)) (map (λ other. other.number) eyes)
        → length eyes ≡ given.workers + 1
        → Contains eyes eye
        → eye.number ≡ given.by
        → All (λ (other : EyeSeen). (other.number ≡ given.by) ⊎ (events_in other.counts ≡ 0)) eyes
        → ((last : OwnConsole)
        × Answers given.workers given.folder
        (own_console_of dictionary (opening_of (in_force dictionary) [])) commands replies last)
        × (seen.eye ≡ eye → IsConsoleHistory given dictionary commands replies history) }
{
    workers_keep_texts();
    runs_go_on();
    numbers_add_up();
    followed_consoles_reply();
}

/// Whatever a console is told, its eye stays the one of that number, with that opening board.
pub fn told_consoles_keep_their_eyes()
    ensures { (folder : Option Folder) (session : ℕ) (first seat : Seat)
        (commands : List (Option Command)) (replies : List Reply)
        → Told folder session first commands replies seat
        → (seat.eye.number ≡ first.eye.number)
        × (seat.eye.run.opening ≡ first.eye.run.opening) }
{
    workers_keep_texts();
    runs_go_on();
    numbers_add_up();
}

/// Once a desk is closed that opened without a text, and of whose eyes only the console's has events
/// that are not of workers, few enough of these leave the history before the last point.
pub fn closed_consoles_are_not_spent()
    ensures { (given : Given) (eye : EyeSeen) (eyes : List EyeSeen) (history : Run)
        → IsTheirs eyes history
        → IsPermutation (range_with_len 0 (length eyes)) (map (λ other. other.number) eyes)
        → length eyes ≡ given.workers + 1
        → Contains eyes eye
        → eye.number ≡ given.by
        → All (λ (other : EyeSeen). (other.number ≡ given.by) ⊎ (events_in other.counts ≡ 0)) eyes
        → history.opening.paragraphs ≡ []
        → events_in eye.counts ≤ 2 ^ 33
        → (last_of eye.run).point < 2 ^ 62 }
{
    fronts_are_runs();
    runs_are_short();
    numbers_add_up();
}
