//! What is true of every transcript, and of every line that ends one.

ghost use Rattle.std.specs.Prelude.{◌≡◌, ◌≤◌, ◌<◌, ◌^◌, ℕ, List, None, Ok, Some, length, true};
ghost use Rattle.outside.specs.Files.{Folder};
ghost use Rattle.personal_words.specs.declared.items.OwnItem.{OwnItem};
ghost use Rattle.mark_types.specs.spell_types.declared.Lexicon.{Lexicon};
ghost use Rattle.edit_core.specs.paragraph_text.Paragraphs.{HasNoBreak};
ghost use Rattle.edit_core.specs.Events.{ALoad, SeenEvent};
ghost use Rattle.edit_core.specs.Seen.{IsValidBoard, Seen};
ghost use Rattle.edit_core.specs.Steps.{Step, first_refusal};
ghost use Rattle.edit_core.specs.declared.refusal.Refusal.{Refusal};
ghost use Rattle.console_lang.specs.declared.command.Command.{Command};
ghost use Rattle.console_lang.specs.declared.reply.Reply.{Reply};
ghost use Rattle.console_lang.specs.declared.reply.Reply.TheVariants.{Dict, Done, NoPlace};
ghost use Rattle.console_board.specs.BoardAnswers.{HasReply, IsAsked, PutsWhole, event_for};
ghost use Rattle.console_board.specs.BoardAnswers.{look_reply, names_place, reply_for};
ghost use Rattle.console_board.specs.Boards.{console_of};
ghost use Rattle.console_board.specs.Consoles.{console_after_load, shown};
ghost use Rattle.console_board.specs.Transcripts.{HasOutcome, HasWholeText, IsReplyTo};
ghost use Rattle.console_board.specs.Transcripts.{IsTranscript, failures_in, is_quit, line_says};
ghost use Rattle.input_lines.specs.declared.limits.TheConstants.{LINE_LIMIT};

use console_lang::commands_have_their_lines;
use edit_core::{events_are_decided, ids_name_paragraphs};

/// Where no worker checks and the files do not fail, a folder that is told, a dictionary, a list of
/// personal words and the lines of an input determine all replies.
pub fn transcripts_are_functions()
    ensures { (folder : Folder) (base : Lexicon) (own : List OwnItem) (lines : List (List ℕ))
        (replies others : List Reply)
        → IsTranscript 0 (Some folder) base own lines replies
        → IsTranscript 0 (Some folder) base own lines others
        → failures_in replies ≡ 0 → failures_in others ≡ 0 → replies ≡ others }
{}

/// A line that ends the console is no longer than a line may be.
pub fn quits_are_short()
    ensures { (line : List ℕ) → is_quit line ≡ true → length line ≤ LINE_LIMIT }
{
    commands_have_their_lines();
}

/// No text of a command has a line feed that its line has not.
pub fn commands_have_whole_texts()
    ensures { (line : List ℕ) (command : Command) → HasNoBreak line
        → line_says line ≡ Ok (Some command) → HasWholeText command }
{
    commands_have_their_lines();
}

/// The event of a command whose text has no line feed is one that a session asks for. Before the
/// last point of a history each refusal of such an event has a reply.
pub fn asked_events_have_replies()
    ensures asked { (by : ℕ) (board : Seen) (command : Command) (event : SeenEvent)
        → HasWholeText command → event_for by board command ≡ Some event → IsAsked event }
    ensures replied { (board : Seen) (event : SeenEvent) → IsAsked event → board.point < 2 ^ 62
        → HasReply (first_refusal board event) }
{}

/// A command does to the console of a board what its event makes of the board, whatever the
/// session's number. Where the event is refused, that is replied, and so is it that there is no
/// such place. A load and a look come to what they come to over the board's console.
pub fn commands_are_their_events()
    ensures taken { (by : ℕ) (before after : Seen) (command : Command) (event : SeenEvent)
        → IsValidBoard before → event_for by before command ≡ Some event → Step before event after
        → IsReplyTo (console_of before) command (Done after.text_version) (console_of after) }
    ensures refused { (by : ℕ) (board : Seen) (command : Command) (event : SeenEvent)
        (refusal : Refusal) (reply : Reply) → IsValidBoard board → PutsWhole board command
        → event_for by board command ≡ Some event → first_refusal board event ≡ Some refusal
        → reply_for refusal ≡ Some reply
        → IsReplyTo (console_of board) command reply (console_of board) }
    ensures no_place { (by : ℕ) (board : Seen) (command : Command) → names_place command ≡ true
        → event_for by board command ≡ None
        → IsReplyTo (console_of board) command (NoPlace (length board.paragraphs))
        (console_of board) }
    ensures loaded { (before after : Seen) (lexicon : Lexicon) → Step before (ALoad lexicon) after
        → HasOutcome (console_after_load (console_of before) lexicon) (Dict after.dict_version)
        (console_of after) }
    ensures shown { (board : Seen) → look_reply board ≡ (shown (console_of board)).reply }
{
    events_are_decided();
    ids_name_paragraphs();
}
