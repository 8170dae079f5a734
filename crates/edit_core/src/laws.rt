//! What is true of every history, for those who prove something of one.

ghost use Rattle.std.specs.Prelude.{◌≡◌, ◌+◌, ◌*◌, ◌<◌, ◌≤◌, ◌==◌, ◌&&◌, ◌↔◌, ℕ, true, not, List};
ghost use Rattle.std.specs.Prelude.{[], ◌∷◌, ◌++◌, length, slice_get, Some, if◌then◌else◌};
ghost use Rattle.std.specs.List.{AllByRecursion, range_with_len, sum_by};
ghost use Rattle.std.specs.Str.{chars};
ghost use Rattle.paragraph_marks.specs.Paragraphs.{marks_in};
ghost use Rattle.paragraph_text.specs.Paragraphs.{Paragraph};
ghost use Rattle.paragraph_text.specs.Edits.{with_id};
ghost use Rattle.edit_core.specs.Events.{SeenEvent, kind_of};
ghost use Rattle.edit_core.specs.Runs.{AreFit, AreQuiet, AreSteps, Entry, IsOfBoard, IsQuiet};
ghost use Rattle.edit_core.specs.Runs.{IsReplayed, IsRun, OnlyGrew, Replays, Run, all_kinds};
ghost use Rattle.edit_core.specs.Runs.{events_asked_by, asked_kinds, asked_of, entries_by};
ghost use Rattle.edit_core.specs.Runs.{entries_of};
ghost use Rattle.edit_core.specs.Runs.{entries_through, furthest_point, is_entry, is_kind};
ghost use Rattle.edit_core.specs.Runs.{is_quiet, last_board};
ghost use Rattle.edit_core.specs.Seen.{IsOpening, IsValidBoard, Seen};
ghost use Rattle.edit_core.specs.Steps.{IsAt, IsDecided, IsFit, IsFitCheck, Step, place_of};
ghost use Rattle.edit_core.specs.Views.{Marked, view_of};
ghost use Rattle.edit_core.specs.declared.event.EventKind.{EventKind};
ghost use Rattle.edit_core.specs.declared.state.Standing.{Standing};
ghost use Rattle.edit_core.specs.declared.state.Standing.TheVariants.{Finished};
ghost use Rattle.edit_core.specs.declared.limits.TheConstants.{MOST_MOVED};

use crate::view::shown_marks_are_local;
use paragraph_text::edits_are_decided;

/// A valid board and an event that is fit for it make exactly one board and no refusal, or exactly
/// one refusal and no board.
pub fn events_are_decided()
    ensures { (board : Seen) (event : SeenEvent) → IsValidBoard board → IsFit board event
        → IsDecided board event }
{
    edits_are_decided();
}

/// Each step makes a valid board of a valid board, and the next point of a point.
pub fn steps_keep_validity()
    ensures valid { (before after : Seen) (event : SeenEvent) → IsValidBoard before
        → Step before event after → IsValidBoard after }
    ensures point { (before after : Seen) (event : SeenEvent) → Step before event after
        → after.point ≡ before.point + 1 }
{
    edits_are_decided();
}

/// From one board of a history to a later one, versions, the next id and revs do not fall. A
/// paragraph that is there was there, or has a new id. Equal revs have equal texts, equal text
/// versions equal paragraphs, and equal dictionary versions equal dictionaries.
pub fn runs_only_grow()
    ensures step { (before after : Seen) (event : SeenEvent) → IsValidBoard before
        → Step before event after → OnlyGrew before after }
    ensures run { (board : Seen) (front back : List Entry) → IsValidBoard board
        → AreSteps board (front ++ back)
        → OnlyGrew (last_board board front) (last_board board (front ++ back)) }
{
    edits_are_decided();
}

/// Events of workers keep the texts, the versions, the dictionary and the next id, and what is
/// parked; and what is finished stays so.
pub fn workers_keep_texts()
    ensures step { (before after : Seen) (event : SeenEvent) → Step before event after
        → is_quiet event ≡ true → IsQuiet before after }
    ensures run { (board : Seen) (entries : List Entry) → AreSteps board entries → AreQuiet entries
        → IsQuiet board (last_board board entries) }
    ensures none_asked { (entries : List Entry) → asked_of entries ≡ 0 → AreQuiet entries }
{}

/// How far a history gets: events of workers do not move the furthest point that they can lead to,
/// and each other event moves it by at most 40,001. So a history of few other events is short.
pub fn runs_are_short()
    ensures quiet { (before after : Seen) (event : SeenEvent) → Step before event after
        → is_quiet event ≡ true
        → furthest_point after ≤ furthest_point before }
    ensures step { (before after : Seen) (event : SeenEvent) → IsValidBoard before
        → Step before event after
        → furthest_point after ≤ furthest_point before + MOST_MOVED }
    ensures run { (run : Run) → IsRun run
        → (last_board run.opening run.entries).point ≤ 2 * length run.opening.paragraphs
        + MOST_MOVED * asked_of run.entries }
{
    edits_are_decided();
}

/// What a list of events makes of a board is the last board of a history, whose events are those
/// that were not refused, in their order.
pub fn replays_are_runs()
    ensures { (board after : Seen) (events : List SeenEvent) → Replays board events after
        → IsReplayed board events after }
{}

/// A longer history: its boards, its steps, and the point that it has come to.
pub fn runs_go_on()
    ensures steps { (board : Seen) (front back : List Entry) → AreSteps board (front ++ back)
        ↔ (AreSteps board front × AreSteps (last_board board front) back) }
    ensures last { (board : Seen) (front back : List Entry)
        → last_board board (front ++ back) ≡ last_board (last_board board front) back }
    ensures one { (board : Seen) (entries : List Entry) (entry : Entry)
        → last_board board (entries ++ entry ∷ []) ≡ entry.board }
    ensures valid { (board : Seen) (entries : List Entry) → IsValidBoard board
        → AreSteps board entries → IsValidBoard (last_board board entries) }
    ensures point { (board : Seen) (entries : List Entry) → AreSteps board entries
        → (last_board board entries).point ≡ board.point + length entries }
{
    edits_are_decided();
}

/// How many entries of a kind, and of a kind and a number, a history has: those of its parts
/// together, and in a front no more.
pub fn entries_add_up()
    ensures by { (asked : EventKind) (by : ℕ) (front back : List Entry)
        → entries_by asked by (front ++ back) ≡ entries_by asked by front + entries_by asked by
        back }
    ensures of { (asked : EventKind) (front back : List Entry)
        → entries_of asked (front ++ back) ≡ entries_of asked front + entries_of asked back }
    ensures front_by { (asked : EventKind) (by : ℕ) (front back : List Entry)
        → entries_by asked by front ≤ entries_by asked by (front ++ back) }
    ensures front_of { (asked : EventKind) (front back : List Entry)
        → entries_of asked front ≤ entries_of asked (front ++ back) }
    ensures one_by { (asked : EventKind) (by : ℕ) (entry : Entry)
        → entries_by asked by (entry ∷ []) ≡ (if is_entry asked by entry then 1 else 0) }
    ensures one_of { (asked : EventKind) (entry : Entry)
        → entries_of asked (entry ∷ []) ≡ (if is_kind asked (kind_of entry.event) then 1 else 0) }
{}

/// The entries of all kinds together are all entries, those of a history and those that came
/// through a number. What is asked are edits, loads, parks and asks.
pub fn kinds_add_up()
    ensures of { (entries : List Entry)
        → length entries ≡ sum_by (λ asked. entries_of asked entries) all_kinds }
    ensures by { (by : ℕ) (entries : List Entry)
        → entries_through by entries ≡ sum_by (λ asked. entries_by asked by entries) all_kinds }
    ensures asked_of { (entries : List Entry)
        → asked_of entries ≡ sum_by (λ asked. entries_of asked entries) asked_kinds }
    ensures asked_by { (by : ℕ) (entries : List Entry)
        → events_asked_by by entries ≡ sum_by (λ asked. entries_by asked by entries) asked_kinds }
{}

/// How many entries came through a number, and how many are asked: those of a history's parts
/// together, and in a front no more. Where every number is below a bound, the entries through all
/// these numbers are all entries.
pub fn numbers_add_up()
    ensures through { (by : ℕ) (front back : List Entry)
        → entries_through by (front ++ back) ≡ entries_through by front + entries_through by back }
    ensures asked_by { (by : ℕ) (front back : List Entry)
        → events_asked_by by (front ++ back) ≡ events_asked_by by front + events_asked_by by back }
    ensures asked_of { (front back : List Entry)
        → asked_of (front ++ back) ≡ asked_of front + asked_of back }
    ensures front_through { (by : ℕ) (front back : List Entry)
        → entries_through by front ≤ entries_through by (front ++ back) }
    ensures front_asked_by { (by : ℕ) (front back : List Entry)
        → events_asked_by by front ≤ events_asked_by by (front ++ back) }
    ensures front_asked_of { (front back : List Entry) → asked_of front ≤ asked_of (front ++ back) }
    ensures one_through { (by : ℕ) (entry : Entry)
        → entries_through by (entry ∷ []) ≡ (if entry.by == by then 1 else 0) }
    ensures one_asked_by { (by : ℕ) (entry : Entry)
        → events_asked_by by (entry ∷ [])
        ≡ (if not (is_quiet entry.event) && (entry.by == by) then 1 else 0) }
    ensures one_asked_of { (entry : Entry)
        → asked_of (entry ∷ []) ≡ (if not (is_quiet entry.event) then 1 else 0) }
    ensures all { (bound : ℕ) (entries : List Entry)
        → AllByRecursion (λ entry. entry.by < bound) entries
        → sum_by (λ by. entries_through by entries) (range_with_len 0 bound) ≡ length entries }
{}

/// A front of a history is a history with the same opening board, and what is behind it goes on
/// from its last board; what goes on from the last board of a history makes it longer. The point
/// that a history has come to is its length.
pub fn fronts_are_runs()
    ensures none { (opening : Seen) → IsOpening opening → IsValidBoard opening
        → IsRun (record { opening = opening; entries = [] }) }
    ensures front { (opening : Seen) (front back : List Entry)
        → IsRun (record { opening = opening; entries = front ++ back })
        → IsRun (record { opening = opening; entries = front }) }
    ensures behind { (opening : Seen) (front back : List Entry)
        → IsRun (record { opening = opening; entries = front ++ back })
        → AreSteps (last_board opening front) back }
    ensures longer { (opening : Seen) (front back : List Entry)
        → IsRun (record { opening = opening; entries = front })
        → AreSteps (last_board opening front) back
        → IsRun (record { opening = opening; entries = front ++ back }) }
    ensures next { (opening : Seen) (entries : List Entry) (entry : Entry)
        → IsRun (record { opening = opening; entries = entries })
        → Step (last_board opening entries) entry.event entry.board
        → IsRun (record { opening = opening; entries = entries ++ entry ∷ [] }) }
    ensures valid { (run : Run) → IsRun run → IsValidBoard (last_board run.opening run.entries) }
    ensures point { (run : Run) → IsRun run
        → (last_board run.opening run.entries).point ≡ length run.entries }
{
    edits_are_decided();
}

/// What a board shows of a finished paragraph are the marks of its text alone, by the dictionary in
/// force.
pub fn finished_marks_are_local()
    ensures { (board : Seen) (place : ℕ) (paragraph : Paragraph)
        → slice_get board.paragraphs place ≡ Some paragraph
        → slice_get board.standings place ≡ Some Finished
        → slice_get (view_of board).shown place
        ≡ Some (Marked (marks_in board.lexicon (chars paragraph.text))) }
{
    shown_marks_are_local();
}

/// On a valid board a paragraph is the one that its id names, and stands at the place of its id;
/// and so is the one that stands at the place of an id.
pub fn ids_name_paragraphs()
    ensures own { (board : Seen) (place : ℕ) (paragraph : Paragraph) → IsValidBoard board
        → slice_get board.paragraphs place ≡ Some paragraph
        → with_id paragraph.id board.paragraphs ≡ Some paragraph }
    ensures at { (board : Seen) (id place : ℕ) (paragraph : Paragraph) (stands : Standing)
        → IsAt board id place paragraph stands
        → with_id id board.paragraphs ≡ Some paragraph }
    ensures place { (board : Seen) (place : ℕ) (paragraph : Paragraph) → IsValidBoard board
        → slice_get board.paragraphs place ≡ Some paragraph
        → place_of paragraph.id board.paragraphs ≡ Some place }
{}

/// Which checks are fit to finish a paragraph of a board: one of its own paragraph's text by the
/// dictionary in force; one of a paragraph of an earlier board of its history, for the rev and the
/// dictionary version of then; and, in a list of events, those of the first board's paragraphs,
/// while its dictionary alone is loaded.
pub fn checks_are_fit()
    ensures own { (board : Seen) (place rev dict : ℕ) (paragraph : Paragraph) → IsValidBoard board
        → slice_get board.paragraphs place ≡ Some paragraph
        → IsFitCheck board paragraph.id rev dict paragraph.text board.lexicon }
    ensures later { (earlier later : Seen) (id : ℕ) (paragraph : Paragraph) → OnlyGrew earlier later
        → with_id id earlier.paragraphs ≡ Some paragraph
        → IsFitCheck later id paragraph.rev earlier.dict_version paragraph.text earlier.lexicon }
    ensures list { (board : Seen) (events : List SeenEvent) → IsValidBoard board
        → AllByRecursion (IsOfBoard board) events
        → AreFit board events }
{
    edits_are_decided();
}
