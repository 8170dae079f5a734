//! What the calls of eyes and of desks rest on.

ghost use Rattle.std.specs.Prelude.{◌≡◌, ◌<◌, ◌≤◌, ◌^◌, ◌++◌, ◌∷◌, [], ℕ, List, length, map};
ghost use Rattle.std.specs.Prelude.{position, slice_get, None, Some, IsPermutation};
ghost use Rattle.std.specs.List.{AllByRecursion, range_with_len, sum_by};
ghost use mathlib.Core.List.{IsPrefix};
ghost use Rattle.edit_core.specs.paragraph_text.Paragraphs.{Paragraph};
ghost use Rattle.edit_core.specs.Events.{SeenEvent, AClaim, kind_of};
ghost use Rattle.edit_core.specs.Runs.{Entry, IsRun, Run, is_waiting};
ghost use Rattle.edit_core.specs.Seen.{IsValidBoard, Seen};
ghost use Rattle.edit_core.specs.Steps.{IsFit, first_refusal};
ghost use Rattle.board_share.specs.Endings.{IsSeenIn, IsTheirs};
ghost use Rattle.board_share.specs.Events.{MayPublish};
ghost use Rattle.board_share.specs.Eyes.{EyeSeen, IsCounted, counted, entries_in, last_of};
ghost use Rattle.board_share.specs.declared.counts.Counts.{Counts};

use edit_core::{
    checks_are_fit, entries_add_up, ids_name_paragraphs, kinds_add_up, runs_only_grow,
};

/// A check of a paragraph of one board of a history is fit for its last board: where the rev and
/// the dictionary version are still the same, so are the text and the dictionary.
pub(crate) fn known_checks_are_fit()
    ensures { (run : Run) (event : SeenEvent) → IsRun run → MayPublish run event
        → IsFit (last_of run) event }
{
    runs_only_grow();
    checks_are_fit();
}

/// What was counted of a history is in each longer one; an event more through the same number can
/// be counted; and no more was counted than there is.
pub(crate) fn counts_stay_true()
    ensures later { (by : ℕ) (front whole : List Entry) (counts : Counts) → IsPrefix front whole
        → IsCounted by front counts → IsCounted by whole counts }
    ensures more { (by : ℕ) (entries : List Entry) (event : SeenEvent) (board : Seen)
        (counts : Counts) → IsCounted by entries counts
        → IsCounted by (entries ++ record { by = by; event = event; board = board } ∷ [])
        (counted (kind_of event) counts) }
    ensures few { (by : ℕ) (entries : List Entry) (counts : Counts) → IsCounted by entries counts
        → entries_in counts ≤ length entries }
{
    entries_add_up();
    kinds_add_up();
}

/// The eyes of a desk are numbered from 0. Where they have counted as many events together as its
/// history has, these are all its events, each through the eye that counted it.
pub(crate) fn all_events_are_theirs()
    ensures { (count : ℕ) (eyes : List EyeSeen) (history : Run) → IsRun history
        → IsPermutation (range_with_len 0 count) (map (λ eye. eye.number) eyes)
        → AllByRecursion (IsSeenIn history) eyes
        → sum_by (λ eye. entries_in eye.counts) eyes ≡ length history.entries
        → IsTheirs eyes history }
{
    kinds_add_up();
}

/// The first paragraph that waits on a valid board is refused no worker that names its rev, while
/// the history goes on.
pub(crate) fn waiting_is_free()
    ensures { (board : Seen) (worker place : ℕ) (paragraph : Paragraph) → IsValidBoard board
        → board.point < 2 ^ 62 → position is_waiting board.standings ≡ Some place
        → slice_get board.paragraphs place ≡ Some paragraph
        → first_refusal board (AClaim worker paragraph.id paragraph.rev) ≡ None }
{
    ids_name_paragraphs();
}
