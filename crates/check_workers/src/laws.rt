//! What the calls of workers rest on.

ghost use Rattle.std.specs.Prelude.{◌≡◌, ◌<◌, ◌≤◌, ◌^◌, ℕ, List, length, false};
ghost use Rattle.mark_types.specs.spell_types.declared.Lexicon.{Lexicon};
ghost use Rattle.board_share.specs.edit_core.Events.{AFinish};
ghost use Rattle.board_share.specs.edit_core.Runs.{IsRun, Run};
ghost use Rattle.board_share.specs.Events.{IsClaimed, IsPublished, KnowsCheck};
ghost use Rattle.board_share.specs.Eyes.{EyeSeen, IsLater, last_of};
ghost use Rattle.board_share.specs.declared.told.Told.{Told};
ghost use Rattle.board_share.specs.declared.claim.Claim.{Claim};
ghost use Rattle.board_share.specs.Settled.{is_open_for};
ghost use Rattle.check_workers.specs.Knowing.{KnowsClaim, KnowsLexicon};

use board_share::edit_core::{fronts_are_runs, ids_name_paragraphs, runs_go_on, runs_only_grow};
use mark_types::Judge;

/// A worker that has claimed a paragraph knows the claim's board.
pub(crate) fn claims_are_known<J: Judge>()
    ensures { (worker : ℕ) (old new : EyeSeen) (claim : Claim J) → IsRun new.run → IsLater old new
        → IsClaimed J.lexicon worker old new claim → KnowsClaim J.lexicon new.run claim }
{
    fronts_are_runs();
    ids_name_paragraphs();
}

/// The text of a paragraph of a history is short.
pub(crate) fn known_texts_are_short()
    ensures { (run : Run) (id rev dict : ℕ) (text : List ℕ) (lexicon : Lexicon) → IsRun run
        → KnowsCheck run id rev dict text lexicon → length text < 2 ^ 32 }
{
    fronts_are_runs();
}

/// In one history equal dictionary versions have equal dictionaries.
pub(crate) fn versions_name_dictionaries()
    ensures { (run : Run) (dict : ℕ) (one other : Lexicon) → IsRun run
        → KnowsLexicon run dict one → KnowsLexicon run dict other → one ≡ other }
{
    fronts_are_runs();
    runs_only_grow();
}

/// Behind a finish no check for that rev and that dictionary version could finish the paragraph.
pub(crate) fn finishes_close()
    ensures published { (worker id rev dict : ℕ) (text : List ℕ) (lexicon : Lexicon)
        (old new : EyeSeen) (told : Told) → IsRun new.run → IsLater old new
        → IsPublished (AFinish worker id rev dict text lexicon) old new told
        → is_open_for id rev dict (last_of new.run) ≡ false }
    ensures point { (run : Run) → IsRun run → (last_of run).point ≤ 2 ^ 62 }
{
    fronts_are_runs();
    runs_go_on();
}
