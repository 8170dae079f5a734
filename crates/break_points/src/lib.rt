//! Words that are accepted in pieces: the option BREAK of hunspell(5).
#![tactic(auto)]

ghost use Rattle.std.specs.Prelude.{◌≡◌, Bool, true, ℕ, ◌+◌, ◌≤◌, ◌<◌, List, length, slice_range};
ghost use Rattle.std.specs.Prelude.{Ok, IfOk, IsTrue};
ghost use Rattle.std.specs.Fn.{FnReturnsAt};
ghost use Rattle.std.specs.List.{list_any};
ghost use Rattle.spell_types.specs.declared.breaks.Anchored.{Anchored};
ghost use Rattle.spell_types.specs.Breaks.{is_broken, IsBroken};
ghost use Rattle.break_points.specs.declared.Judged.{Judged};
ghost use Rattle.break_points.specs.Judging.{is_base_by, is_barred_by, AnswersAs};
ghost use Rattle.break_points.specs.Occurrences.{AreOccurrences};
ghost use Rattle.break_points.specs.Pieces.{is_broken_piece, is_broken_as_judged, IsTableRight};
ghost use Rattle.break_points.specs.Pieces.{is_shorter};
ghost use Rattle.break_points.specs.Pieces.{all_left, ways_of};

mod breaks;
mod occurrences;
mod table;
mod ways;

pub use breaks::Breaks;
use occurrences::{Occurrence, occurrences_in};
use spell_types::Anchored;
use spell_types::lists::NoMemory;
use std::alloc::Global;
use table::{Stretch, Table};
use ways::Way;

/// What a dictionary says of a word, or of a piece of one, as it stands.
#[derive(Clone, Copy, Debug, PartialEq, Eq)]
pub enum Judged {
    /// It is accepted, and need not be broken.
    Base,
    /// It is not accepted, and may be broken.
    Other,
    /// It is not accepted, and may not be broken.
    Barred,
}

/// Whether a word is accepted as it stands or in pieces, by the judge of each. The judge is asked
/// only for pieces to which breaking leads, and once for each stretch of the word. The only error
/// is want of memory, of its own or told by the judge.
pub fn broken<F: Fn(&[char]) -> Result<Judged, NoMemory>>(
    alloc: Global,
    breaks: &[Anchored],
    word: &[char],
    judge: &F,
) -> Result<bool, NoMemory>
    requires { F.IsAlwaysCallable judge.now }
    ensures { (judged : List ℕ → Judged) → AnswersAs (FnReturnsAt F.Fn judge.now) judged
        → IfOk result (λ answer. answer
        ≡ is_broken (is_base_by judged) (is_barred_by judged) breaks.now word.now) }
{
    let breaks = Breaks::new(alloc, breaks)?;
    breaks.broken(alloc, word, judge)
}

impl Breaks {
    /// The same by patterns that are prepared. Where none of their texts stands in the word the
    /// judge is asked once, and no memory is taken.
    pub fn broken<F: Fn(&[char]) -> Result<Judged, NoMemory>>(
        &self,
        alloc: Global,
        word: &[char],
        judge: &F,
    ) -> Result<bool, NoMemory>
        requires { F.IsAlwaysCallable judge.now }
        ensures { (judged : List ℕ → Judged) → AnswersAs (FnReturnsAt F.Fn judge.now) judged
            → IfOk result (λ answer. answer ≡ is_broken_as_judged judged self.now word.now) }
    {
        match judge(word)? {
            Judged::Base => return Ok(true),
            Judged::Barred => return Ok(false),
            Judged::Other => {}
        }
        let occurrences = occurrences_in(alloc, self.patterns.as_slice(), word)?;
        if occurrences.is_empty() {
            return Ok(false);
        }
        let mut table = Table::new(alloc);
        let whole = Stretch {
            from: 0,
            to: word.len(),
        };
        decide_parts(word, occurrences.as_slice(), judge, &mut table, whole)
    }
}

/// Whether a piece of the word is accepted as it stands or in pieces, from the table if it stands
/// there.
#[cycle(deciding)]
fn decide<F: Fn(&[char]) -> Result<Judged, NoMemory>>(
    word: &[char],
    occurrences: &[Occurrence],
    judge: &F,
    table: &mut Table,
    piece: Stretch,
) -> Result<bool, NoMemory>
    requires callable { F.IsAlwaysCallable judge.now }
    requires ordered { piece.from ≤ piece.to }
    requires within { piece.to ≤ length word.now }
    ensures { (judged : List ℕ → Judged) (breaks : List Anchored)
        → AnswersAs (FnReturnsAt F.Fn judge.now) judged
        → AreOccurrences breaks word.now occurrences.now
        → IsTableRight (is_broken_piece judged breaks word.now) table.old
        → IfOk result (λ answer. (answer ≡ is_broken_piece judged breaks word.now piece)
        × IsTableRight (is_broken_piece judged breaks word.now) table.new) }
{
    if let Some(answer) = table.get(piece) {
        return Ok(answer);
    }
    let answer = decide_anew(word, occurrences, judge, table, piece)?;
    table.put(piece, answer)?;
    Ok(answer)
}

/// The same for a piece that does not stand in the table yet.
#[cycle(deciding)]
fn decide_anew<F: Fn(&[char]) -> Result<Judged, NoMemory>>(
    word: &[char],
    occurrences: &[Occurrence],
    judge: &F,
    table: &mut Table,
    piece: Stretch,
) -> Result<bool, NoMemory>
    requires callable { F.IsAlwaysCallable judge.now }
    requires ordered { piece.from ≤ piece.to }
    requires within { piece.to ≤ length word.now }
    ensures { (judged : List ℕ → Judged) (breaks : List Anchored)
        → AnswersAs (FnReturnsAt F.Fn judge.now) judged
        → AreOccurrences breaks word.now occurrences.now
        → IsTableRight (is_broken_piece judged breaks word.now) table.old
        → IfOk result (λ answer. (answer ≡ is_broken_piece judged breaks word.now piece)
        × IsTableRight (is_broken_piece judged breaks word.now) table.new) }
{
    match judge(&word[piece.from..piece.to])? {
        Judged::Base => Ok(true),
        Judged::Barred => Ok(false),
        Judged::Other => decide_parts(word, occurrences, judge, table, piece),
    }
}

/// Whether a piece that may be broken is accepted in pieces.
#[cycle(deciding)]
fn decide_parts<F: Fn(&[char]) -> Result<Judged, NoMemory>>(
    word: &[char],
    occurrences: &[Occurrence],
    judge: &F,
    table: &mut Table,
    piece: Stretch,
) -> Result<bool, NoMemory>
    requires callable { F.IsAlwaysCallable judge.now }
    requires ordered { piece.from ≤ piece.to }
    requires within { piece.to ≤ length word.now }
    ensures { (judged : List ℕ → Judged) (breaks : List Anchored)
        → AnswersAs (FnReturnsAt F.Fn judge.now) judged
        → AreOccurrences breaks word.now occurrences.now
        → IsTableRight (is_broken_piece judged breaks word.now) table.old
        → IfOk result (λ answer. (answer
        ≡ list_any (all_left (is_broken_as_judged judged breaks)
        (slice_range word.now piece.from piece.to))
        (ways_of breaks (slice_range word.now piece.from piece.to)))
        × IsTableRight (is_broken_piece judged breaks word.now) table.new) }
{
    for occurrence in occurrences {
        if let Some(way) = occurrence.way(piece) {
            if decide_way(word, occurrences, judge, table, piece, way)? {
                return Ok(true);
            }
        }
    }
    Ok(false)
}

/// Whether all is accepted that this way leaves of the piece.
#[cycle(deciding)]
fn decide_way<F: Fn(&[char]) -> Result<Judged, NoMemory>>(
    word: &[char],
    occurrences: &[Occurrence],
    judge: &F,
    table: &mut Table,
    piece: Stretch,
    way: Way,
) -> Result<bool, NoMemory>
    requires callable { F.IsAlwaysCallable judge.now }
    requires ordered { piece.from ≤ piece.to }
    requires within { piece.to ≤ length word.now }
    requires shorter { IsTrue (is_shorter (slice_range word.now piece.from piece.to) way) }
    ensures { (judged : List ℕ → Judged) (breaks : List Anchored)
        → AnswersAs (FnReturnsAt F.Fn judge.now) judged
        → AreOccurrences breaks word.now occurrences.now
        → IsTableRight (is_broken_piece judged breaks word.now) table.old
        → IfOk result (λ answer. (answer
        ≡ all_left (is_broken_as_judged judged breaks) (slice_range word.now piece.from piece.to) way)
        × IsTableRight (is_broken_piece judged breaks word.now) table.new) }
{
    match way {
        Way::Between(end, start) => Ok(
            decide(word, occurrences, judge, table, piece.before(end))?
                && decide(word, occurrences, judge, table, piece.behind(start))?,
        ),
        Way::Behind(start) => decide(word, occurrences, judge, table, piece.behind(start)),
        Way::Before(end) => decide(word, occurrences, judge, table, piece.before(end)),
    }
}

/// The words that are accepted as they stand or in pieces are exactly those of the least relation:
/// each has a finite tree of breaks at whose ends stand words that are accepted as they stand.
pub fn broken_words_are()
    ensures tree { (base barred : List ℕ → Bool) (breaks : List Anchored) (word : List ℕ) →
        is_broken base barred breaks word ≡ true → IsBroken base barred breaks word }
    ensures broken { (base barred : List ℕ → Bool) (breaks : List Anchored) (word : List ℕ) →
        IsBroken base barred breaks word → is_broken base barred breaks word ≡ true }
{}
