//! Faults at the lines of a file, and which of them is told.
//!
//! A fault has a line and a cause. Each file has causes of its own, in an order of its own. Of two
//! faults the one at the lower line is told, and at one line the one whose cause stands first. A
//! file may be looked through in passes: the first pass that has a fault decides.
#![tactic(auto)]

ghost use Rattle.std.specs.Prelude.{◌≡◌, ◌∷◌, ℕ, List, None, Some};
ghost use Rattle.line_faults.specs.declared.Fault.{Fault};
ghost use Rattle.line_faults.specs.Faults.{is_before, sooner, least_of, first_fault, FaultsJoin};
ghost use Rattle.line_faults.specs.Faults.{FindsLeast, IsFault, IsFirstFault};

/// What may be wrong with a line of a file of some kind.
pub trait Cause: Copy {
    /// The place of a cause among all causes of such a file.
    ghost number: { Self → ℕ };

    /// The place of this cause among all causes of such a file.
    fn number(self) -> u8
        ensures { result ≡ number self };
}

/// A fault of a file: the number of the line, from 1, and the cause.
#[derive(Clone, Copy, Debug, PartialEq, Eq)]
pub struct Fault<W> {
    pub line: u64,
    pub why: W,
}

/// The earlier of two faults: the one at the lower line, and at one line the one whose cause stands
/// first.
pub fn sooner<W: Cause>(first: Option<Fault<W>>, other: Option<Fault<W>>) -> Option<Fault<W>>
    ensures { result ≡ sooner W.number first other }
{
    match (first, other) {
        (None, other) => other,
        (first, None) => first,
        (Some(first), Some(other)) => Some(earlier(first, other)),
    }
}

fn earlier<W: Cause>(first: Fault<W>, other: Fault<W>) -> Fault<W>
    ensures { Some result ≡ sooner W.number (Some first) (Some other) }
{
    if is_before(other, first) {
        other
    } else {
        first
    }
}

fn is_before<W: Cause>(fault: Fault<W>, other: Fault<W>) -> bool
    ensures { result ≡ is_before W.number fault other }
{
    fault.line < other.line || (fault.line == other.line && fault.why.number() < other.why.number())
}

/// The first fault of a pass and those behind it, from the earliest fault of the pass and the first
/// fault of those behind it.
pub fn first_of_passes<W: Cause>(
    earliest: Option<Fault<W>>,
    later: Option<Fault<W>>,
) -> Option<Fault<W>>
    ensures { (faults : List (Fault W)) (passes : List (List (Fault W)))
        → earliest ≡ least_of W.number faults
        → later ≡ first_fault W.number passes → result ≡ first_fault W.number (faults ∷ passes) }
{
    earliest.or(later)
}

/// However causes are numbered: the earliest fault of two lists is the earlier of the earliest of
/// each, and the earliest of one is its least fault, or there is none.
pub fn earliest_faults<W>()
    ensures join { (number : W → ℕ) → FaultsJoin number }
    ensures least { (number : W → ℕ) → FindsLeast number }
{}

/// However causes are numbered: the first fault of some passes is the least fault of the first of
/// them that has one.
pub fn first_faults_are_least<W>()
    ensures none { (number : W → ℕ) (passes : List (List (Fault W)))
        → first_fault number passes ≡ None
        → (pass : ℕ) (fault : Fault W) → ¬ IsFault passes pass fault }
    ensures least { (number : W → ℕ) (passes : List (List (Fault W))) (fault : Fault W)
        → first_fault number passes ≡ Some fault → IsFirstFault number passes fault }
{}
