//! Who is shown the derivations of a word.

ghost use Rattle.std.specs.Prelude.{◌≡◌, Bool, true, false, Contains, IfOk};
ghost use Rattle.spell_types.specs.declared.derivations.Derivation.{Derivation};
ghost use Rattle.spell_types.specs.Bases.{is_alone_in_case};
ghost use Rattle.spell_types.specs.Licences.{is_forbidden};
ghost use Rattle.affix_strip.specs.Parts.{Sight, sees_by, Shows};

use spell_types::lists::NoMemory;
use spell_types::{Case, Derivation, Lexicon, alone_in_case, forbidden};

/// Who is shown derivations, one after another, and may end the walk to them.
pub(crate) trait Visitor {
    /// What it has let pass, and where it ends the walk.
    ghost sees: { Self → Sight };

    /// Shows it a derivation. The answer is whether the walk is over.
    fn visit(&mut self, d: Derivation) -> Result<bool, NoMemory>
        ensures { IfOk result (Shows (λ e. e ≡ d) (sees self.old) (sees self.new)) };
}

/// A list of all that are shown.
impl Visitor for Vec<Derivation> {
    ghost sees = { λ found. record { passed = Contains found.items; ends = λ d. ⊥ } };

    fn visit(&mut self, d: Derivation) -> Result<bool, NoMemory> {
        self.push(d)?;
        Ok(false)
    }
}

/// A test of derivations.
pub(crate) trait Test {
    /// Which of them pass.
    ghost passing: { Self → Derivation → Bool };

    fn passes(&self, d: &Derivation) -> bool
        ensures { result ≡ passing self.now d.now };
}

/// A test whose walk is over at the first derivation that passes.
#[derive(Drop)]
pub(crate) struct Question<T> {
    pub(crate) test: T,
}

impl<T: Test> Visitor for Question<T> {
    ghost sees = { λ question. sees_by (T.passing question.test) };

    fn visit(&mut self, d: Derivation) -> Result<bool, NoMemory> {
        Ok(self.test.passes(&d))
    }
}

/// Whether a derivation is that of a forbidden word.
#[derive(Clone, Copy)]
pub(crate) struct Forbidden<'a> {
    pub(crate) lexicon: &'a Lexicon,
}

impl Test for Forbidden<'_> {
    ghost passing = { λ test. is_forbidden test.lexicon.now };

    fn passes(&self, d: &Derivation) -> bool {
        forbidden(self.lexicon, d)
    }
}

/// Whether a derivation stands as a word that is written in this case.
#[derive(Clone, Copy)]
pub(crate) struct Alone<'a> {
    pub(crate) case: Case,
    pub(crate) lexicon: &'a Lexicon,
}

impl Test for Alone<'_> {
    ghost passing = { λ test. is_alone_in_case test.case test.lexicon.now };

    fn passes(&self, d: &Derivation) -> bool {
        alone_in_case(self.case, self.lexicon, d)
    }
}
