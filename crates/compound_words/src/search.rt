//! Of what compounds are asked, and the parts that there are.

ghost use Rattle.std.specs.Prelude.{◌≡◌, ◌<◌, ◌+◌, ◌++◌, ℕ, List, Some, true, false, nat_lt};
ghost use Rattle.std.specs.Prelude.{length, IfOk};
ghost use Rattle.std.specs.Prelude.{OnOk, filter, map};
ghost use Rattle.spell_types.specs.declared.derivations.Derivation.{Derivation};
ghost use Rattle.spell_types.specs.Derivations.{form_of};
ghost use Rattle.affix_strip.specs.Found.{derivations_of};
ghost use Rattle.spell_types.specs.Compounds.{are_joined, may_be_part, part_with, is_right_in_case};
ghost use Rattle.spell_types.specs.Compounds.{may_end};
ghost use Rattle.spell_types.specs.Sanity.{IsSane};
ghost use Rattle.compound_words.specs.Rests.{asked_by};

use affix_strip::Stems;
use joint_checks::{is_long_enough, is_plain, is_written_joint};
use spell_types::lists::{Copied, Items, NoMemory};
use spell_types::{Derivation, Lexicon, Part, Pattern, WrittenJoint, has_entry_with, sound};
use std::alloc::Global;

/// Of what a compound is asked.
#[derive(Clone, Copy)]
pub(crate) struct Search<'a> {
    pub(crate) stems: &'a Stems,
    /// The compound rules that are looked at.
    pub(crate) rules: &'a [Pattern],
    /// Whether the word differs in case from the one that is written.
    pub(crate) by_case: bool,
    /// Whether the written word begins in upper case.
    pub(crate) capital: bool,
}

impl Search<'_> {
    pub(crate) fn lexicon(&self) -> &Lexicon
        ensures dictionary { result.now ≡ self.now.stems.now }
        ensures sane { IsSane self.now.stems.now }
    {
        self.stems.lexicon()
    }

    /// The dictionary is as the readers give it, so that each part has a character.
    pub(crate) fn dictionary_is_sane(&self)
        ensures { IsSane self.now.stems.now }
    {
        self.lexicon();
    }

    /// Whether a compound may have a derivation with this text as a part, of which joints take so
    /// much off.
    fn may_be_part(
        &self,
        text: &[char],
        d: &Derivation,
        off_begin: usize,
        joint: &WrittenJoint,
    ) -> bool
        ensures { result ≡ may_be_part (asked_by self.now)
            (part_with off_begin joint.now d.now text.now) }
    {
        is_long_enough(self.lexicon(), text)
            && sound(self.lexicon(), d)
            && self.is_right_in_case(d)
            && keeps_some(text, off_begin, joint.off_end)
    }

    fn is_right_in_case(&self, d: &Derivation) -> bool
        ensures { result ≡ is_right_in_case (asked_by self.now) d.now }
    {
        let lexicon = self.lexicon();
        !(self.by_case && has_entry_with(lexicon.affixes.signs.keep_case, lexicon, d))
    }

    /// Whether a word may end with the part.
    pub(crate) fn may_end(&self, part: &Part) -> bool
        ensures { result ≡ may_end (asked_by self.now) part.now }
    {
        let lexicon = self.lexicon();
        is_plain(&part.joint)
            && (self.capital
                || !has_entry_with(lexicon.affixes.signs.force_upper, lexicon, &part.d))
    }

    /// Whether two parts are written together by the joint behind the first.
    pub(crate) fn do_meet(&self, part: &Part, next: &Part) -> bool
        ensures { result ≡ are_joined (asked_by self.now) part.now next.now }
    {
        next.off_begin == part.joint.off_begin
            && is_written_joint(
                self.lexicon(),
                &part.text,
                &part.d,
                &next.text,
                &next.d,
                &part.joint,
            )
    }

    /// Whether a text of so many characters is longer than every form of the dictionary.
    pub(crate) fn is_too_long(&self, count: usize) -> bool
        ensures { result ≡ true → (d : Derivation) (text : List ℕ)
            → form_of self.now.stems.now d ≡ Some text → length text < count }
    {
        self.stems.is_too_long(count)
    }

    /// The derivations whose form is a text.
    pub(crate) fn derivations(
        &self,
        alloc: Global,
        text: &[char],
    ) -> Result<Vec<Derivation>, NoMemory>
        ensures { IfOk result (λ found. found.items ≡ derivations_of self.now.stems.now text.now) }
    {
        self.stems.derivations(alloc, text)
    }

    /// The parts with one of these derivations, all of which have this text.
    pub(crate) fn add_derived(
        &self,
        alloc: Global,
        text: &[char],
        off_begin: usize,
        joint: &WrittenJoint,
        derivations: &[Derivation],
        found: &mut Vec<Part>,
    ) -> Result<(), NoMemory>
        ensures { OnOk result (found.new.items ≡ found.old.items
            ++ filter (may_be_part (asked_by self.now))
            (map (λ d. part_with off_begin joint.now d text.now) derivations.now)) }
    {
        for d in derivations {
            if self.may_be_part(text, d, off_begin, joint) {
                found.push(Part {
                    text: Items::from_vec(text.to_vec(alloc)?),
                    d: *d,
                    off_begin,
                    joint: joint.copy(alloc)?,
                })?;
            }
        }
        Ok(())
    }
}

/// Whether a text keeps a character, if so many are taken off at both sides.
fn keeps_some(text: &[char], off_begin: usize, off_end: usize) -> bool
    ensures { result ≡ nat_lt (off_begin + off_end) (length text.now) }
{
    match text.len().checked_sub(off_begin) {
        None => false,
        Some(left) => off_end < left,
    }
}
