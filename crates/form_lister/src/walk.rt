//! The walk from each entry to its forms: rules are attached that the flags of the entry allow, and
//! rules that are allowed by others.

ghost use Rattle.std.specs.Prelude.{◌≡◌, ℕ, None, Some, is_some, Contains, IfOk, IfErr, OnOk};
ghost use Rattle.spell_types.specs.declared.rules.Side.TheVariants.{Prefix, Suffix};
ghost use Rattle.spell_types.specs.Derivations.{derivation_of, form_of};
ghost use Rattle.form_lister.specs.Choices.{HasChoices};
ghost use Rattle.form_lister.specs.Forms.{IsFaultOf};
ghost use Rattle.form_lister.specs.Walks.{flags_at, carried_at, IsUnderWay, Adds, AtSome, Each};
ghost use Rattle.form_lister.specs.Walks.{IsFrom, HasFirst, HasSuffixes, HasPair};
ghost use Rattle.form_lister.specs.Walks.{IsOfEntryAndPrefix};

use crate::choices::RulesByFlag;
use crate::faults::FormsFault;
use crate::found::Found;
use affix_strip::Stems;
use spell_types::lists::NoMemory;
use spell_types::{Derivation, Flag, Side, alone, entry_flags, form};
use std::alloc::Global;

/// What the walk is given.
#[derive(Drop)]
pub(crate) struct Walk<'a> {
    pub(crate) alloc: Global,
    pub(crate) stems: &'a Stems,
    /// The rules of the dictionary.
    pub(crate) rules: RulesByFlag,
    /// No more forms than these may be found.
    pub(crate) limit: u64,
}

impl<'a> Walk<'a> {
    /// Puts in the forms of all entries.
    pub(crate) fn add_all(&self, found: &mut Found) -> Result<(), FormsFault>
        requires { IsUnderWay self.now found.old }
        ensures adds { OnOk result (Adds self.now Each found.old found.new) }
        ensures fault { IfErr result (IsFaultOf self.now.stems.now self.now.limit) }
    {
        let count = self.stems.lexicon().entries.len();
        for entry in 0..count {
            self.add_entry(entry as u32, found)?;
        }
        Ok(())
    }

    /// Puts in the forms of an entry.
    fn add_entry(&self, entry: u32, found: &mut Found) -> Result<(), FormsFault>
        requires { IsUnderWay self.now found.old }
        ensures adds { OnOk result (Adds self.now (IsFrom entry) found.old found.new) }
        ensures fault { IfErr result (IsFaultOf self.now.stems.now self.now.limit) }
    {
        let flags = self.flags_of(entry);
        let prefixes = self.rules.choices(self.alloc, Side::Prefix, flags)?;
        let firsts = self.rules.choices(self.alloc, Side::Suffix, flags)?;
        self.add_firsts(entry, prefixes.as_slice(), firsts.as_slice(), found)?;
        self.add_behind_prefixes(entry, prefixes.as_slice(), found)
    }

    /// Puts in the forms of an entry with one of these first suffixes, or with none if that is
    /// among them. Given are the prefixes that the entry allows.
    fn add_firsts(
        &self,
        entry: u32,
        prefixes: &[Option<u32>],
        firsts: &[Option<u32>],
        found: &mut Found,
    ) -> Result<(), FormsFault>
        requires way { IsUnderWay self.now found.old }
        requires prefixes { HasChoices self.now.stems.now.affixes.rules Prefix
            (flags_at self.now.stems.now entry) prefixes.now }
        ensures adds { OnOk result
            (Adds self.now (AtSome (HasFirst entry) firsts.now) found.old found.new) }
        ensures fault { IfErr result (IsFaultOf self.now.stems.now self.now.limit) }
    {
        for first in firsts {
            self.add_first(entry, prefixes, *first, found)?;
        }
        Ok(())
    }

    /// Puts in those with this first suffix, or with none. Where it is not attached to the entry's
    /// word nothing is tried behind it.
    fn add_first(
        &self,
        entry: u32,
        prefixes: &[Option<u32>],
        first: Option<u32>,
        found: &mut Found,
    ) -> Result<(), FormsFault>
        requires way { IsUnderWay self.now found.old }
        requires prefixes { HasChoices self.now.stems.now.affixes.rules Prefix
            (flags_at self.now.stems.now entry) prefixes.now }
        ensures adds { OnOk result (Adds self.now (HasFirst entry first) found.old found.new) }
        ensures fault { IfErr result (IsFaultOf self.now.stems.now self.now.limit) }
    {
        if !self.has_form(entry, first, None)? {
            return Ok(());
        }
        let carried = self.carried_by(first);
        let seconds = self.rules.choices(self.alloc, Side::Suffix, carried)?;
        self.add_seconds(entry, prefixes, first, seconds.as_slice(), found)
    }

    /// Puts in those with this first suffix and one of these second suffixes, or with none if that
    /// is among them.
    fn add_seconds(
        &self,
        entry: u32,
        prefixes: &[Option<u32>],
        first: Option<u32>,
        seconds: &[Option<u32>],
        found: &mut Found,
    ) -> Result<(), FormsFault>
        requires way { IsUnderWay self.now found.old }
        requires prefixes { HasChoices self.now.stems.now.affixes.rules Prefix
            (flags_at self.now.stems.now entry) prefixes.now }
        ensures adds { OnOk result
            (Adds self.now (AtSome (HasSuffixes entry first) seconds.now) found.old found.new) }
        ensures fault { IfErr result (IsFaultOf self.now.stems.now self.now.limit) }
    {
        for second in seconds {
            self.add_second(entry, prefixes, first, *second, found)?;
        }
        Ok(())
    }

    /// Puts in those with these suffixes: with a prefix that the entry allows, or with none, and
    /// with one that a suffix allows.
    fn add_second(
        &self,
        entry: u32,
        prefixes: &[Option<u32>],
        first: Option<u32>,
        second: Option<u32>,
        found: &mut Found,
    ) -> Result<(), FormsFault>
        requires way { IsUnderWay self.now found.old }
        requires prefixes { HasChoices self.now.stems.now.affixes.rules Prefix
            (flags_at self.now.stems.now entry) prefixes.now }
        ensures adds { OnOk result
            (Adds self.now (HasSuffixes entry first second) found.old found.new) }
        ensures fault { IfErr result (IsFaultOf self.now.stems.now self.now.limit) }
    {
        let by_first = self
            .rules
            .allowed(self.alloc, Side::Prefix, self.carried_by(first))?;
        let by_second = self
            .rules
            .allowed(self.alloc, Side::Prefix, self.carried_by(second))?;
        self.add_prefixes(entry, prefixes, first, second, found)?;
        self.add_prefixes(entry, by_first.as_slice(), first, second, found)?;
        self.add_prefixes(entry, by_second.as_slice(), first, second, found)
    }

    /// Puts in those with these suffixes and one of these prefixes, or with none if that is among
    /// them.
    fn add_prefixes(
        &self,
        entry: u32,
        prefixes: &[Option<u32>],
        first: Option<u32>,
        second: Option<u32>,
        found: &mut Found,
    ) -> Result<(), FormsFault>
        requires { IsUnderWay self.now found.old }
        ensures adds { OnOk result (Adds self.now
            (AtSome (λ prefix d. d ≡ derivation_of entry prefix first second) prefixes.now)
            found.old found.new) }
        ensures fault { IfErr result (IsFaultOf self.now.stems.now self.now.limit) }
    {
        for prefix in prefixes {
            self.add_form(entry, *prefix, first, second, found)?;
        }
        Ok(())
    }

    /// Puts in the forms of an entry with one of these prefixes, and with a first suffix that the
    /// prefix allows.
    fn add_behind_prefixes(
        &self,
        entry: u32,
        prefixes: &[Option<u32>],
        found: &mut Found,
    ) -> Result<(), FormsFault>
        requires { IsUnderWay self.now found.old }
        ensures adds { OnOk result
            (Adds self.now (AtSome (IsOfEntryAndPrefix self.now.stems.now entry) prefixes.now) found.old
            found.new) }
        ensures fault { IfErr result (IsFaultOf self.now.stems.now self.now.limit) }
    {
        for prefix in prefixes {
            self.add_behind(entry, *prefix, found)?;
        }
        Ok(())
    }

    /// Puts in those with this prefix.
    fn add_behind(
        &self,
        entry: u32,
        prefix: Option<u32>,
        found: &mut Found,
    ) -> Result<(), FormsFault>
        requires { IsUnderWay self.now found.old }
        ensures adds { OnOk result
            (Adds self.now (IsOfEntryAndPrefix self.now.stems.now entry prefix) found.old found.new) }
        ensures fault { IfErr result (IsFaultOf self.now.stems.now self.now.limit) }
    {
        let carried = self.carried_by(prefix);
        let firsts = self.rules.allowed(self.alloc, Side::Suffix, carried)?;
        self.add_pairs(entry, prefix, firsts.as_slice(), found)
    }

    /// Puts in those with this prefix and one of these first suffixes.
    fn add_pairs(
        &self,
        entry: u32,
        prefix: Option<u32>,
        firsts: &[Option<u32>],
        found: &mut Found,
    ) -> Result<(), FormsFault>
        requires { IsUnderWay self.now found.old }
        ensures adds { OnOk result
            (Adds self.now (AtSome (HasPair entry prefix) firsts.now) found.old found.new) }
        ensures fault { IfErr result (IsFaultOf self.now.stems.now self.now.limit) }
    {
        for first in firsts {
            self.add_pair(entry, prefix, *first, found)?;
        }
        Ok(())
    }

    /// Puts in those with this prefix and this first suffix.
    fn add_pair(
        &self,
        entry: u32,
        prefix: Option<u32>,
        first: Option<u32>,
        found: &mut Found,
    ) -> Result<(), FormsFault>
        requires { IsUnderWay self.now found.old }
        ensures adds { OnOk result
            (Adds self.now (HasPair entry prefix first) found.old found.new) }
        ensures fault { IfErr result (IsFaultOf self.now.stems.now self.now.limit) }
    {
        if !self.has_form(entry, first, None)? {
            return Ok(());
        }
        let carried = self.carried_by(first);
        let seconds = self.rules.choices(self.alloc, Side::Suffix, carried)?;
        self.add_pair_seconds(entry, prefix, first, seconds.as_slice(), found)
    }

    /// Puts in those with this prefix, this first suffix and one of these second suffixes, or with
    /// none if that is among them.
    fn add_pair_seconds(
        &self,
        entry: u32,
        prefix: Option<u32>,
        first: Option<u32>,
        seconds: &[Option<u32>],
        found: &mut Found,
    ) -> Result<(), FormsFault>
        requires { IsUnderWay self.now found.old }
        ensures adds { OnOk result (Adds self.now
            (AtSome (λ second d. d ≡ derivation_of entry prefix first second) seconds.now)
            found.old found.new) }
        ensures fault { IfErr result (IsFaultOf self.now.stems.now self.now.limit) }
    {
        for second in seconds {
            self.add_form(entry, prefix, first, *second, found)?;
        }
        Ok(())
    }

    /// Puts in the form of the derivation from an entry with these affixes, if it stands alone and
    /// may be listed.
    fn add_form(
        &self,
        entry: u32,
        prefix: Option<u32>,
        first: Option<u32>,
        second: Option<u32>,
        found: &mut Found,
    ) -> Result<(), FormsFault>
        requires { IsUnderWay self.now found.old }
        ensures adds { OnOk result (Adds self.now
            (λ d. d ≡ derivation_of entry prefix first second) found.old found.new) }
        ensures fault { IfErr result (IsFaultOf self.now.stems.now self.now.limit) }
    {
        let d = Derivation {
            entry,
            prefix,
            first,
            second,
        };
        let lexicon = self.stems.lexicon();
        if !alone(lexicon, &d) {
            return Ok(());
        }
        match form(self.alloc, lexicon, &d)? {
            None => Ok(()),
            Some(word) => found.add(self.alloc, self.stems, self.limit, word),
        }
    }

    /// Whether these suffixes may be attached to the word of an entry.
    fn has_form(
        &self,
        entry: u32,
        first: Option<u32>,
        second: Option<u32>,
    ) -> Result<bool, NoMemory>
        ensures { IfOk result (λ has. has
            ≡ is_some (form_of self.now.stems.now (derivation_of entry None first second))) }
    {
        let d = Derivation {
            entry,
            prefix: None,
            first,
            second,
        };
        let word = form(self.alloc, self.stems.lexicon(), &d)?;
        Ok(word.is_some())
    }

    /// The flags of an entry.
    fn flags_of(&self, entry: u32) -> &[Flag]
        ensures { result.now ≡ flags_at self.now.stems.now entry }
    {
        let d = Derivation {
            entry,
            prefix: None,
            first: None,
            second: None,
        };
        match entry_flags(self.stems.lexicon(), &d) {
            None => &[],
            Some(flags) => flags.as_slice(),
        }
    }

    /// The flags that a rule carries, if one is named.
    fn carried_by(&self, named: Option<u32>) -> &[Flag]
        ensures { result.now ≡ carried_at self.now.stems.now named }
    {
        let Some(place) = named else {
            return &[];
        };
        match self.stems.lexicon().affixes.rules.get(place as usize) {
            None => &[],
            Some(rule) => rule.carried.as_slice(),
        }
    }
}
