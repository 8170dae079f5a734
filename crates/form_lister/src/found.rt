//! The forms that were found so far.

ghost use Rattle.std.specs.Prelude.{◌≡◌, ◌≤◌, [], List, length, nat_eq, IfOk, IfErr, OnOk};
ghost use Rattle.std.specs.Cmp.Lexicographic.{pointwise};
ghost use Rattle.indexmap.specs.IndexSet.{insert_key};
ghost use Rattle.form_lister.specs.Forms.{StandsAlone, forms_of, IsFaultOf};
ghost use Rattle.form_lister.specs.Found.{AreFound, HasAll, KeepsWords, HasForm, AreFormsSorted};

use crate::faults::FormsFault;
use crate::forms_are;
use affix_strip::Stems;
use indexmap::IndexSet;
use spell_types::Chars;
use spell_types::lists::NoMemory;
use std::alloc::Global;

/// The words that are found so far. Each is asked once whether it is forbidden.
#[derive(Drop)]
pub(crate) struct Found {
    /// The forms.
    words: IndexSet<Chars>,
    /// Words that are no forms, as they are forbidden.
    barred: IndexSet<Chars>,
}

impl Found {
    /// Nothing yet.
    pub(crate) fn new(alloc: Global) -> Found
        ensures { (result.words.keys ≡ []) × (result.barred.keys ≡ []) }
    {
        Found {
            words: IndexSet::new(alloc),
            barred: IndexSet::new(alloc),
        }
    }

    /// Puts in the form of a derivation that stands alone, if it may be listed.
    pub(crate) fn add(
        &mut self,
        alloc: Global,
        stems: &Stems,
        limit: u64,
        word: Chars,
    ) -> Result<(), FormsFault>
        requires found { AreFound stems.now limit self.old }
        requires word { StandsAlone stems.now word }
        ensures found { OnOk result (AreFound stems.now limit self.new) }
        ensures kept { OnOk result (KeepsWords self.old self.new) }
        ensures has { OnOk result (HasForm stems.now word self.new) }
        ensures fault { IfErr result (IsFaultOf stems.now limit) }
    {
        if word.is_empty() {
            return Ok(());
        }
        if self.words.contains(&word) || self.barred.contains(&word) {
            return Ok(());
        }
        if stems.is_barred(alloc, &word)? {
            put(&mut self.barred, word)?;
            return Ok(());
        }
        forms_are();
        put(&mut self.words, word)?;
        if self.words.len() as u64 > limit {
            return Err(FormsFault::TooMany { limit });
        }
        Ok(())
    }

    /// The forms, rising by their characters.
    pub(crate) fn into_list(self, alloc: Global) -> Result<Vec<Chars>, NoMemory>
        ensures { IfOk result (λ list. AreFormsSorted self.words.keys list.items) }
    {
        let mut list: Vec<Chars> = self.words.into_iter().collect(alloc)?;
        list.sort_unstable_by(|word, other| word.as_slice().cmp(other.as_slice()));
        Ok(list)
    }
}

/// Puts a word into a set.
fn put(set: &mut IndexSet<Chars>, word: Chars) -> Result<(), NoMemory>
    ensures { OnOk result (set.new.keys ≡ insert_key (pointwise nat_eq) set.old.keys word) }
{
    set.insert(word)?;
    Ok(())
}
