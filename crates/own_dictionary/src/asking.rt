//! What is asked by a dictionary with personal words, and others made of it.

use crate::OwnDictionary;
use outside::lists::{Copied, NoMemory};
use personal_words::{Dictionary, OwnLineFault};
use spell_types::Lexicon;
use std::alloc::Global;
use std::sync::Arc;
use word_verdict::Speller;

impl Dictionary<Speller> for OwnDictionary {
    ghost seen = { λ dictionary. dictionary };

    fn judge(&self) -> &Arc<Speller> {
        self.speller()
    }

    fn on_base(&self, alloc: Global, base: Lexicon) -> Result<OwnDictionary, NoMemory> {
        self.with_base(alloc, base)
    }

    fn with_item(&self, alloc: Global, text: &str) -> Result<Option<OwnDictionary>, OwnLineFault> {
        let mut own = self.own().copy(alloc)?;
        let affixes = &self.speller().stems().lexicon().affixes;
        match own.add(alloc, affixes, text) {
            Ok(false) => Ok(None),
            Ok(true) => {
                let next = self.with_own(alloc, own)?;
                Ok(Some(next))
            }
            Err(fault) => Err(fault),
        }
    }
}
