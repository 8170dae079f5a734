//! Pairs of dictionary files that were loaded before.

ghost use Rattle.std.specs.Prelude.{◌≡◌};
ghost use Rattle.team_forms.specs.Pairs.{has_names};

use mark_types::Judge;
use mark_types::text_lines::Text;
use own_dictionary::dictionary_swap::LoadFault;
use std::sync::Arc;

/// A pair of dictionary files by their names, and what was loaded of it: what is asked, or why the
/// pair is refused, which is then the reply of each `load` that names it.
#[derive(Drop)]
pub struct LoadedPair<J: Judge + Drop> {
    pub aff: Text,
    pub dic: Text,
    pub loaded: Result<Arc<J>, LoadFault>,
}

impl<J: Judge + Drop> LoadedPair<J> {
    /// Whether these are its names.
    pub(crate) fn is_named(&self, aff: &str, dic: &str) -> bool
        ensures { result ≡ has_names aff.now dic.now self.now }
    {
        self.aff.as_str() == aff && self.dic.as_str() == dic
    }
}
