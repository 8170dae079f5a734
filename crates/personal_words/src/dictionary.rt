//! What is needed of a dictionary with personal words, whose base and whose words change while it is asked.

ghost use Rattle.std.specs.Prelude.{◌≡◌, ◌++◌, ◌∷◌, [], Ok, Some, None, IfErr, IfNone, IfOk};
ghost use Rattle.std.specs.Prelude.{IfSome};
ghost use Rattle.std.specs.Arc.{arc_value};
ghost use Rattle.personal_words.specs.Dictionaries.{IsLoadedBase, OwnSeen, in_force};
ghost use Rattle.personal_words.specs.Lists.{IsOwnLineRefused, added};
ghost use Rattle.personal_words.specs.declared.items.OwnItem.{OwnItem};

use crate::faults::OwnLineFault;
use mark_types::Judge;
use mark_types::lists::NoMemory;
use mark_types::spell_types::Lexicon;
use std::alloc::Global;
use std::sync::Arc;

/// A dictionary with personal words, of which others can be made. `J` is what is asked.
pub trait Dictionary<J: Judge>: Sized {
    /// Its base, and its personal words.
    ghost seen: { Self → OwnSeen };

    /// What is asked.
    fn judge(&self) -> &Arc<J>
        ensures { J.lexicon (arc_value result.now) ≡ in_force (seen self.now) };

    /// Another base with the same personal words.
    fn on_base(&self, alloc: Global, base: Lexicon) -> Result<Self, NoMemory>
        requires { IsLoadedBase base }
        ensures { IfOk result (λ made. seen made ≡ record (seen self.now) { base = base }) };

    /// The same base with the item that a text is behind the other personal words; none where the text
    /// is blank.
    fn with_item(&self, alloc: Global, text: &str) -> Result<Option<Self>, OwnLineFault>
        ensures more { IfOk result (λ made. IfSome made (λ next. (item : OwnItem)
            × (added (seen self.now).base.affixes (seen self.now).own text.now ≡ Ok (Some item))
            × (seen next
            ≡ record (seen self.now) { own = (seen self.now).own ++ item ∷ [] }))) }
        ensures blank { IfOk result (λ made. IfNone made
            (added (seen self.now).base.affixes (seen self.now).own text.now ≡ Ok None)) }
        ensures refused { IfErr result
            (IsOwnLineRefused (added (seen self.now).base.affixes (seen self.now).own text.now)) };
}
