//! A dictionary behind a handle.

ghost use Rattle.std.specs.Prelude.{◌≡◌, ◌<◌, ◌^◌, length, IfOk, IfErr, OnErr, OnOk};
ghost use Rattle.std.specs.Arc.{arc_value};
ghost use Rattle.std.specs.Str.{chars};
ghost use Rattle.mark_types.specs.lists.Answers.{GivesDue};
ghost use Rattle.mark_types.specs.spell_types.Yields.{yields};
ghost use Rattle.paragraph_marks.specs.Paragraphs.{marks_in};
ghost use Rattle.personal_words.specs.Extended.{extended};
ghost use Rattle.personal_words.specs.Lists.{added, IsAdded, IsOwnLineRefused};
ghost use Rattle.affedit_c.specs.Dictionaries.{IsLoaded, handle_lexicon, without_words};
ghost use Rattle.affedit_c.specs.Faults.{MayComeOfCalls, list_read};

use crate::faults::Refusal;
use crate::reading::read_list;
use crate::remembering::Remembering;
use mark_types::lists::{Copied, NoMemory};
use mark_types::spell_types::{Lexicon, chars_of};
use mark_types::{Asker, Marks};
use paragraph_marks::check;
use personal_words::{OwnLineFault, OwnList, extend};
use std::alloc::Global;
use std::marker::Model;
use std::sync::Arc;
use word_verdict::Speller;

/// A dictionary that was opened, and personal words. What is asked goes to the base, extended by
/// the words if there are any. Handles share the base, and what it was extended to; each remembers
/// verdicts of its own.
#[derive(Drop)]
pub struct KeptDictionary {
    base: Arc<Speller>,
    own: OwnList,
    /// The dictionary in force beside its last verdicts, once it was asked.
    asker: Option<Remembering>,
}

impl Model for KeptDictionary {
    ghost use Rattle.std.specs.Arc.{arc_value};
    ghost use Rattle.affedit_c.specs.Dictionaries.{IsHandleKept, HandleSeen};

    ghost Value = { HandleSeen };

    ghost view = { λ inside. record { base = arc_value inside.base; own = inside.own } };

    ghost invariant = { λ inside.
        IsHandleKept (arc_value inside.base) inside.own inside.asker };
}

impl KeptDictionary {
    /// A dictionary without personal words.
    pub fn new(alloc: Global, base: Lexicon) -> Result<Box<KeptDictionary>, NoMemory>
        requires { IsLoaded base }
        ensures { IfOk result (λ kept. kept.value ≡ without_words base) }
    {
        let Lexicon { affixes, entries } = base;
        let speller = Speller::build(alloc, affixes, entries)?;
        let kept = KeptDictionary {
            base: Arc::new(alloc, speller)?,
            own: OwnList::new(alloc),
            asker: None,
        };
        Ok(Box::new(alloc, kept)?)
    }

    /// An equal value, over the same dictionary in memory. If there are personal words the dictionary
    /// is prepared with them first, so that this is done once for both.
    pub fn share(&mut self, alloc: Global) -> Result<Box<KeptDictionary>, NoMemory>
        ensures shared { IfOk result (λ kept. kept.value ≡ self.old) }
        ensures same { self.new ≡ self.old }
    {
        self.prepare(alloc)?;
        let kept = KeptDictionary {
            base: Arc::try_clone(&self.base)?,
            own: self.own.copy(alloc)?,
            asker: shared(alloc, &self.asker)?,
        };
        Ok(Box::new(alloc, kept)?)
    }

    /// Prepares the dictionary with the personal words, if there are any and it is not.
    fn prepare(&mut self, alloc: Global) -> Result<(), NoMemory>
        ensures { self.new ≡ self.old }
    {
        if !self.own.is_empty() {
            let asker = self.take_asker(alloc)?;
            self.asker = Some(asker);
        }
        Ok(())
    }

    /// Whether the dictionary in force generates a word.
    pub fn knows(&mut self, alloc: Global, word: &str) -> Result<bool, NoMemory>
        ensures answer { IfOk result
            (λ answer. answer ≡ yields (handle_lexicon self.old) (chars word.now)) }
        ensures same { self.new ≡ self.old }
    {
        let characters = chars_of(alloc, word)?;
        let mut asker = self.take_asker(alloc)?;
        let answer = asker.verdict(alloc, &characters);
        self.asker = Some(asker);
        answer
    }

    /// The marks of a text by the dictionary in force.
    pub fn marks(&mut self, alloc: Global, text: &str) -> Result<Marks, NoMemory>
        requires { length text.now < 2 ^ 32 }
        ensures marks { IfOk result
            (λ marks. marks ≡ marks_in (handle_lexicon self.old) (chars text.now)) }
        ensures same { self.new ≡ self.old }
    {
        let mut asker = self.take_asker(alloc)?;
        let marks = check(alloc, &mut asker, text);
        self.asker = Some(asker);
        marks
    }

    /// Adds the item of a line to the personal words, and tells whether it has one.
    pub fn add(&mut self, alloc: Global, line: &str) -> Result<bool, OwnLineFault>
        ensures added { IfOk result (λ has.
            IsAdded (added self.old.base.affixes self.old.own line.now) self.old.own has
            self.new.own) }
        ensures refused { IfErr result
            (IsOwnLineRefused (added self.old.base.affixes self.old.own line.now)) }
        ensures base { self.new.base ≡ self.old.base }
        ensures err { OnErr result (self.new ≡ self.old) }
    {
        let affixes = &self.base.stems().lexicon().affixes;
        let has_item = self.own.add(alloc, affixes, line)?;
        // A blank line changes nothing of what is asked.
        if has_item {
            self.asker = None;
        }
        Ok(has_item)
    }

    /// The characters of WORDCHARS.
    pub fn word_characters(&self) -> &[char]
        ensures { result.now ≡ self.now.base.affixes.wordchars }
    {
        &self.base.stems().lexicon().affixes.wordchars
    }

    /// Takes the personal words of a list in place of those that there are.
    pub fn take_list(&mut self, alloc: Global, bytes: &[u8]) -> Result<(), Refusal>
        ensures due { GivesDue MayComeOfCalls (λ _. self.new.own)
            (list_read bytes.now self.old.base.affixes) result }
        ensures base { self.new.base ≡ self.old.base }
        ensures err { OnErr result (self.new ≡ self.old) }
    {
        let own = read_list(alloc, &self.base.stems().lexicon().affixes, bytes)?;
        self.own = own;
        self.asker = None;
        Ok(())
    }

    /// Takes what is asked: the dictionary in force beside its last verdicts.
    fn take_asker(&mut self, alloc: Global) -> Result<Remembering, NoMemory>
        ensures asker { IfOk result (λ asker. asker ≡ handle_lexicon self.old) }
        ensures same { self.new ≡ self.old }
    {
        match self.asker.take() {
            Some(asker) => Ok(asker),
            None => Remembering::new(alloc, self.in_force(alloc)?),
        }
    }

    /// The dictionary in force, made anew where there are personal words.
    #[tactic(auto, unfolding(crate::specs::Dictionaries::handle_lexicon))]
    fn in_force(&self, alloc: Global) -> Result<Arc<Speller>, NoMemory>
        ensures { IfOk result (λ speller. arc_value speller ≡ handle_lexicon self.now) }
    {
        if self.own.is_empty() {
            return Ok(Arc::try_clone(&self.base)?);
        }
        extended(alloc, &self.base, &self.own)
    }
}

/// The base extended by the personal words, ready to be asked.
fn extended(alloc: Global, base: &Speller, own: &OwnList) -> Result<Arc<Speller>, NoMemory>
    requires { IsLoaded base.now }
    ensures { IfOk result (λ speller. arc_value speller ≡ extended base.now own.now) }
{
    let Lexicon { affixes, entries } = extend(alloc, base.stems().lexicon(), own)?;
    let speller = Speller::build(alloc, affixes, entries)?;
    Ok(Arc::new(alloc, speller)?)
}

/// What another handle asks, if there is something.
fn shared(alloc: Global, asker: &Option<Remembering>) -> Result<Option<Remembering>, NoMemory>
    ensures { IfOk result (λ other. other ≡ asker.now) }
{
    match asker {
        None => Ok(None),
        Some(asker) => Ok(Some(asker.share(alloc)?)),
    }
}
