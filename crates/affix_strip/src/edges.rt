//! What rules add at one end of words, by hashes: most texts end and begin with nothing of that.

ghost use Rattle.std.specs.Prelude.{◌≡◌, ◌+◌, false, true, length, IfOk};
ghost use Rattle.spell_types.specs.Derivations.{is_same_side};
ghost use Rattle.affix_strip.specs.Edges.{adds, is_wanted, IsNoted, KeepsNoted, IsEdge};
ghost use Rattle.affix_strip.specs.Edges.{ReachesAdded, ReachesEndings, NoneBegin};

use crate::reaching::reach;
use entry_table::{START, fold};
use key_filter::KeyFilter;
use spell_types::lists::NoMemory;
use spell_types::{Flag, Rule, Side, has};
use std::alloc::Global;

/// Which rules of a side.
#[derive(Clone, Copy)]
pub(crate) enum Those {
    All,
    /// Those that carry a flag, if one is given, and otherwise none.
    Carrying(Option<Flag>),
}

/// What some rules of a side add, by hashes of these texts.
#[derive(Drop)]
pub(crate) struct Edge {
    /// What rules add that strip nothing off.
    pub(crate) plain: KeyFilter,
    /// What rules add that strip something off.
    pub(crate) exchanged: KeyFilter,
    /// None of them adds more characters.
    pub(crate) longest: usize,
    /// Whether one of them adds nothing and strips something off.
    pub(crate) shortens: bool,
    /// Whether one of them adds something and strips something off.
    exchanges: bool,
}

impl Edge {
    /// What those rules of a side add.
    pub(crate) fn new(
        alloc: Global,
        side: Side,
        those: Those,
        rules: &[Rule],
    ) -> Result<Edge, NoMemory>
        ensures { IfOk result (IsEdge rules.now side those) }
    {
        let mut edge = Edge {
            plain: KeyFilter::new(alloc, rules.len())?,
            exchanged: KeyFilter::new(alloc, rules.len())?,
            longest: 0,
            shortens: false,
            exchanges: false,
        };
        for rule in rules {
            edge.note_wanted(side, those, rule);
        }
        Ok(edge)
    }

    /// Notes what one rule more adds, if it is one of those of the side.
    fn note_wanted(&mut self, side: Side, those: Those, rule: &Rule)
        ensures noted { is_wanted side those rule.now ≡ true → IsNoted self.new rule.now }
        ensures kept { KeepsNoted self.old self.new }
    {
        if is_wanted(side, those, rule) {
            self.note(rule);
        }
    }

    /// Notes what one rule more adds.
    fn note(&mut self, rule: &Rule)
        ensures noted { IsNoted self.new rule.now }
        ensures kept { KeepsNoted self.old self.new }
    {
        let added = rule.add.as_slice();
        if added.is_empty() {
            self.shortens = self.shortens || !rule.strip.is_empty();
            return;
        }
        self.longest = self.longest.max(added.len());
        let key = fold(START, added);
        if rule.strip.is_empty() {
            self.plain.insert(key);
        } else {
            self.exchanges = true;
            self.exchanged.insert(key);
        }
    }

    /// Tells of the places before the end of a text to which a suffix may lead that begins there. The
    /// text is the rest of a word from the place `at` on. What stands before it may be a `whole` word,
    /// and otherwise is one that a suffix may have stripped something off.
    pub(crate) fn reach_endings(&self, text: &[char], at: usize, whole: bool, reached: &mut [bool])
        requires { at + length text.now ≡ length reached.old }
        ensures { ReachesEndings self.now text.now at whole reached.old reached.new }
    {
        reach(reached, at, whole || self.shortens);
        if whole || self.exchanges {
            self.reach_added(text, at, whole, reached);
        }
    }

    /// Tells of the places behind what a suffix may add at the front of a text.
    fn reach_added(&self, text: &[char], at: usize, whole: bool, reached: &mut [bool])
        requires { at + length text.now ≡ length reached.old }
        ensures { ReachesAdded self.now text.now at whole reached.old reached.new }
    {
        let mut key = START;
        for count in 0..self.longest.min(text.len()) {
            key = fold(key, &text[count..count + 1]);
            reach(reached, at + count + 1, self.adds(whole, key));
        }
    }

    /// Whether the text with this hash may be added, by a rule that strips something off, or behind
    /// a whole word.
    fn adds(&self, whole: bool, key: u64) -> bool
        ensures { result ≡ adds self.now whole key }
    {
        (whole && self.plain.may_have(key)) || (self.exchanges && self.exchanged.may_have(key))
    }

    /// Whether a text may begin with what one of the rules adds.
    pub(crate) fn may_begin(&self, text: &[char]) -> bool
        ensures { result ≡ false → NoneBegin self.now text.now }
    {
        if self.shortens {
            return true;
        }
        let mut key = START;
        for count in 0..self.longest.min(text.len()) {
            key = fold(key, &text[count..count + 1]);
            if self.plain.may_have(key) || self.exchanged.may_have(key) {
                return true;
            }
        }
        false
    }
}

/// Whether a rule is one of those of a side.
fn is_wanted(side: Side, those: Those, rule: &Rule) -> bool
    ensures { result ≡ is_wanted side those rule.now }
{
    is_on(side, rule)
        && match those {
            Those::All => true,
            Those::Carrying(flag) => has(&rule.carried, flag),
        }
}

/// Whether a rule is of a side.
fn is_on(side: Side, rule: &Rule) -> bool
    ensures { result ≡ is_same_side side rule.now.side }
{
    match (side, rule.side) {
        (Side::Prefix, Side::Prefix) | (Side::Suffix, Side::Suffix) => true,
        _ => false,
    }
}
