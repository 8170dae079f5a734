//! Which derivations may stand at a place of a compound.

ghost use Rattle.std.specs.Prelude.{◌≡◌};
ghost use Rattle.spell_types.specs.Parts.{is_first, is_last, sign_at, is_allowed_at};
ghost use Rattle.spell_types.specs.Parts.{has_right_entry, is_not_forbidden_at};
ghost use Rattle.spell_types.specs.Parts.{are_affixes_permitted_at, are_suffixes_few_at, stands_at};
ghost use Rattle.spell_types.specs.Parts.{is_long_enough, is_part, stands_in_rule};

use spell_types::{
    Derivation, Flag, Lexicon, Place, Signs, has_affix_with, has_entry_with, has_prefix_without,
    has_some_with, has_suffix_without,
};

/// Whether a sound derivation, whose form is the text, is a part of a compound at a place: by its
/// compound flags, as long as COMPOUNDMIN asks, with affixes that are permitted there. These are
/// the options COMPOUNDFLAG, COMPOUNDBEGIN, COMPOUNDMIDDLE, COMPOUNDLAST, COMPOUNDPERMITFLAG,
/// COMPOUNDFORBIDFLAG, COMPOUNDMORESUFFIXES and COMPOUNDMIN of hunspell(5). The length is that of
/// the text in characters.
#[tactic(auto, unfolding(spell_types::specs::Parts::is_part))]
pub fn part_ok(lexicon: &Lexicon, text: &[char], d: &Derivation, place: Place) -> bool
    ensures { result ≡ is_part lexicon.now text.now d.now place }
{
    stands_at(lexicon, d, place) && is_long_enough(lexicon, text)
}

/// Whether a derivation may stand at a place of a compound, however long its form is.
#[tactic(auto, unfolding(spell_types::specs::Parts::stands_at))]
pub fn stands_at(lexicon: &Lexicon, d: &Derivation, place: Place) -> bool
    ensures { result ≡ stands_at lexicon.now d.now place }
{
    is_allowed_at(lexicon, d, place)
        && has_right_entry(lexicon, d)
        && is_not_forbidden_at(lexicon, d, place)
        && are_affixes_permitted_at(lexicon, d, place)
        && are_suffixes_few_at(lexicon, d, place)
}

/// Whether a derivation may stand at a place of a compound that follows a compound rule: the option
/// COMPOUNDRULE of hunspell(5). All parts but the last are without an affix, and the last is
/// without a prefix. This is this project's own rule.
#[tactic(auto, unfolding(spell_types::specs::Parts::stands_in_rule))]
pub fn stands_in_rule(lexicon: &Lexicon, d: &Derivation, place: Place) -> bool
    ensures { result ≡ stands_in_rule lexicon.now d.now place }
{
    has_right_entry(lexicon, d)
        && !has_affix_with(lexicon.affixes.signs.forbid, lexicon, d)
        && d.prefix.is_none()
        && (is_last(place) || (d.first.is_none() && d.second.is_none()))
}

/// Whether a text has as many characters as a part needs: the option COMPOUNDMIN of hunspell(5).
pub fn is_long_enough(lexicon: &Lexicon, text: &[char]) -> bool
    ensures { result ≡ is_long_enough lexicon.now text.now }
{
    lexicon.affixes.options.compound_min as usize <= text.len()
}

/// Whether the entry or an affix carries a flag that allows parts at the place.
fn is_allowed_at(lexicon: &Lexicon, d: &Derivation, place: Place) -> bool
    ensures { result ≡ is_allowed_at lexicon.now d.now place }
{
    let signs = &lexicon.affixes.signs;
    has_some_with(signs.compound, lexicon, d) || has_some_with(sign_at(signs, place), lexicon, d)
}

/// The flag that allows parts at a place.
fn sign_at(signs: &Signs, place: Place) -> Option<Flag>
    ensures { result ≡ sign_at signs.now place }
{
    match place {
        Place::First => signs.begin,
        Place::Middle => signs.middle,
        Place::Last => signs.last,
    }
}

/// Whether the entry is no forbidden word, and no rare one that is refused.
fn has_right_entry(lexicon: &Lexicon, d: &Derivation) -> bool
    ensures { result ≡ has_right_entry lexicon.now d.now }
{
    let signs = &lexicon.affixes.signs;
    !has_entry_with(signs.forbidden, lexicon, d)
        && !(lexicon.affixes.options.forbid_warn && has_entry_with(signs.warn, lexicon, d))
}

/// Whether no affix forbids compounds, and the entry does so at the last place alone.
fn is_not_forbidden_at(lexicon: &Lexicon, d: &Derivation, place: Place) -> bool
    ensures { result ≡ is_not_forbidden_at lexicon.now d.now place }
{
    let forbid = lexicon.affixes.signs.forbid;
    !has_affix_with(forbid, lexicon, d) && (is_last(place) || !has_entry_with(forbid, lexicon, d))
}

/// Whether each affix inside the compound is permitted there.
fn are_affixes_permitted_at(lexicon: &Lexicon, d: &Derivation, place: Place) -> bool
    ensures { result ≡ are_affixes_permitted_at lexicon.now d.now place }
{
    let permit = lexicon.affixes.signs.permit;
    (is_first(place) || !has_prefix_without(permit, lexicon, d))
        && (is_last(place) || !has_suffix_without(permit, lexicon, d))
}

/// Whether two suffixes are not too many at the place.
fn are_suffixes_few_at(lexicon: &Lexicon, d: &Derivation, place: Place) -> bool
    ensures { result ≡ are_suffixes_few_at lexicon.now d.now place }
{
    d.second.is_none() || is_last(place) || lexicon.affixes.options.more_suffixes
}

fn is_first(place: Place) -> bool
    ensures { result ≡ is_first place }
{
    matches!(place, Place::First)
}

fn is_last(place: Place) -> bool
    ensures { result ≡ is_last place }
{
    matches!(place, Place::Last)
}
