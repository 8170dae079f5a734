//! The texts of flags: fields of flags, also through aliases, and single flags.
#![tactic(auto)]

ghost use Rattle.std.specs.Prelude.{◌≡◌, ◌≢◌, ◌↔◌, ℕ, List, [], Ok, Err, None, Some, IsTrue, All};
ghost use Rattle.std.specs.Prelude.{IfSome, IfOk, IfErr, IsSomeAnd, Contains, is_some};
ghost use Rattle.std.specs.Option.{option_copied};
ghost use Rattle.spell_types.specs.declared.flags.Flag.{Flag};
ghost use Rattle.spell_types.specs.declared.flags.FlagKind.{FlagKind};
ghost use Rattle.spell_types.specs.Flags.{IsRising, IsOrdinary, AreOrdinary};
ghost use Rattle.flag_sets.specs.FlagTexts.{listed_flags, alias_of, alias_field, flag_field};
ghost use Rattle.flag_sets.specs.FlagTexts.{one_flag};

use crate::first::first_flag;
use spell_types::{Flag, FlagKind, FlagSet, sets_have_their_flags};
use std::alloc::Global;
use text_lines::decimal;
use text_lines::lists::{Copied, NoMemory};

mod first;
mod slashes;

pub use slashes::{push_before_slash, split_plain};
pub use spell_types::has;

/// Why a text is no flag field.
#[derive(Clone, Copy, Debug, PartialEq, Eq)]
pub enum FlagFault {
    /// The text doesn't list flags of the type.
    BadFlag,
    /// The file has aliases, and the text is not the ordinal of one.
    BadAlias,
    /// Memory for the answer could not be had.
    NoMemory,
}

impl From<NoMemory> for FlagFault {
    ghost use Rattle.flag_sets.specs.declared.FlagFault.{FlagFault};

    ghost from_gives = { λ _ fault. fault ≡ FlagFault.NoMemory };

    fn from(_error: NoMemory) -> FlagFault {
        FlagFault::NoMemory
    }
}

/// The set that a flag field is. In a file with aliases, also with none of them, a field is empty
/// or an alias's ordinal, from 1.
pub fn read_flags(
    alloc: Global,
    kind: FlagKind,
    aliases: Option<&[FlagSet]>,
    text: &str,
) -> Result<FlagSet, FlagFault>
    ensures set { IfOk result
        (λ set. flag_field kind (option_copied aliases.entry) text.now ≡ Ok set) }
    ensures fault { IfErr result
        (λ fault. fault ≢ FlagFault.NoMemory
        → flag_field kind (option_copied aliases.entry) text.now ≡ Err fault) }
    ensures ordinary { IfSome (option_copied aliases.entry) (All AreOrdinary)
        → IfOk result AreOrdinary }
{
    match aliases {
        None => read_listed(alloc, kind, text),
        Some(sets) => read_alias(alloc, sets, text),
    }
}

/// The flag that a text is. Aliases are never used for it.
pub fn read_one_flag(kind: FlagKind, text: &str) -> Option<Flag>
    ensures flag { result ≡ one_flag kind text.now }
    ensures ordinary { IfSome result IsOrdinary }
{
    if text.is_empty() {
        return None;
    }
    let (flag, rest) = first_flag(kind, text)?;
    lists_nothing(kind, rest).then_some(flag)
}

/// Whether a text lists flags of the type and nothing else. This takes no memory.
pub fn lists_flags(kind: FlagKind, text: &str) -> bool
    ensures { result ≡ is_some (listed_flags kind text.now) }
{
    let mut rest = text;
    while !rest.is_empty() {
        let Some((_, more)) = first_flag(kind, rest) else {
            return false;
        };
        rest = more;
    }
    true
}

/// Where a file has no aliases, the set of a field rises and has exactly the flags that the field
/// lists.
pub fn fields_have_their_flags()
    ensures { (kind : FlagKind) (text : List ℕ) (set : List Flag)
        → flag_field kind None text ≡ Ok set
        → IsRising set × IsSomeAnd (listed_flags kind text)
        (λ flags. (flag : Flag) → Contains set flag ↔ Contains flags flag) }
{
    sets_have_their_flags();
}

/// Whether a text lists no flags: only the empty text does.
fn lists_nothing(kind: FlagKind, text: &str) -> bool
    ensures { IsTrue result ↔ (listed_flags kind text.now ≡ Some []) }
{
    text.is_empty()
}

/// The set of the flags that a text lists.
fn read_listed(alloc: Global, kind: FlagKind, text: &str) -> Result<FlagSet, FlagFault>
    ensures set { IfOk result (λ set. flag_field kind None text.now ≡ Ok set) }
    ensures fault { IfErr result
        (λ fault. fault ≢ FlagFault.NoMemory → flag_field kind None text.now ≡ Err fault) }
    ensures ordinary { IfOk result AreOrdinary }
{
    sets_have_their_flags();
    let mut flags = Vec::new(alloc);
    let mut rest = text;
    while !rest.is_empty() {
        let Some((flag, more)) = first_flag(kind, rest) else {
            return Err(FlagFault::BadFlag);
        };
        let Ok(()) = flags.push(flag) else {
            return Err(FlagFault::NoMemory);
        };
        rest = more;
    }
    Ok(FlagSet::from_list(alloc, flags)?)
}

/// A copy of the alias whose ordinal the text is.
fn read_alias(alloc: Global, aliases: &[FlagSet], text: &str) -> Result<FlagSet, FlagFault>
    ensures set { IfOk result (λ set. alias_field aliases.now text.now ≡ Ok set) }
    ensures fault { IfErr result
        (λ fault. fault ≢ FlagFault.NoMemory → alias_field aliases.now text.now ≡ Err fault) }
    ensures ordinary { All AreOrdinary aliases.now → IfOk result AreOrdinary }
{
    if text.is_empty() {
        return Ok(FlagSet::new(alloc));
    }
    let Some(set) = alias(aliases, text) else {
        return Err(FlagFault::BadAlias);
    };
    Ok(set.copy(alloc)?)
}

/// The alias whose ordinal the text is.
fn alias<'a>(aliases: &'a [FlagSet], text: &str) -> Option<&'a FlagSet>
    ensures alias { option_copied result ≡ alias_of aliases.now text.now }
    ensures ordinary { All AreOrdinary aliases.now → IfSome result (λ set. AreOrdinary set.now) }
{
    let place = decimal(text)?.checked_sub(1)?;
    aliases.get(place as usize)
}
