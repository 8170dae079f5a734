//! Flags, and sets of them.

ghost use Rattle.std.specs.Prelude.{◌≡◌, ◌<◌, ◌≤◌, ◌↔◌, ◌==◌, ◌||◌, List, [], ◌∷◌, ◌++◌, length};
ghost use Rattle.std.specs.Prelude.{slice_get, Some, IsTrue, OnOk, OnErr, IfOk, IfErr, Contains};
ghost use Rattle.std.specs.Prelude.{insert};
ghost use Rattle.std.specs.List.Sorted.{IsPartitionPoint};
ghost use Rattle.spell_types.specs.declared.flags.Flag.{Flag};
ghost use Rattle.spell_types.specs.Flags.{IsRising, put, put_all, has, has_flag_of};
ghost use Rattle.spell_types.specs.KeptFlags.{kept_flags};

use lists::{Copied, NoMemory};
use std::alloc::Global;
use std::marker::Model;
use std::sync::Arc;

/// A flag, by its number.
#[derive(Clone, Copy, Debug, PartialEq, Eq, PartialOrd, Ord)]
pub struct Flag(pub u64);

/// How the files of a dictionary write flags: the option FLAG of hunspell(5).
#[derive(Clone, Copy, Debug, PartialEq, Eq)]
pub enum FlagKind {
    /// Each character is a flag. This is the type of files without the option.
    Single,
    /// Each character is a flag.
    Utf8,
    /// Each two characters are a flag.
    Long,
    /// Decimals with commas between them.
    Num,
}

/// The flags of a set, which other sets may share. None is the set that takes no memory.
type SharedFlags = Option<Arc<Vec<Flag>>>;

/// A set of flags. Contracts see it as the list of its flags, which rises, so that none stands in
/// it twice. Copies share their memory up to the next `insert` into one of them.
#[derive(Debug, Drop)]
pub struct FlagSet {
    alloc: Global,
    kept: SharedFlags,
}

impl Model for FlagSet {
    ghost use Rattle.std.specs.Prelude.{List};
    ghost use Rattle.spell_types.specs.declared.flags.Flag.{Flag};
    ghost use Rattle.spell_types.specs.Flags.{IsRising};
    ghost use Rattle.spell_types.specs.KeptFlags.{kept_flags};

    ghost Value = { List Flag };

    ghost view = { λ inside. kept_flags inside.kept };

    ghost invariant = { λ inside. IsRising (kept_flags inside.kept) };
}

impl FlagSet {
    /// The set without a flag. It takes no memory before the first `insert`.
    pub fn new(alloc: Global) -> FlagSet
        ensures { result ≡ [] }
    {
        FlagSet { alloc, kept: None }
    }

    /// The set of flags in any order. It sorts them, so a long list costs no more where it falls.
    pub fn from_list(alloc: Global, mut flags: Vec<Flag>) -> Result<FlagSet, NoMemory>
        ensures { IfOk result (λ set. set ≡ put_all [] flags.items) }
    {
        put_in_order(&mut flags);
        let kept = kept_of(alloc, flags)?;
        Ok(FlagSet { alloc, kept })
    }

    /// The flags, from the one with the lowest number on.
    pub fn as_slice(&self) -> &[Flag]
        ensures flags { result.now ≡ self.now }
        ensures rising { IsRising self.now }
    {
        slice_of(&self.kept)
    }

    /// Puts a flag into the set. Where memory is wanting the set stays.
    pub fn insert(&mut self, flag: Flag) -> Result<(), NoMemory>
        ensures ok { OnOk result (self.new ≡ put flag self.old) }
        ensures err { OnErr result (self.new ≡ self.old) }
    {
        match search(slice_of(&self.kept), flag) {
            Ok(_) => Ok(()),
            Err(place) => insert_at(self.alloc, &mut self.kept, place, flag),
        }
    }
}

/// A copy shares the memory of its set.
impl Copied for FlagSet {
    fn copy(&self, alloc: Global) -> Result<FlagSet, NoMemory> {
        Ok(FlagSet {
            alloc,
            kept: share(&self.kept)?,
        })
    }
}

fn slice_of(kept: &SharedFlags) -> &[Flag]
    ensures { result.now ≡ kept_flags kept.now }
{
    match kept {
        None => &[],
        Some(flags) => flags.as_slice(),
    }
}

/// Sorts flags, and leaves each once.
fn put_in_order(flags: &mut Vec<Flag>)
    ensures { flags.new.items ≡ put_all [] flags.old.items }
{
    flags.sort_unstable();
    flags.dedup();
}

/// What keeps a list of flags.
fn kept_of(alloc: Global, flags: Vec<Flag>) -> Result<SharedFlags, NoMemory>
    ensures { IfOk result (λ kept. kept_flags kept ≡ flags.items) }
{
    if flags.is_empty() {
        return Ok(None);
    }
    Ok(Some(Arc::new(alloc, flags)?))
}

/// The same flags, in memory that both have.
fn share(kept: &SharedFlags) -> Result<SharedFlags, NoMemory>
    ensures { IfOk result (λ shared. kept_flags shared ≡ kept_flags kept.now) }
{
    match kept {
        None => Ok(None),
        Some(flags) => Ok(Some(Arc::try_clone(flags)?)),
    }
}

/// Puts a flag at a place. Where other sets share the flags this one gets its own.
fn insert_at(
    alloc: Global,
    kept: &mut SharedFlags,
    place: usize,
    flag: Flag,
) -> Result<(), NoMemory>
    requires { place ≤ length (kept_flags kept.old) }
    ensures ok { OnOk result (kept_flags kept.new ≡ insert (kept_flags kept.old) place flag) }
    ensures err { OnErr result (kept_flags kept.new ≡ kept_flags kept.old) }
{
    if let Some(flags) = kept {
        if let Some(own) = Arc::get_mut(flags) {
            own.insert(place, flag)?;
            return Ok(());
        }
    }
    let mut own = slice_of(kept).to_vec(alloc)?;
    own.insert(place, flag)?;
    *kept = Some(Arc::new(alloc, own)?);
    Ok(())
}

/// Whether a flag is given and the set holds it.
pub fn has(set: &FlagSet, flag: Option<Flag>) -> bool
    ensures { result ≡ has set.now flag }
{
    match flag {
        None => false,
        Some(flag) => search(set.as_slice(), flag).is_ok(),
    }
}

/// Whether one of these flags is in the set.
pub fn has_flag_of(flags: &FlagSet, set: &FlagSet) -> bool
    ensures { result ≡ has_flag_of set.now flags.now }
{
    flags.as_slice().iter().any(|flag| has(set, Some(*flag)))
}

/// The set of some flags rises, and has exactly those flags. `has` tells which flags a set has,
/// also once flags are put in. A flag behind others is put in last.
pub fn sets_have_their_flags()
    ensures rising { (flags : List Flag) → IsRising (put_all [] flags) }
    ensures members { (flags : List Flag) (flag : Flag) →
        Contains (put_all [] flags) flag ↔ Contains flags flag }
    ensures told { (set : List Flag) (flag : Flag) →
        IsTrue (has set (Some flag)) ↔ Contains set flag }
    ensures put { (set : List Flag) (flag asked : Flag) →
        has (put flag set) (Some asked) ≡ (flag.0 == asked.0 || has set (Some asked)) }
    ensures put_all { (set flags : List Flag) (asked : Flag) →
        has (put_all set flags) (Some asked) ≡ (has flags (Some asked) || has set (Some asked)) }
    ensures put_last { (set flags : List Flag) (flag : Flag) →
        put_all set (flags ++ flag ∷ []) ≡ put flag (put_all set flags) }
{}

/// The place of a flag in a rising list, or the place where it is missing.
fn search(flags: &[Flag], flag: Flag) -> Result<usize, usize>
    requires { IsRising flags.now }
    ensures found { IfOk result (λ place. slice_get flags.now place ≡ Some flag) }
    ensures within { IfErr result (λ place. place ≤ length flags.now) }
    ensures missing { IfErr result (IsPartitionPoint
        (λ held. held.0 < flag.0) (λ held. flag.0 < held.0) flags.now) }
{
    flags.binary_search(&flag)
}
