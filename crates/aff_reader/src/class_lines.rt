//! The lines of affix classes, and what each of them is in its class.

ghost use Rattle.std.specs.Prelude.{◌≡◌, ◌++◌, ◌∷◌, [], List, Option, Some, OnOk, IfOk, IfSome};
ghost use Rattle.std.specs.Prelude.{if◌then◌else◌};
ghost use Rattle.std.specs.Option.{option_copied};
ghost use Rattle.spell_types.specs.declared.flags.FlagKind.{FlagKind};
ghost use Rattle.spell_types.specs.Flags.{IsOrdinary};
ghost use Rattle.aff_lines.specs.declared.rows.DirectiveLine.{DirectiveLine};
ghost use Rattle.aff_reader.specs.declared.class_lines.Class.{Class};
ghost use Rattle.aff_reader.specs.ClassLines.{field_of, side_of, flag_at, class_of, is_same_class};
ghost use Rattle.aff_reader.specs.ClassLines.{is_field_word, crossing_of, allows_crossing};
ghost use Rattle.aff_reader.specs.ClassLines.{announced_count};
ghost use Rattle.aff_reader.specs.ClassLines.{class_so_far, role_after, placed_after, standing_in};
ghost use Rattle.aff_reader.specs.ClassLines.{Knows};

use aff_lines::{Directive, DirectiveLine, number_in};
use flag_sets::read_one_flag;
use spell_types::{Flag, FlagKind, Side};
use std::alloc::Global;
use std::collections::BTreeMap;
use text_lines::field;
use text_lines::lists::NoMemory;

/// An affix class: the options PFX and SFX of hunspell(5).
#[derive(Clone, Copy)]
pub(crate) struct Class {
    pub(crate) side: Side,
    pub(crate) flag: Flag,
}

/// Whether the rules of a class may stand on a word together with those of the other side.
#[derive(Clone, Copy)]
pub(crate) enum Crossing {
    /// They may.
    Allowed,
    /// They may not.
    Barred,
}

impl Crossing {
    /// Whether they may.
    pub(crate) fn is_allowed(self) -> bool
        ensures { result ≡ allows_crossing self }
    {
        match self {
            Crossing::Allowed => true,
            Crossing::Barred => false,
        }
    }
}

/// What the first lines of a class come to.
#[derive(Clone, Copy)]
pub(crate) struct ClassSoFar {
    /// Whether the rules of the class may be crossed.
    pub(crate) crossing: Crossing,
    /// How many rules are still wanted. Nobody can tell where the header's number is none.
    pub(crate) wanted: Option<u64>,
}

/// What a line is in its class.
#[derive(Clone, Copy)]
pub(crate) enum Role {
    /// The first line of the class.
    Header,
    /// One of the rules that the header announces, and whether they may be crossed.
    Member(Crossing),
    /// A line past these rules.
    Past,
    /// A line behind a header without a number.
    Unplaced,
}

/// The class of a line, and what the line is in it.
#[derive(Clone, Copy)]
pub(crate) struct Placed {
    pub(crate) class: Class,
    pub(crate) role: Role,
}

/// What some lines say of each class, by its flag.
#[derive(Drop)]
pub(crate) struct Classes {
    prefixes: BTreeMap<u64, ClassSoFar>,
    suffixes: BTreeMap<u64, ClassSoFar>,
}

impl Classes {
    /// What no lines say.
    pub(crate) fn new(alloc: Global) -> Classes
        ensures { (kind : FlagKind) → Knows kind [] result }
    {
        Classes {
            prefixes: BTreeMap::new(alloc),
            suffixes: BTreeMap::new(alloc),
        }
    }

    /// Tells what a line is behind those that are known, and takes it in.
    pub(crate) fn place(
        &mut self,
        kind: FlagKind,
        line: &DirectiveLine,
    ) -> Result<Option<Placed>, NoMemory>
        ensures knows { (before : List DirectiveLine) → Knows kind before self.old
            → OnOk result (Knows kind (before ++ line.now ∷ []) self.new) }
        ensures placed { (before : List DirectiveLine) → Knows kind before self.old
            → IfOk result (λ placed. placed ≡ placed_after kind before line.now) }
        ensures ordinary { IfOk result
            (λ found. IfSome found (λ placed. IsOrdinary placed.class.flag)) }
    {
        let Some(class) = class_of(kind, line) else {
            return Ok(None);
        };
        let standing = self.standing(class);
        self.set(class, with_line(standing, line))?;
        Ok(Some(Placed {
            class,
            role: role_after(standing),
        }))
    }

    /// What the lines say of a class.
    pub(crate) fn standing(&self, class: Class) -> Option<ClassSoFar>
        ensures { result ≡ standing_in self.now class }
    {
        match class.side {
            Side::Prefix => self.prefixes.get(&class.flag.0).copied(),
            Side::Suffix => self.suffixes.get(&class.flag.0).copied(),
        }
    }

    fn set(&mut self, class: Class, standing: ClassSoFar) -> Result<(), NoMemory>
        ensures { OnOk result ((other : Class) → standing_in self.new other
            ≡ (if is_same_class other class then Some standing else standing_in self.old other)) }
    {
        match class.side {
            Side::Prefix => self.prefixes.insert(class.flag.0, standing)?,
            Side::Suffix => self.suffixes.insert(class.flag.0, standing)?,
        };
        Ok(())
    }
}

/// What the lines of a class come to with one line more.
fn with_line(standing: Option<ClassSoFar>, line: &DirectiveLine) -> ClassSoFar
    ensures { (own : List DirectiveLine) → standing ≡ class_so_far own
        → Some result ≡ class_so_far (own ++ line.now ∷ []) }
{
    match standing {
        None => ClassSoFar {
            crossing: crossing_of(line),
            wanted: count_of(line),
        },
        Some(standing) => ClassSoFar {
            crossing: standing.crossing,
            wanted: standing.wanted.map(|wanted| wanted.saturating_sub(1)),
        },
    }
}

/// What the next line of a class is.
fn role_after(standing: Option<ClassSoFar>) -> Role
    ensures { result ≡ role_after standing }
{
    match standing {
        None => Role::Header,
        Some(ClassSoFar { wanted: None, .. }) => Role::Unplaced,
        Some(
            ClassSoFar {
                wanted: Some(0),
                ..
            },
        ) => Role::Past,
        Some(ClassSoFar { crossing, .. }) => Role::Member(crossing),
    }
}

/// The class that a line belongs to.
#[tactic(auto, unfolding(crate::specs::ClassLines::class_of))]
fn class_of(kind: FlagKind, line: &DirectiveLine) -> Option<Class>
    ensures class { result ≡ class_of kind line.now }
    ensures ordinary { IfSome result (λ class. IsOrdinary class.flag) }
{
    let side = side_of(line.directive)?;
    let flag = flag_at(kind, line)?;
    Some(Class { side, flag })
}

/// The side of the classes that a directive is for.
pub(crate) fn side_of(directive: Directive) -> Option<Side>
    ensures { result ≡ side_of directive }
{
    match directive {
        Directive::Prefix => Some(Side::Prefix),
        Directive::Suffix => Some(Side::Suffix),
        _ => None,
    }
}

fn flag_at(kind: FlagKind, line: &DirectiveLine) -> Option<Flag>
    ensures flag { result ≡ flag_at kind line.now }
    ensures ordinary { IfSome result IsOrdinary }
{
    read_one_flag(kind, field_of(line, 1)?)
}

/// A field of a line; its name is field 0.
pub(crate) fn field_of(line: &DirectiveLine, k: usize) -> Option<&str>
    ensures { option_copied result ≡ field_of line.now k }
{
    field(line.text.as_str(), k)
}

/// Whether a field is there and is this word.
pub(crate) fn is_text(word: &str, field: Option<&str>) -> bool
    ensures { result ≡ is_field_word word.now (option_copied field.entry) }
{
    match field {
        None => false,
        Some(text) => word == text,
    }
}

/// Whether a header lets the rules of its class be crossed.
pub(crate) fn crossing_of(header: &DirectiveLine) -> Crossing
    ensures { result ≡ crossing_of header.now }
{
    if is_text("Y", field_of(header, 2)) {
        Crossing::Allowed
    } else {
        Crossing::Barred
    }
}

/// How many rules a header announces.
#[tactic(auto, unfolding(crate::specs::ClassLines::announced_count))]
pub(crate) fn count_of(header: &DirectiveLine) -> Option<u64>
    ensures { result ≡ announced_count header.now }
{
    number_in(field_of(header, 3)?)
}
