//! The options of .aff files: one row of a table for each.

ghost use Rattle.std.specs.Prelude.{◌≡◌, ◌≢◌, ◌↔◌, List, ℕ, AllPairs, Contains, find, map};
ghost use Rattle.std.specs.Option.{option_copied};
ghost use Rattle.aff_lines.specs.declared.names.Directive.{Directive};
ghost use Rattle.aff_lines.specs.declared.names.Pass.{Pass};
ghost use Rattle.aff_lines.specs.Names.{Description, description_of, directive_in};
ghost use Rattle.aff_lines.specs.Names.{names_of_directive};
ghost use Rattle.aff_lines.specs.Names.{is_described, is_of_pass, named_in, directive_named};
ghost use Rattle.aff_lines.specs.Names.{all_directives, all_names, directives_in};

/// An option of hunspell(5) that an .aff file is read for, or refused for. A line that begins with
/// another name is passed over.
#[derive(Clone, Copy, Debug, PartialEq, Eq)]
pub enum Directive {
    Set,
    FlagType,
    FlagAliases,
    WordCharacters,
    Ignore,
    NeedAffix,
    Circumfix,
    ForbiddenWord,
    KeepCase,
    Warn,
    CompoundFlag,
    CompoundBegin,
    CompoundMiddle,
    CompoundLast,
    CompoundPermitFlag,
    CompoundForbidFlag,
    OnlyInCompound,
    ForceUpperCase,
    CompoundMinimum,
    CompoundWordMaximum,
    FullStrip,
    ForbidWarn,
    CompoundMoreSuffixes,
    CheckCompoundDuplicates,
    CheckCompoundCase,
    CheckCompoundTriple,
    SimplifiedTriple,
    CheckSharps,
    CheckCompoundReplacements,
    InputConversion,
    Replacement,
    Break,
    CompoundRule,
    CheckCompoundPattern,
    Prefix,
    Suffix,
    ComplexPrefixes,
    CompoundSyllable,
    SyllableNumber,
}

/// What the lines of a directive have to look like.
#[derive(Clone, Copy)]
pub enum Form {
    /// One line with the value UTF-8.
    Encoding,
    /// One line with a type of flags.
    Kind,
    /// One line with a text.
    Text,
    /// One line with a flag.
    Flag,
    /// One line with a number.
    Number,
    /// Any number of lines, which need no field.
    Switch,
    /// A header with a number, and so many rows.
    Table(RowForm),
    /// A line of an affix class, which is looked at with all lines of its class.
    Class,
    /// A line of the directive is a fault.
    LeftOut,
}

/// What a row of a table has to look like.
#[derive(Clone, Copy)]
pub enum RowForm {
    /// Flags of the type of the file.
    FlagField,
    /// One text.
    OneText,
    /// Two texts.
    TwoTexts,
    /// Two texts that may each have a flag behind a slash, with any text behind them.
    Joint,
}

/// A pass over the lines of a file.
#[derive(Clone, Copy, PartialEq, Eq)]
pub enum Pass {
    /// The encoding, with lines that are not UTF-8.
    First,
    /// The type of flags.
    Second,
    /// The flag aliases.
    Third,
    /// All other options.
    Fourth,
}

/// A row of the table of directives: what is fixed of one.
#[derive(Clone, Copy)]
pub(crate) struct Described {
    /// The directive that the row is for.
    pub(crate) directive: Directive,
    /// The name that its lines begin with.
    pub(crate) name: &'static str,
    /// Another name that they may begin with.
    pub(crate) other_name: Option<&'static str>,
    /// What its lines have to look like.
    pub(crate) form: Form,
    /// The pass that looks at its lines.
    pub(crate) pass: Pass,
}

/// A row of the table, so that it stands in one line.
macro_rules! described {
    ($directive:ident => $name:expr, $other_name:expr, $form:expr, $pass:ident) => {
        Described {
            directive: Directive::$directive,
            name: $name,
            other_name: $other_name,
            form: $form,
            pass: Pass::$pass,
        }
    };
}

/// All directives, in the order of the enum. A static, since names are handed out of it.
static DIRECTIVES: &[Described] = &[
    described!(Set => "SET", None, Form::Encoding, First),
    described!(FlagType => "FLAG", None, Form::Kind, Second),
    described!(FlagAliases => "AF", None, Form::Table(RowForm::FlagField), Third),
    described!(WordCharacters => "WORDCHARS", None, Form::Text, Fourth),
    described!(Ignore => "IGNORE", None, Form::Text, Fourth),
    described!(NeedAffix => "NEEDAFFIX", Some("PSEUDOROOT"), Form::Flag, Fourth),
    described!(Circumfix => "CIRCUMFIX", None, Form::Flag, Fourth),
    described!(ForbiddenWord => "FORBIDDENWORD", None, Form::Flag, Fourth),
    described!(KeepCase => "KEEPCASE", None, Form::Flag, Fourth),
    described!(Warn => "WARN", None, Form::Flag, Fourth),
    described!(CompoundFlag => "COMPOUNDFLAG", None, Form::Flag, Fourth),
    described!(CompoundBegin => "COMPOUNDBEGIN", None, Form::Flag, Fourth),
    described!(CompoundMiddle => "COMPOUNDMIDDLE", None, Form::Flag, Fourth),
    described!(CompoundLast => "COMPOUNDLAST", Some("COMPOUNDEND"), Form::Flag, Fourth),
    described!(CompoundPermitFlag => "COMPOUNDPERMITFLAG", None, Form::Flag, Fourth),
    described!(CompoundForbidFlag => "COMPOUNDFORBIDFLAG", None, Form::Flag, Fourth),
    described!(OnlyInCompound => "ONLYINCOMPOUND", None, Form::Flag, Fourth),
    described!(ForceUpperCase => "FORCEUCASE", None, Form::Flag, Fourth),
    described!(CompoundMinimum => "COMPOUNDMIN", None, Form::Number, Fourth),
    described!(CompoundWordMaximum => "COMPOUNDWORDMAX", None, Form::Number, Fourth),
    described!(FullStrip => "FULLSTRIP", None, Form::Switch, Fourth),
    described!(ForbidWarn => "FORBIDWARN", None, Form::Switch, Fourth),
    described!(CompoundMoreSuffixes => "COMPOUNDMORESUFFIXES", None, Form::Switch, Fourth),
    described!(CheckCompoundDuplicates => "CHECKCOMPOUNDDUP", None, Form::Switch, Fourth),
    described!(CheckCompoundCase => "CHECKCOMPOUNDCASE", None, Form::Switch, Fourth),
    described!(CheckCompoundTriple => "CHECKCOMPOUNDTRIPLE", None, Form::Switch, Fourth),
    described!(SimplifiedTriple => "SIMPLIFIEDTRIPLE", None, Form::Switch, Fourth),
    described!(CheckSharps => "CHECKSHARPS", None, Form::Switch, Fourth),
    described!(CheckCompoundReplacements => "CHECKCOMPOUNDREP", None, Form::Switch, Fourth),
    described!(InputConversion => "ICONV", None, Form::Table(RowForm::TwoTexts), Fourth),
    described!(Replacement => "REP", None, Form::Table(RowForm::TwoTexts), Fourth),
    described!(Break => "BREAK", None, Form::Table(RowForm::OneText), Fourth),
    described!(CompoundRule => "COMPOUNDRULE", None, Form::Table(RowForm::OneText), Fourth),
    described!(CheckCompoundPattern => "CHECKCOMPOUNDPATTERN", None, Form::Table(RowForm::Joint), Fourth),
    described!(Prefix => "PFX", None, Form::Class, Fourth),
    described!(Suffix => "SFX", None, Form::Class, Fourth),
    described!(ComplexPrefixes => "COMPLEXPREFIXES", None, Form::LeftOut, Fourth),
    described!(CompoundSyllable => "COMPOUNDSYLLABLE", None, Form::LeftOut, Fourth),
    described!(SyllableNumber => "SYLLABLENUM", None, Form::LeftOut, Fourth),
];

/// The table of all directives.
#[tactic(auto, unfolding(crate::specs::Names::all_directives))]
pub(crate) fn directives() -> &'static [Described]
    ensures { map description_of result.now ≡ all_directives }
{
    DIRECTIVES
}

/// The directive that has a name, if one has it.
#[tactic(auto, unfolding(crate::specs::Names::directive_named))]
pub fn directive_named(name: &str) -> Option<Directive>
    ensures { result ≡ directive_named name.now }
{
    named_among(directives(), name)
}

/// The directive of the row that has a name among these.
#[tactic(auto, using(crate::proofs::NameLemmas::named_described))]
fn named_among(rows: &[Described], name: &str) -> Option<Directive>
    ensures { result ≡ named_in name.now (map description_of rows.now) }
{
    let row = row_named(rows, name)?;
    Some(row.directive)
}

/// The row that has a name among these.
fn row_named<'a>(rows: &'a [Described], name: &str) -> Option<&'a Described>
    ensures { option_copied result ≡ find (is_described name.now) rows.now }
{
    rows.iter().find(|row| is_named(row, name))
}

/// Whether a name is one of the row's.
fn is_named(row: &Described, name: &str) -> bool
    ensures { result ≡ is_described name.now row.now }
{
    row.name == name || row.other_name == Some(name)
}

/// Whether a directive is one of the pass.
pub(crate) fn is_of(pass: Pass, row: &Described) -> bool
    ensures { result ≡ is_of_pass pass (description_of row.now) }
{
    row.pass == pass
}

/// No directive is forgotten: each has one row in the table. It is looked at in the pass of its
/// row, and in no other.
pub fn every_directive_has_one_row()
    ensures listed { (directive : Directive)
        → Contains (map directive_in all_directives) directive }
    ensures once { AllPairs (λ first other. first ≢ other) (map directive_in all_directives) }
    ensures passes { (pass : Pass) (row : Description)
        → Contains (directives_in pass) row ↔ (Contains all_directives row × (row.pass ≡ pass)) }
{}

/// No name stands twice in the table, so none belongs to two directives, and each is found as a
/// name of its row's.
pub fn no_name_stands_twice()
    ensures once { AllPairs (λ first other. first ≢ other) all_names }
    ensures found { (row : Description) (name : List ℕ) → Contains all_directives row
        → Contains (names_of_directive row) name
        → directive_named name ≡ Some row.directive }
{}
