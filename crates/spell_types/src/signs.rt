//! The flags with a meaning of their own, and the switches and numbers of a dictionary.

use crate::Flag;

/// The flags that the options of hunspell(5) give a meaning; none where the .aff file has no such
/// line.
#[derive(Clone, Copy, Debug, PartialEq, Eq)]
pub struct Signs {
    /// NEEDAFFIX, also called PSEUDOROOT: no word without an affix that lacks it.
    pub need_affix: Option<Flag>,
    /// CIRCUMFIX: a prefix and a suffix that stand on one word together.
    pub circumfix: Option<Flag>,
    /// FORBIDDENWORD: a word that is never right.
    pub forbidden: Option<Flag>,
    /// KEEPCASE: a word in another case than the entry's is not this entry's.
    pub keep_case: Option<Flag>,
    /// WARN: a rare word.
    pub warn: Option<Flag>,
    /// COMPOUNDFLAG: a part of compounds, at each place.
    pub compound: Option<Flag>,
    /// COMPOUNDBEGIN: a first part of compounds.
    pub begin: Option<Flag>,
    /// COMPOUNDMIDDLE: a part of compounds that is neither first nor last.
    pub middle: Option<Flag>,
    /// COMPOUNDLAST, also called COMPOUNDEND: a last part of compounds.
    pub last: Option<Flag>,
    /// COMPOUNDPERMITFLAG: an affix that may stand inside a compound.
    pub permit: Option<Flag>,
    /// COMPOUNDFORBIDFLAG: an affix that may not stand in a compound.
    pub forbid: Option<Flag>,
    /// ONLYINCOMPOUND: no word by itself.
    pub only_inside: Option<Flag>,
    /// FORCEUCASE: a last part of compounds that are written with a capital.
    pub force_upper: Option<Flag>,
}

/// The switches and the numbers of hunspell(5).
#[derive(Clone, Copy, Debug, PartialEq, Eq)]
pub struct Options {
    /// FULLSTRIP: a rule may strip off a whole word.
    pub full_strip: bool,
    /// FORBIDWARN: rare words are refused.
    pub forbid_warn: bool,
    /// COMPOUNDMORESUFFIXES: two suffixes may stand inside a compound.
    pub more_suffixes: bool,
    /// CHECKCOMPOUNDDUP: no part stands twice in a row.
    pub check_dup: bool,
    /// CHECKCOMPOUNDCASE: no capital stands beside the place where two parts meet.
    pub check_case: bool,
    /// CHECKCOMPOUNDTRIPLE: no character stands three times in a row where two parts meet.
    pub check_triple: bool,
    /// SIMPLIFIEDTRIPLE: parts that CHECKCOMPOUNDTRIPLE refuses meet where one of the three is left
    /// out.
    pub simplified: bool,
    /// CHECKSHARPS: SS may stand for ß, and a word with KEEPCASE that holds ß may begin with a
    /// capital, or be in capitals with SS.
    pub sharps: bool,
    /// CHECKCOMPOUNDREP: no compound is a common misspelling of a word.
    pub check_rep: bool,
    /// COMPOUNDMIN: how many characters a part of a compound has at least.
    pub compound_min: u32,
    /// COMPOUNDWORDMAX: how many parts a compound has at most, if there is such a number.
    pub word_max: Option<u32>,
}
