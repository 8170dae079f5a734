//! The files that words name beside a document: those of a dictionary, and of a personal list.

use std::marker::Model;

/// The files of a dictionary, as words name them, and that of a personal list, if one is named.
/// Contracts see their names.
#[derive(Drop)]
pub struct DictionaryNames<'a> {
    pub aff: &'a str,
    pub dic: &'a str,
    pub own: Option<&'a str>,
}

impl<'a> Model for DictionaryNames<'a> {
    ghost use Rattle.std.specs.Option.{option_copied};
    ghost use Rattle.file_loading.specs.Operands.{DictionaryNamed};

    ghost Value = { DictionaryNamed };

    ghost view = { λ inside. record {
      aff = inside.aff.now;
      dic = inside.dic.now;
      own = option_copied inside.own;
    } };
}
