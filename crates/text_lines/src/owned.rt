//! A text with memory of its own.

ghost use Rattle.std.specs.Prelude.{◌≡◌, [], IfOk, List, ℕ};
ghost use Rattle.std.specs.Cmp.{partial_equiv_from_equiv};
ghost use Rattle.std.specs.Cmp.Lexicographic.{nat_list_eq_equiv};
ghost use Rattle.std.specs.Str.{IsUtf8, bytes_eq};
ghost use Rattle.std.specs.String.{string_bytes};

use lists::{Copied, NoMemory};
use std::alloc::Global;
use std::marker::Model;

/// A text that owns its bytes. Contracts see it as the list of its bytes, which are UTF-8.
#[derive(Debug, Drop)]
pub struct Text {
    kept: String,
}

impl Model for Text {
    ghost Value = { List ℕ };

    ghost view = { λ inside. string_bytes inside.kept };

    ghost invariant = { λ inside. IsUtf8 (string_bytes inside.kept) };
}

impl Text {
    /// The empty text. It takes no memory.
    pub fn new(alloc: Global) -> Text
        ensures { result ≡ [] }
    {
        Text {
            kept: String::new(alloc),
        }
    }

    /// The same text, in memory of its own.
    pub fn from_str(alloc: Global, text: &str) -> Result<Text, NoMemory>
        ensures { IfOk result (λ made. made ≡ text.now) }
    {
        Ok(Text {
            kept: String::from_str(alloc, text)?,
        })
    }

    /// The text, to be read.
    pub fn as_str(&self) -> &str
        ensures text { result.now ≡ self.now }
        ensures utf8 { IsUtf8 self.now }
    {
        self.kept.as_str()
    }
}

impl Copied for Text {
    fn copy(&self, alloc: Global) -> Result<Text, NoMemory> {
        Text::from_str(alloc, self.as_str())
    }
}

impl PartialEq for Text {
    ghost eq = { bytes_eq };

    ghost laws = { partial_equiv_from_equiv nat_list_eq_equiv };

    fn eq(&self, other: &Text) -> bool {
        self.as_str() == other.as_str()
    }
}

impl Eq for Text {
    ghost laws = { nat_list_eq_equiv };
}
