//! Texts, and which of them are names.
ghost use Rattle.std.specs.Prelude.{◌≡◌, IfOk, string_bytes};
ghost use Rattle.std.specs.List.{list_all};
ghost use Rattle.page_tree.specs.Name.{is_name_start, is_name_part, is_name};

use crate::limits::MAX_NAME_BYTES;
use crate::memory::NoMemory;
use std::alloc::Global;
use std::marker::Model;

/// A text, seen by contracts as its bytes in UTF-8.
#[derive(Debug, Drop)]
pub struct Text {
    string: String,
}

impl Model for Text {
    ghost use Rattle.std.specs.Prelude.{ℕ, List, string_bytes};

    ghost Value = { List ℕ };

    ghost view = { λ t. string_bytes t.string };
}

impl Text {
    /// A copy of a text.
    pub fn from_str(alloc: Global, text: &str) -> Result<Text, NoMemory>
        ensures { IfOk result (λ made. made ≡ text.now) }
    {
        Ok(Text {
            string: String::from_str(alloc, text)?,
        })
    }

    pub(crate) fn allocator(&self) -> Global {
        *self.string.allocator()
    }

    pub fn as_str(&self) -> &str
        ensures { result.now ≡ self.now }
    {
        self.string.as_str()
    }

    pub fn into_string(self) -> String
        ensures { string_bytes result ≡ self }
    {
        self.string
    }

    pub fn copy(&self) -> Result<Text, NoMemory>
        ensures { IfOk result (λ copy. copy ≡ self.now) }
    {
        Ok(Text {
            string: self.string.clone()?,
        })
    }
}

impl From<String> for Text {
    ghost from_gives = { λ string text. text ≡ string_bytes string };

    fn from(string: String) -> Text {
        Text { string }
    }
}

/// Whether a text is the name of an element: `[A-Za-z_][A-Za-z0-9_.-]*`, of 1 to 64 bytes.
pub fn is_name(text: &str) -> bool
    ensures { result ≡ is_name text.now }
{
    match text.as_bytes() {
        [] => false,
        [first, rest @ ..] => text.len() <= MAX_NAME_BYTES
            && is_name_start(*first)
            && are_name_parts(rest),
    }
}

fn is_name_start(c: u8) -> bool
    ensures { result ≡ is_name_start c }
{
    c.is_ascii_alphabetic() || c == b'_'
}

fn is_name_part(c: u8) -> bool
    ensures { result ≡ is_name_part c }
{
    is_name_start(c) || c.is_ascii_digit() || c == b'.' || c == b'-'
}

fn are_name_parts(bytes: &[u8]) -> bool
    ensures { result ≡ list_all is_name_part bytes.now }
{
    bytes.iter().all(|c| is_name_part(*c))
}
