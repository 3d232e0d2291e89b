//! Texts whose characters stand for themselves.
ghost use Rattle.std.specs.Prelude.{◌≡◌, ◌++◌, OnOk};
ghost use Rattle.markup.specs.Escaping.{escaped_byte, escaped};

use std::alloc::AllocError;

/// Adds a text, in an element or in the value of an attribute in quotes. After an error a part of it may be there.
pub fn add_words(out: &mut Vec<u8>, words: &str) -> Result<(), AllocError>
    ensures { OnOk result (out.new.items ≡ out.old.items ++ escaped words.now) }
{
    for c in words.as_bytes() {
        add_byte(out, *c)?;
    }
    Ok(())
}

#[tactic(auto, unfolding(crate::specs::Escaping::escaped_byte))]
fn add_byte(out: &mut Vec<u8>, c: u8) -> Result<(), AllocError>
    ensures { OnOk result (out.new.items ≡ out.old.items ++ escaped_byte c) }
{
    match c {
        b'&' => add_bytes(out, b"&amp;"),
        b'<' => add_bytes(out, b"&lt;"),
        b'>' => add_bytes(out, b"&gt;"),
        b'"' => add_bytes(out, b"&#34;"),
        b'\'' => add_bytes(out, b"&#39;"),
        _ => add_bytes(out, &[c]),
    }
}

pub(crate) fn add_bytes(out: &mut Vec<u8>, bytes: &[u8]) -> Result<(), AllocError>
    ensures { OnOk result (out.new.items ≡ out.old.items ++ bytes.now) }
{
    match out.extend_from_slice(bytes) {
        Ok(()) => Ok(()),
        Err(_) => Err(AllocError),
    }
}
