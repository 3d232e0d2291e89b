ghost use Rattle.std.specs.Prelude.{◌≡◌, ◌≢◌, ◌+◌, ◌<◌, ◌⊎◌, vec_capacity, length, Some, None, Err, IfOk, IsUtf8};
ghost use Rattle.json.specs.Lex.{tokens};
ghost use Rattle.json.specs.Scratch.{tape_room};
ghost use Rattle.json.specs.declared.tape.TheConstants.{MAX_LEN};
ghost use Rattle.serde_json.specs.Read.{read};
ghost use Rattle.json_document.specs.Standing.{data_of};
ghost use Rattle.json_document.specs.declared.fault.Fault.TheVariants.{NotJson, TooLong, NoMemory};

use crate::fault::Fault;
use crate::fitting::fit;
use crate::place::JsonPlace;
use json::{Error, Node, Scratch, Tape};
use std::alloc::Global;
use std::marker::Model;

/// A whole text. Contracts see its tokens; `data_of` is what they stand for.
#[derive(Drop)]
pub struct Document<'a> {
    tape: Tape<'a>,
}

impl<'a> Model for Document<'a> {
    ghost use Rattle.std.specs.Prelude.{List};
    ghost use Rattle.json.specs.Token.{Token, tokens_code};

    ghost Value = { List Token };

    ghost coded = { tokens_code };

    ghost use Rattle.json_document.specs.Fitting.{IsPlace};

    ghost view = { λ d. d.tape };

    ghost invariant = { λ d. IsPlace d.tape };
}

impl<'a> Document<'a> {
    /// Reads a text. The scratch is best kept from text to text: it grows to the longest. The nodes go into the buffer, which is emptied first and grows
    /// where it has too little room.
    pub fn parse(
        bytes: &'a [u8],
        scratch: &'a mut Scratch,
        buffer: Vec<Node<'a>>,
    ) -> Result<Document<'a>, Fault>
        ensures ok { IfOk result (λ document. IsUtf8 bytes.now × (read bytes.now ≡ Some (data_of document))) }
        ensures not_json { result ≡ Err NotJson → IsUtf8 bytes.now → read bytes.now ≡ None }
        ensures too_long { result ≡ Err TooLong → MAX_LEN < length bytes.now }
        ensures memory { result ≡ Err NoMemory
            → (vec_capacity buffer.entry < length (tokens bytes.now)) ⊎ (tape_room scratch.old < length bytes.now + 64) }
    {
        let Ok(text) = simdutf8::compat::from_utf8(bytes) else {
            return Err(Fault::NotJson);
        };
        match Tape::parse(text, scratch, buffer) {
            Ok(tape) => if fit(tape.nodes()) {
                Ok(Document { tape })
            } else {
                Err(Fault::NotJson)
            },
            Err(Error::OutOfMemory) => Err(Fault::NoMemory),
            Err(Error::TooLong) => Err(Fault::TooLong),
            Err(Error::Invalid) => Err(Fault::NotJson),
            // Only a strict reading gives that.
            Err(Error::DuplicateKey) => Err(Fault::NotJson),
        }
    }

    /// The place of the whole value.
    pub fn root(&self) -> JsonPlace<'_, 'a>
        ensures { data_of result ≡ data_of self.now }
    {
        JsonPlace::at(self.tape.root())
    }
}
