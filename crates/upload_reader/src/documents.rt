//! Lines as JSON documents.
ghost use Rattle.std.specs.Prelude.{◌≡◌, IfErr};
ghost use Rattle.json_document.specs.Standing.{data_of};
ghost use Rattle.upload_reader.specs.Member.{json_said};
ghost use Rattle.upload_reader.specs.inside.Unread.{ReadsAs};
ghost use Rattle.upload_reader.specs.declared.unread.Unread.TheVariants.{NoMemory};

use crate::lane_fault::LaneFault;
use crate::unread::Unread;
use json::Scratch;
use json_document::{Document, Fault};
use std::alloc::Global;

/// Reads lines as JSON documents, and keeps the room that this takes from line to line. Before the first line it has none.
#[derive(Drop)]
pub struct Documents {
    scratch: Option<Box<Scratch>>,
}

impl Documents {
    pub fn new() -> Documents {
        Documents { scratch: None }
    }

    /// The document that a line is; else E5.
    pub fn read<'a>(&'a mut self, alloc: Global, line: &'a [u8]) -> Result<Document<'a>, Unread>
        ensures { ReadsAs data_of result (json_said line.now) }
    {
        let scratch = self.scratch(alloc)?;
        match Document::parse(line, scratch, Vec::new(alloc)) {
            Ok(document) => Ok(document),
            Err(Fault::NotJson) => Err(Unread::Fault(LaneFault::NotJson)),
            // No line is too long for a document.
            Err(Fault::TooLong) => Err(Unread::NoMemory),
            Err(Fault::NoMemory) => Err(Unread::NoMemory),
        }
    }

    fn scratch(&mut self, alloc: Global) -> Result<&mut Scratch, Unread>
        ensures { IfErr result (λ e. e ≡ NoMemory) }
    {
        if self.scratch.is_none() {
            self.scratch = Some(Box::new(alloc, Scratch::new(alloc))?);
        }
        match &mut self.scratch {
            Some(scratch) => Ok(scratch),
            None => Err(Unread::NoMemory),
        }
    }
}
