//! Lines as JSON documents.
ghost use Rattle.std.specs.Prelude.{◌≡◌, IfErr};
ghost use Rattle.json_document.specs.Standing.{data_of};
ghost use Rattle.site_file.specs.Addition.{value_in};
ghost use Rattle.site_file.specs.inside.{GivesMember};
ghost use Rattle.site_file.specs.declared.wrong.NoAddition.TheVariants.{NoMemory};

use crate::wrong::{LineWrong, NoAddition};
use json::Scratch;
use json_document::{Document, Fault};
use std::alloc::Global;

/// Reads lines as JSON documents, and keeps the room that this takes from line to line. Before the first line it has none.
#[derive(Drop)]
pub(crate) struct JsonLines {
    scratch: Option<Box<Scratch>>,
}

impl JsonLines {
    pub(crate) fn new() -> JsonLines {
        JsonLines { scratch: None }
    }

    /// The document that a line is; else Z1.
    pub(crate) fn read<'a>(
        &'a mut self,
        alloc: Global,
        line: &'a [u8],
    ) -> Result<Document<'a>, NoAddition>
        ensures { GivesMember data_of result (value_in line.now) }
    {
        let scratch = self.scratch(alloc)?;
        match Document::parse(line, scratch, Vec::new(alloc)) {
            Ok(document) => Ok(document),
            Err(Fault::NotJson) => Err(NoAddition::Wrong(LineWrong::NotJson)),
            // No line of a site file is too long for a document.
            Err(Fault::TooLong) => Err(NoAddition::NoMemory),
            Err(Fault::NoMemory) => Err(NoAddition::NoMemory),
        }
    }

    fn scratch(&mut self, alloc: Global) -> Result<&mut Scratch, NoAddition>
        ensures { IfErr result (λ e. e ≡ NoMemory) }
    {
        if self.scratch.is_none() {
            self.scratch = Some(Box::new(alloc, Scratch::new(alloc))?);
        }
        match &mut self.scratch {
            Some(scratch) => Ok(scratch),
            None => Err(NoAddition::NoMemory),
        }
    }
}
