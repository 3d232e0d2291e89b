//! HTML that grows by pieces and drawings.
ghost use Rattle.std.specs.Prelude.{◌≡◌, ◌++◌, [], OnOk};
ghost use Rattle.made_html.specs.Made.{IsMade};

use page_drawing::{Marks, draw};
use page_tree::{NoMemory, Page};
use std::alloc::{AllocError, Global};
use std::marker::Model;

/// HTML that is made of pieces and drawings. Contracts see its bytes.
#[derive(Debug, Drop)]
pub struct Html {
    pub(crate) bytes: Vec<u8>,
}

impl Model for Html {
    ghost use Rattle.std.specs.Prelude.{ℕ, List};
    ghost use Rattle.made_html.specs.Made.{IsMade};

    ghost Value = { List ℕ };

    ghost view = { λ h. h.bytes.items };

    ghost invariant = { λ h. IsMade h.bytes.items };
}

impl Html {
    /// None. It takes no memory.
    #[tactic(auto, using(crate::proofs::Nothing::made_of_nothing))]
    pub fn new(alloc: Global) -> Html
        ensures { result ≡ [] }
    {
        Html {
            bytes: Vec::new(alloc),
        }
    }

    pub fn as_slice(&self) -> &[u8]
        ensures bytes { result.now ≡ self.now }

        // It is made of pieces and drawings.
        ensures made { IsMade result.now }
    {
        self.bytes.as_slice()
    }

    pub fn is_empty(&self) -> bool {
        self.bytes.is_empty()
    }

    /// A page, drawn with its marks. After an error nothing is left.
    #[tactic(auto, using(crate::proofs::Nothing::made_of_drawings, crate::proofs::Nothing::made_of_nothing))]
    pub fn add_page(&mut self, page: &Page, marks: &Marks<'_>) -> Result<(), NoMemory> {
        let added = draw(&mut self.bytes, page, marks);
        match added {
            Ok(()) => Ok(()),
            Err(fault) => {
                self.bytes.clear();
                Err(fault)
            }
        }
    }

    /// Adds it behind other HTML.
    pub fn add_to(&self, out: &mut Vec<u8>) -> Result<(), AllocError>
        ensures { OnOk result (out.new.items ≡ out.old.items ++ self.now) }
    {
        out.extend_from_slice(self.bytes.as_slice())?;
        Ok(())
    }
}
