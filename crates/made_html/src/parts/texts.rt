//! The pieces of `review/pieces/texts/` as parts of HTML that is made of them. `tools/pieces` writes this file.
ghost use Rattle.std.specs.Prelude.{◌≡◌, ◌++◌, OnOk};
ghost use Rattle.review_pieces.specs.Pieces.{part_gone_html, part_new_html, part_same_html, text_html, text_empty_html, texts_html, typed_html};

use crate::html::Html;
use review_pieces::pieces;
use std::alloc::AllocError;

impl Html {
    /// `part_gone.html`. After an error nothing is left.
    #[tactic(auto, using(crate::proofs::Made::made_part_gone, crate::proofs::Nothing::made_of_nothing))]
    pub fn add_part_gone(&mut self, text: &str) -> Result<(), AllocError>
        ensures { OnOk result (self.new ≡ self.old ++ part_gone_html text.now) }
    {
        let added = pieces::add_part_gone(&mut self.bytes, text);
        match added {
            Ok(()) => Ok(()),
            Err(fault) => {
                self.bytes.clear();
                Err(fault)
            }
        }
    }

    /// `part_new.html`. After an error nothing is left.
    #[tactic(auto, using(crate::proofs::Made::made_part_new, crate::proofs::Nothing::made_of_nothing))]
    pub fn add_part_new(&mut self, text: &str) -> Result<(), AllocError>
        ensures { OnOk result (self.new ≡ self.old ++ part_new_html text.now) }
    {
        let added = pieces::add_part_new(&mut self.bytes, text);
        match added {
            Ok(()) => Ok(()),
            Err(fault) => {
                self.bytes.clear();
                Err(fault)
            }
        }
    }

    /// `part_same.html`. After an error nothing is left.
    #[tactic(auto, using(crate::proofs::Made::made_part_same, crate::proofs::Nothing::made_of_nothing))]
    pub fn add_part_same(&mut self, text: &str) -> Result<(), AllocError>
        ensures { OnOk result (self.new ≡ self.old ++ part_same_html text.now) }
    {
        let added = pieces::add_part_same(&mut self.bytes, text);
        match added {
            Ok(()) => Ok(()),
            Err(fault) => {
                self.bytes.clear();
                Err(fault)
            }
        }
    }

    /// `text.html`. After an error nothing is left.
    #[tactic(auto, using(crate::proofs::Nothing::made_of_nothing))]
    pub fn add_text(&mut self, parts: &Html) -> Result<(), AllocError>
        ensures { OnOk result (self.new ≡ self.old ++ text_html parts.now) }
    {
        let added = pieces::add_text(&mut self.bytes, parts.as_slice());
        match added {
            Ok(()) => Ok(()),
            Err(fault) => {
                self.bytes.clear();
                Err(fault)
            }
        }
    }

    /// `text_empty.html`. After an error nothing is left.
    #[tactic(auto, using(crate::proofs::Made::made_text_empty, crate::proofs::Nothing::made_of_nothing))]
    pub fn add_text_empty(&mut self, why: &str) -> Result<(), AllocError>
        ensures { OnOk result (self.new ≡ self.old ++ text_empty_html why.now) }
    {
        let added = pieces::add_text_empty(&mut self.bytes, why);
        match added {
            Ok(()) => Ok(()),
            Err(fault) => {
                self.bytes.clear();
                Err(fault)
            }
        }
    }

    /// `texts.html`. After an error nothing is left.
    #[tactic(auto, using(crate::proofs::Nothing::made_of_nothing))]
    pub fn add_texts(
        &mut self,
        head: &str,
        was_head: &str,
        is_head: &str,
        was: &Html,
        is: &Html,
        typed: &Html,
    ) -> Result<(), AllocError>
        ensures { OnOk result (self.new ≡ self.old
            ++ texts_html head.now was_head.now is_head.now was.now is.now typed.now) }
    {
        let added = pieces::add_texts(
            &mut self.bytes,
            head,
            was_head,
            is_head,
            was.as_slice(),
            is.as_slice(),
            typed.as_slice(),
        );
        match added {
            Ok(()) => Ok(()),
            Err(fault) => {
                self.bytes.clear();
                Err(fault)
            }
        }
    }

    /// `typed.html`. After an error nothing is left.
    #[tactic(auto, using(crate::proofs::Nothing::made_of_nothing))]
    pub fn add_typed(&mut self, text: &Html) -> Result<(), AllocError>
        ensures { OnOk result (self.new ≡ self.old ++ typed_html text.now) }
    {
        let added = pieces::add_typed(&mut self.bytes, text.as_slice());
        match added {
            Ok(()) => Ok(()),
            Err(fault) => {
                self.bytes.clear();
                Err(fault)
            }
        }
    }
}
