//! The pieces of `review/pieces/visit/` as parts of HTML that is made of them. `tools/pieces` writes this file.
ghost use Rattle.std.specs.Prelude.{◌≡◌, ◌++◌, OnOk};
ghost use Rattle.review_pieces.specs.Pieces.{along_html, along_more_html, along_none_html, along_one_html, around_html, conflict_html, not_front_html, opener_html, visit_html};

use crate::html::Html;
use review_pieces::pieces;
use std::alloc::AllocError;

impl Html {
    /// `along.html`. After an error nothing is left.
    #[tactic(auto, using(crate::proofs::Nothing::made_of_nothing))]
    pub fn add_along(&mut self, count: &str, items: &Html) -> Result<(), AllocError>
        ensures { OnOk result (self.new ≡ self.old ++ along_html count.now items.now) }
    {
        let added = pieces::add_along(&mut self.bytes, count, items.as_slice());
        match added {
            Ok(()) => Ok(()),
            Err(fault) => {
                self.bytes.clear();
                Err(fault)
            }
        }
    }

    /// `along_more.html`. After an error nothing is left.
    #[tactic(auto, using(crate::proofs::Made::made_along_more, crate::proofs::Nothing::made_of_nothing))]
    pub fn add_along_more(&mut self, client: &str, count: &str) -> Result<(), AllocError>
        ensures { OnOk result (self.new ≡ self.old ++ along_more_html client.now count.now) }
    {
        let added = pieces::add_along_more(&mut self.bytes, client, count);
        match added {
            Ok(()) => Ok(()),
            Err(fault) => {
                self.bytes.clear();
                Err(fault)
            }
        }
    }

    /// `along_none.html`. After an error nothing is left.
    #[tactic(auto, using(crate::proofs::Made::made_along_none, crate::proofs::Nothing::made_of_nothing))]
    pub fn add_along_none(&mut self) -> Result<(), AllocError>
        ensures { OnOk result (self.new ≡ self.old ++ along_none_html) }
    {
        let added = pieces::add_along_none(&mut self.bytes);
        match added {
            Ok(()) => Ok(()),
            Err(fault) => {
                self.bytes.clear();
                Err(fault)
            }
        }
    }

    /// `along_one.html`. After an error nothing is left.
    #[tactic(auto, using(crate::proofs::Made::made_along_one, crate::proofs::Nothing::made_of_nothing))]
    pub fn add_along_one(
        &mut self,
        client: &str,
        visit: &str,
        state: &str,
        address: &str,
    ) -> Result<(), AllocError>
        ensures { OnOk result (self.new ≡ self.old ++ along_one_html client.now visit.now state.now address.now) }
    {
        let added = pieces::add_along_one(&mut self.bytes, client, visit, state, address);
        match added {
            Ok(()) => Ok(()),
            Err(fault) => {
                self.bytes.clear();
                Err(fault)
            }
        }
    }

    /// `around.html`. After an error nothing is left.
    #[tactic(auto, using(crate::proofs::Nothing::made_of_nothing))]
    pub fn add_around(&mut self, links: &Html) -> Result<(), AllocError>
        ensures { OnOk result (self.new ≡ self.old ++ around_html links.now) }
    {
        let added = pieces::add_around(&mut self.bytes, links.as_slice());
        match added {
            Ok(()) => Ok(()),
            Err(fault) => {
                self.bytes.clear();
                Err(fault)
            }
        }
    }

    /// `conflict.html`. After an error nothing is left.
    #[tactic(auto, using(crate::proofs::Made::made_conflict, crate::proofs::Nothing::made_of_nothing))]
    pub fn add_conflict(
        &mut self,
        code: &str,
        at: &str,
        sentence: &str,
        todo: &str,
    ) -> Result<(), AllocError>
        ensures { OnOk result (self.new ≡ self.old ++ conflict_html code.now at.now sentence.now todo.now) }
    {
        let added = pieces::add_conflict(&mut self.bytes, code, at, sentence, todo);
        match added {
            Ok(()) => Ok(()),
            Err(fault) => {
                self.bytes.clear();
                Err(fault)
            }
        }
    }

    /// `not_front.html`. After an error nothing is left.
    #[tactic(auto, using(crate::proofs::Made::made_not_front, crate::proofs::Nothing::made_of_nothing))]
    pub fn add_not_front(&mut self, front: &str, client: &str) -> Result<(), AllocError>
        ensures { OnOk result (self.new ≡ self.old ++ not_front_html front.now client.now) }
    {
        let added = pieces::add_not_front(&mut self.bytes, front, client);
        match added {
            Ok(()) => Ok(()),
            Err(fault) => {
                self.bytes.clear();
                Err(fault)
            }
        }
    }

    /// `opener.html`. After an error nothing is left.
    #[tactic(auto, using(crate::proofs::Made::made_opener, crate::proofs::Nothing::made_of_nothing))]
    pub fn add_opener(&mut self, client: &str, parent: &str, from: &str) -> Result<(), AllocError>
        ensures { OnOk result (self.new ≡ self.old ++ opener_html client.now parent.now from.now) }
    {
        let added = pieces::add_opener(&mut self.bytes, client, parent, from);
        match added {
            Ok(()) => Ok(()),
            Err(fault) => {
                self.bytes.clear();
                Err(fault)
            }
        }
    }

    /// `visit.html`. After an error nothing is left.
    #[tactic(auto, using(crate::proofs::Nothing::made_of_nothing))]
    pub fn add_visit(
        &mut self,
        client: &str,
        visit: &str,
        state: &str,
        address: &str,
        opener: &Html,
        told: &Html,
        conflict: &Html,
        decide: &Html,
    ) -> Result<(), AllocError>
        ensures { OnOk result (self.new ≡ self.old
            ++ visit_html client.now visit.now state.now address.now opener.now told.now conflict.now decide.now) }
    {
        let added = pieces::add_visit(
            &mut self.bytes,
            client,
            visit,
            state,
            address,
            opener.as_slice(),
            told.as_slice(),
            conflict.as_slice(),
            decide.as_slice(),
        );
        match added {
            Ok(()) => Ok(()),
            Err(fault) => {
                self.bytes.clear();
                Err(fault)
            }
        }
    }
}
