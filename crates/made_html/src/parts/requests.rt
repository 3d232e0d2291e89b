//! The pieces of `review/pieces/requests/` as parts of HTML that is made of them. `tools/pieces` writes this file.
ghost use Rattle.std.specs.Prelude.{◌≡◌, ◌++◌, OnOk};
ghost use Rattle.review_pieces.specs.Pieces.{pairs_html, request_html, requests_html, requests_none_html, visit_requests_html};

use crate::html::Html;
use review_pieces::pieces;
use std::alloc::AllocError;

impl Html {
    /// `pairs.html`. After an error nothing is left.
    #[tactic(auto, using(crate::proofs::Made::made_pairs, crate::proofs::Nothing::made_of_nothing))]
    pub fn add_pairs(&mut self, pairs: &str) -> Result<(), AllocError>
        ensures { OnOk result (self.new ≡ self.old ++ pairs_html pairs.now) }
    {
        let added = pieces::add_pairs(&mut self.bytes, pairs);
        match added {
            Ok(()) => Ok(()),
            Err(fault) => {
                self.bytes.clear();
                Err(fault)
            }
        }
    }

    /// `request.html`. After an error nothing is left.
    #[tactic(auto, using(crate::proofs::Nothing::made_of_nothing))]
    pub fn add_request(
        &mut self,
        method: &str,
        address: &str,
        pairs: &Html,
    ) -> Result<(), AllocError>
        ensures { OnOk result (self.new ≡ self.old ++ request_html method.now address.now pairs.now) }
    {
        let added = pieces::add_request(&mut self.bytes, method, address, pairs.as_slice());
        match added {
            Ok(()) => Ok(()),
            Err(fault) => {
                self.bytes.clear();
                Err(fault)
            }
        }
    }

    /// `requests.html`. After an error nothing is left.
    #[tactic(auto, using(crate::proofs::Nothing::made_of_nothing))]
    pub fn add_requests(&mut self, items: &Html) -> Result<(), AllocError>
        ensures { OnOk result (self.new ≡ self.old ++ requests_html items.now) }
    {
        let added = pieces::add_requests(&mut self.bytes, items.as_slice());
        match added {
            Ok(()) => Ok(()),
            Err(fault) => {
                self.bytes.clear();
                Err(fault)
            }
        }
    }

    /// `requests_none.html`. After an error nothing is left.
    #[tactic(auto, using(crate::proofs::Made::made_requests_none, crate::proofs::Nothing::made_of_nothing))]
    pub fn add_requests_none(&mut self, why: &str) -> Result<(), AllocError>
        ensures { OnOk result (self.new ≡ self.old ++ requests_none_html why.now) }
    {
        let added = pieces::add_requests_none(&mut self.bytes, why);
        match added {
            Ok(()) => Ok(()),
            Err(fault) => {
                self.bytes.clear();
                Err(fault)
            }
        }
    }

    /// `visit_requests.html`. After an error nothing is left.
    #[tactic(auto, using(crate::proofs::Nothing::made_of_nothing))]
    pub fn add_visit_requests(
        &mut self,
        stand: &str,
        asked_head: &str,
        before: &Html,
        asked: &Html,
    ) -> Result<(), AllocError>
        ensures { OnOk result (self.new ≡ self.old
            ++ visit_requests_html stand.now asked_head.now before.now asked.now) }
    {
        let added = pieces::add_visit_requests(
            &mut self.bytes,
            stand,
            asked_head,
            before.as_slice(),
            asked.as_slice(),
        );
        match added {
            Ok(()) => Ok(()),
            Err(fault) => {
                self.bytes.clear();
                Err(fault)
            }
        }
    }
}
