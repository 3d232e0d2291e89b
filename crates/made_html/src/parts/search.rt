//! The pieces of `review/pieces/search/` as parts of HTML that is made of them. `tools/pieces` writes this file.
ghost use Rattle.std.specs.Prelude.{◌≡◌, ◌++◌, OnOk};
ghost use Rattle.review_pieces.specs.Pieces.{found_html, found_client_html, found_clients_html, search_html};

use crate::html::Html;
use review_pieces::pieces;
use std::alloc::AllocError;

impl Html {
    /// `found.html`. After an error nothing is left.
    #[tactic(auto, using(crate::proofs::Made::made_found, crate::proofs::Nothing::made_of_nothing))]
    pub fn add_found(
        &mut self,
        client: &str,
        visit: &str,
        state: &str,
        address: &str,
        conflict: &str,
    ) -> Result<(), AllocError>
        ensures { OnOk result (self.new ≡ self.old
            ++ found_html client.now visit.now state.now address.now conflict.now) }
    {
        let added = pieces::add_found(&mut self.bytes, client, visit, state, address, conflict);
        match added {
            Ok(()) => Ok(()),
            Err(fault) => {
                self.bytes.clear();
                Err(fault)
            }
        }
    }

    /// `found_client.html`. After an error nothing is left.
    #[tactic(auto, using(crate::proofs::Made::made_found_client, crate::proofs::Nothing::made_of_nothing))]
    pub fn add_found_client(&mut self, client: &str) -> Result<(), AllocError>
        ensures { OnOk result (self.new ≡ self.old ++ found_client_html client.now) }
    {
        let added = pieces::add_found_client(&mut self.bytes, client);
        match added {
            Ok(()) => Ok(()),
            Err(fault) => {
                self.bytes.clear();
                Err(fault)
            }
        }
    }

    /// `found_clients.html`. After an error nothing is left.
    #[tactic(auto, using(crate::proofs::Nothing::made_of_nothing))]
    pub fn add_found_clients(&mut self, items: &Html) -> Result<(), AllocError>
        ensures { OnOk result (self.new ≡ self.old ++ found_clients_html items.now) }
    {
        let added = pieces::add_found_clients(&mut self.bytes, items.as_slice());
        match added {
            Ok(()) => Ok(()),
            Err(fault) => {
                self.bytes.clear();
                Err(fault)
            }
        }
    }

    /// `search.html`. After an error nothing is left.
    #[tactic(auto, using(crate::proofs::Nothing::made_of_nothing))]
    pub fn add_search(
        &mut self,
        count: &str,
        query: &str,
        clients: &Html,
        items: &Html,
        pages: &Html,
    ) -> Result<(), AllocError>
        ensures { OnOk result (self.new ≡ self.old ++ search_html count.now query.now clients.now items.now pages.now) }
    {
        let added = pieces::add_search(
            &mut self.bytes,
            count,
            query,
            clients.as_slice(),
            items.as_slice(),
            pages.as_slice(),
        );
        match added {
            Ok(()) => Ok(()),
            Err(fault) => {
                self.bytes.clear();
                Err(fault)
            }
        }
    }
}
