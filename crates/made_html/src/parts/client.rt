//! The pieces of `review/pieces/client/` as parts of HTML that is made of them. `tools/pieces` writes this file.
ghost use Rattle.std.specs.Prelude.{◌≡◌, ◌++◌, OnOk};
ghost use Rattle.review_pieces.specs.Pieces.{branch_html, client_html, client_counts_html, client_upload_html, level_html, next_html};

use crate::html::Html;
use review_pieces::pieces;
use std::alloc::AllocError;

impl Html {
    /// `branch.html`. After an error nothing is left.
    #[tactic(auto, using(crate::proofs::Nothing::made_of_nothing))]
    pub fn add_branch(
        &mut self,
        client: &str,
        visit: &str,
        state: &str,
        address: &str,
        conflict: &str,
        opened: &str,
        here: &Html,
        levels: &Html,
    ) -> Result<(), AllocError>
        ensures { OnOk result (self.new ≡ self.old
            ++ branch_html client.now visit.now state.now address.now conflict.now opened.now here.now levels.now) }
    {
        let added = pieces::add_branch(
            &mut self.bytes,
            client,
            visit,
            state,
            address,
            conflict,
            opened,
            here.as_slice(),
            levels.as_slice(),
        );
        match added {
            Ok(()) => Ok(()),
            Err(fault) => {
                self.bytes.clear();
                Err(fault)
            }
        }
    }

    /// `client.html`. After an error nothing is left.
    #[tactic(auto, using(crate::proofs::Nothing::made_of_nothing))]
    pub fn add_client(
        &mut self,
        client: &str,
        upload: &Html,
        counts: &Html,
        next: &Html,
        items: &Html,
        pages: &Html,
    ) -> Result<(), AllocError>
        ensures { OnOk result (self.new ≡ self.old
            ++ client_html client.now upload.now counts.now next.now items.now pages.now) }
    {
        let added = pieces::add_client(
            &mut self.bytes,
            client,
            upload.as_slice(),
            counts.as_slice(),
            next.as_slice(),
            items.as_slice(),
            pages.as_slice(),
        );
        match added {
            Ok(()) => Ok(()),
            Err(fault) => {
                self.bytes.clear();
                Err(fault)
            }
        }
    }

    /// `client_counts.html`. After an error nothing is left.
    #[tactic(auto, using(crate::proofs::Made::made_client_counts, crate::proofs::Nothing::made_of_nothing))]
    pub fn add_client_counts(
        &mut self,
        waiting: &str,
        kept: &str,
        cancelled: &str,
        done: &str,
        untouched: &str,
    ) -> Result<(), AllocError>
        ensures { OnOk result (self.new ≡ self.old
            ++ client_counts_html waiting.now kept.now cancelled.now done.now untouched.now) }
    {
        let added = pieces::add_client_counts(
            &mut self.bytes,
            waiting,
            kept,
            cancelled,
            done,
            untouched,
        );
        match added {
            Ok(()) => Ok(()),
            Err(fault) => {
                self.bytes.clear();
                Err(fault)
            }
        }
    }

    /// `client_upload.html`. After an error nothing is left.
    #[tactic(auto, using(crate::proofs::Made::made_client_upload, crate::proofs::Nothing::made_of_nothing))]
    pub fn add_client_upload(
        &mut self,
        end: &str,
        taken: &str,
        cost: &str,
        lost: &str,
    ) -> Result<(), AllocError>
        ensures { OnOk result (self.new ≡ self.old ++ client_upload_html end.now taken.now cost.now lost.now) }
    {
        let added = pieces::add_client_upload(&mut self.bytes, end, taken, cost, lost);
        match added {
            Ok(()) => Ok(()),
            Err(fault) => {
                self.bytes.clear();
                Err(fault)
            }
        }
    }

    /// `level.html`. After an error nothing is left.
    #[tactic(auto, using(crate::proofs::Made::made_level, crate::proofs::Nothing::made_of_nothing))]
    pub fn add_level(&mut self) -> Result<(), AllocError>
        ensures { OnOk result (self.new ≡ self.old ++ level_html) }
    {
        let added = pieces::add_level(&mut self.bytes);
        match added {
            Ok(()) => Ok(()),
            Err(fault) => {
                self.bytes.clear();
                Err(fault)
            }
        }
    }

    /// `next.html`. After an error nothing is left.
    #[tactic(auto, using(crate::proofs::Made::made_next, crate::proofs::Nothing::made_of_nothing))]
    pub fn add_next(&mut self, client: &str, visit: &str) -> Result<(), AllocError>
        ensures { OnOk result (self.new ≡ self.old ++ next_html client.now visit.now) }
    {
        let added = pieces::add_next(&mut self.bytes, client, visit);
        match added {
            Ok(()) => Ok(()),
            Err(fault) => {
                self.bytes.clear();
                Err(fault)
            }
        }
    }
}
