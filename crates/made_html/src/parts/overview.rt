//! The pieces of `review/pieces/overview/` as parts of HTML that is made of them. `tools/pieces` writes this file.
ghost use Rattle.std.specs.Prelude.{◌≡◌, ◌++◌, OnOk};
ghost use Rattle.review_pieces.specs.Pieces.{front_html, fronts_html, no_fronts_html, overview_html, row_html, upload_html, uploads_html};

use crate::html::Html;
use review_pieces::pieces;
use std::alloc::AllocError;

impl Html {
    /// `front.html`. After an error nothing is left.
    #[tactic(auto, using(crate::proofs::Made::made_front, crate::proofs::Nothing::made_of_nothing))]
    pub fn add_front(
        &mut self,
        client: &str,
        visit: &str,
        code: &str,
        at: &str,
        address: &str,
        sentence: &str,
        behind: &str,
    ) -> Result<(), AllocError>
        ensures { OnOk result (self.new ≡ self.old
            ++ front_html client.now visit.now code.now at.now address.now sentence.now behind.now) }
    {
        let added = pieces::add_front(
            &mut self.bytes,
            client,
            visit,
            code,
            at,
            address,
            sentence,
            behind,
        );
        match added {
            Ok(()) => Ok(()),
            Err(fault) => {
                self.bytes.clear();
                Err(fault)
            }
        }
    }

    /// `fronts.html`. After an error nothing is left.
    #[tactic(auto, using(crate::proofs::Nothing::made_of_nothing))]
    pub fn add_fronts(&mut self, items: &Html, pages: &Html) -> Result<(), AllocError>
        ensures { OnOk result (self.new ≡ self.old ++ fronts_html items.now pages.now) }
    {
        let added = pieces::add_fronts(&mut self.bytes, items.as_slice(), pages.as_slice());
        match added {
            Ok(()) => Ok(()),
            Err(fault) => {
                self.bytes.clear();
                Err(fault)
            }
        }
    }

    /// `no_fronts.html`. After an error nothing is left.
    #[tactic(auto, using(crate::proofs::Made::made_no_fronts, crate::proofs::Nothing::made_of_nothing))]
    pub fn add_no_fronts(&mut self) -> Result<(), AllocError>
        ensures { OnOk result (self.new ≡ self.old ++ no_fronts_html) }
    {
        let added = pieces::add_no_fronts(&mut self.bytes);
        match added {
            Ok(()) => Ok(()),
            Err(fault) => {
                self.bytes.clear();
                Err(fault)
            }
        }
    }

    /// `overview.html`. After an error nothing is left.
    #[tactic(auto, using(crate::proofs::Nothing::made_of_nothing))]
    pub fn add_overview(
        &mut self,
        notes: &Html,
        fronts: &Html,
        rows: &Html,
        pages: &Html,
        uploads: &Html,
    ) -> Result<(), AllocError>
        ensures { OnOk result (self.new ≡ self.old
            ++ overview_html notes.now fronts.now rows.now pages.now uploads.now) }
    {
        let added = pieces::add_overview(
            &mut self.bytes,
            notes.as_slice(),
            fronts.as_slice(),
            rows.as_slice(),
            pages.as_slice(),
            uploads.as_slice(),
        );
        match added {
            Ok(()) => Ok(()),
            Err(fault) => {
                self.bytes.clear();
                Err(fault)
            }
        }
    }

    /// `row.html`. After an error nothing is left.
    #[tactic(auto, using(crate::proofs::Made::made_row, crate::proofs::Nothing::made_of_nothing))]
    pub fn add_row(
        &mut self,
        client: &str,
        end: &str,
        waiting: &str,
        kept: &str,
        cancelled: &str,
        done: &str,
        untouched: &str,
        lost: &str,
    ) -> Result<(), AllocError>
        ensures { OnOk result (self.new ≡ self.old
            ++ row_html client.now end.now waiting.now kept.now cancelled.now done.now untouched.now lost.now) }
    {
        let added = pieces::add_row(
            &mut self.bytes,
            client,
            end,
            waiting,
            kept,
            cancelled,
            done,
            untouched,
            lost,
        );
        match added {
            Ok(()) => Ok(()),
            Err(fault) => {
                self.bytes.clear();
                Err(fault)
            }
        }
    }

    /// `upload.html`. After an error nothing is left.
    #[tactic(auto, using(crate::proofs::Made::made_upload, crate::proofs::Nothing::made_of_nothing))]
    pub fn add_upload(&mut self, name: &str, end: &str) -> Result<(), AllocError>
        ensures { OnOk result (self.new ≡ self.old ++ upload_html name.now end.now) }
    {
        let added = pieces::add_upload(&mut self.bytes, name, end);
        match added {
            Ok(()) => Ok(()),
            Err(fault) => {
                self.bytes.clear();
                Err(fault)
            }
        }
    }

    /// `uploads.html`. After an error nothing is left.
    #[tactic(auto, using(crate::proofs::Nothing::made_of_nothing))]
    pub fn add_uploads(
        &mut self,
        count: &str,
        refused: &str,
        items: &Html,
    ) -> Result<(), AllocError>
        ensures { OnOk result (self.new ≡ self.old ++ uploads_html count.now refused.now items.now) }
    {
        let added = pieces::add_uploads(&mut self.bytes, count, refused, items.as_slice());
        match added {
            Ok(()) => Ok(()),
            Err(fault) => {
                self.bytes.clear();
                Err(fault)
            }
        }
    }
}
