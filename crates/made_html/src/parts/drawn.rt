//! The pieces of `review/pieces/drawn/` as parts of HTML that is made of them. `tools/pieces` writes this file.
ghost use Rattle.std.specs.Prelude.{◌≡◌, ◌++◌, OnOk};
ghost use Rattle.review_pieces.specs.Pieces.{drawn_html, figure_html, no_page_html, visit_pages_html};

use crate::html::Html;
use review_pieces::pieces;
use std::alloc::AllocError;

impl Html {
    /// `drawn.html`. After an error nothing is left.
    #[tactic(auto, using(crate::proofs::Nothing::made_of_nothing))]
    pub fn add_drawn(&mut self, title: &str, tree: &Html) -> Result<(), AllocError>
        ensures { OnOk result (self.new ≡ self.old ++ drawn_html title.now tree.now) }
    {
        let added = pieces::add_drawn(&mut self.bytes, title, tree.as_slice());
        match added {
            Ok(()) => Ok(()),
            Err(fault) => {
                self.bytes.clear();
                Err(fault)
            }
        }
    }

    /// `figure.html`. After an error nothing is left.
    #[tactic(auto, using(crate::proofs::Made::made_figure, crate::proofs::Nothing::made_of_nothing))]
    pub fn add_figure(
        &mut self,
        head: &str,
        client: &str,
        visit: &str,
        of: &str,
        caption: &str,
    ) -> Result<(), AllocError>
        ensures { OnOk result (self.new ≡ self.old ++ figure_html head.now client.now visit.now of.now caption.now) }
    {
        let added = pieces::add_figure(&mut self.bytes, head, client, visit, of, caption);
        match added {
            Ok(()) => Ok(()),
            Err(fault) => {
                self.bytes.clear();
                Err(fault)
            }
        }
    }

    /// `no_page.html`. After an error nothing is left.
    #[tactic(auto, using(crate::proofs::Made::made_no_page, crate::proofs::Nothing::made_of_nothing))]
    pub fn add_no_page(&mut self, head: &str, caption: &str) -> Result<(), AllocError>
        ensures { OnOk result (self.new ≡ self.old ++ no_page_html head.now caption.now) }
    {
        let added = pieces::add_no_page(&mut self.bytes, head, caption);
        match added {
            Ok(()) => Ok(()),
            Err(fault) => {
                self.bytes.clear();
                Err(fault)
            }
        }
    }

    /// `visit_pages.html`. After an error nothing is left.
    #[tactic(auto, using(crate::proofs::Nothing::made_of_nothing))]
    pub fn add_visit_pages(&mut self, recorded: &Html, repaired: &Html) -> Result<(), AllocError>
        ensures { OnOk result (self.new ≡ self.old ++ visit_pages_html recorded.now repaired.now) }
    {
        let added = pieces::add_visit_pages(
            &mut self.bytes,
            recorded.as_slice(),
            repaired.as_slice(),
        );
        match added {
            Ok(()) => Ok(()),
            Err(fault) => {
                self.bytes.clear();
                Err(fault)
            }
        }
    }
}
