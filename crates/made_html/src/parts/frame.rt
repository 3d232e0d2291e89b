//! The pieces of `review/pieces/frame/` as parts of HTML that is made of them. `tools/pieces` writes this file.
ghost use Rattle.std.specs.Prelude.{◌≡◌, ◌++◌, OnOk};
ghost use Rattle.review_pieces.specs.Pieces.{closed_html, foot_html, head_html, more_html, note_html, page_here_html, page_link_html, pages_html, refused_html};

use crate::html::Html;
use review_pieces::pieces;
use std::alloc::AllocError;

impl Html {
    /// `closed.html`. After an error nothing is left.
    #[tactic(auto, using(crate::proofs::Made::made_closed, crate::proofs::Nothing::made_of_nothing))]
    pub fn add_closed(&mut self) -> Result<(), AllocError>
        ensures { OnOk result (self.new ≡ self.old ++ closed_html) }
    {
        let added = pieces::add_closed(&mut self.bytes);
        match added {
            Ok(()) => Ok(()),
            Err(fault) => {
                self.bytes.clear();
                Err(fault)
            }
        }
    }

    /// `foot.html`. After an error nothing is left.
    #[tactic(auto, using(crate::proofs::Made::made_foot, crate::proofs::Nothing::made_of_nothing))]
    pub fn add_foot(&mut self) -> Result<(), AllocError>
        ensures { OnOk result (self.new ≡ self.old ++ foot_html) }
    {
        let added = pieces::add_foot(&mut self.bytes);
        match added {
            Ok(()) => Ok(()),
            Err(fault) => {
                self.bytes.clear();
                Err(fault)
            }
        }
    }

    /// `head.html`. After an error nothing is left.
    #[tactic(auto, using(crate::proofs::Nothing::made_of_nothing))]
    pub fn add_head(
        &mut self,
        title: &str,
        waiting: &str,
        decided: &str,
        query: &str,
        at_overview: &Html,
    ) -> Result<(), AllocError>
        ensures { OnOk result (self.new ≡ self.old
            ++ head_html title.now waiting.now decided.now query.now at_overview.now) }
    {
        let added = pieces::add_head(
            &mut self.bytes,
            title,
            waiting,
            decided,
            query,
            at_overview.as_slice(),
        );
        match added {
            Ok(()) => Ok(()),
            Err(fault) => {
                self.bytes.clear();
                Err(fault)
            }
        }
    }

    /// `more.html`. After an error nothing is left.
    #[tactic(auto, using(crate::proofs::Made::made_more, crate::proofs::Nothing::made_of_nothing))]
    pub fn add_more(&mut self, count: &str) -> Result<(), AllocError>
        ensures { OnOk result (self.new ≡ self.old ++ more_html count.now) }
    {
        let added = pieces::add_more(&mut self.bytes, count);
        match added {
            Ok(()) => Ok(()),
            Err(fault) => {
                self.bytes.clear();
                Err(fault)
            }
        }
    }

    /// `note.html`. After an error nothing is left.
    #[tactic(auto, using(crate::proofs::Made::made_note, crate::proofs::Nothing::made_of_nothing))]
    pub fn add_note(&mut self, role: &str, text: &str) -> Result<(), AllocError>
        ensures { OnOk result (self.new ≡ self.old ++ note_html role.now text.now) }
    {
        let added = pieces::add_note(&mut self.bytes, role, text);
        match added {
            Ok(()) => Ok(()),
            Err(fault) => {
                self.bytes.clear();
                Err(fault)
            }
        }
    }

    /// `page_here.html`. After an error nothing is left.
    #[tactic(auto, using(crate::proofs::Made::made_page_here, crate::proofs::Nothing::made_of_nothing))]
    pub fn add_page_here(&mut self, text: &str) -> Result<(), AllocError>
        ensures { OnOk result (self.new ≡ self.old ++ page_here_html text.now) }
    {
        let added = pieces::add_page_here(&mut self.bytes, text);
        match added {
            Ok(()) => Ok(()),
            Err(fault) => {
                self.bytes.clear();
                Err(fault)
            }
        }
    }

    /// `page_link.html`. After an error nothing is left.
    #[tactic(auto, using(crate::proofs::Made::made_page_link, crate::proofs::Nothing::made_of_nothing))]
    pub fn add_page_link(&mut self, href: &str, text: &str) -> Result<(), AllocError>
        ensures { OnOk result (self.new ≡ self.old ++ page_link_html href.now text.now) }
    {
        let added = pieces::add_page_link(&mut self.bytes, href, text);
        match added {
            Ok(()) => Ok(()),
            Err(fault) => {
                self.bytes.clear();
                Err(fault)
            }
        }
    }

    /// `pages.html`. After an error nothing is left.
    #[tactic(auto, using(crate::proofs::Nothing::made_of_nothing))]
    pub fn add_pages(&mut self, label: &str, links: &Html) -> Result<(), AllocError>
        ensures { OnOk result (self.new ≡ self.old ++ pages_html label.now links.now) }
    {
        let added = pieces::add_pages(&mut self.bytes, label, links.as_slice());
        match added {
            Ok(()) => Ok(()),
            Err(fault) => {
                self.bytes.clear();
                Err(fault)
            }
        }
    }

    /// `refused.html`. After an error nothing is left.
    #[tactic(auto, using(crate::proofs::Made::made_refused, crate::proofs::Nothing::made_of_nothing))]
    pub fn add_refused(
        &mut self,
        head: &str,
        answer: &str,
        text: &str,
        href: &str,
        link: &str,
    ) -> Result<(), AllocError>
        ensures { OnOk result (self.new ≡ self.old ++ refused_html head.now answer.now text.now href.now link.now) }
    {
        let added = pieces::add_refused(&mut self.bytes, head, answer, text, href, link);
        match added {
            Ok(()) => Ok(()),
            Err(fault) => {
                self.bytes.clear();
                Err(fault)
            }
        }
    }
}
