//! What requests were, told one after another, where they differ. All memory for it is asked for before the first.
ghost use Rattle.std.specs.Prelude.{◌≡◌, [], IfOk, None, option_map};
ghost use Rattle.std.specs.Option.{option_map_or};
ghost use Rattle.visit_replay.specs.Difference.{first_was, others_behind};
ghost use Rattle.visit_replay.specs.inside.Tellings.{told_request};

use crate::board::Board;
use crate::former::Former;
use crate::told::ToldRequest;
use crate::trail::Trail;
use page_tree::{MAX_NODES, NoMemory};
use std::alloc::Global;
use std::marker::Model;

/// Those of one visit after another. Contracts see what is told now, if anything, and what is still to be told.
#[derive(Drop)]
pub struct FormerTelling<'r> {
    board: Board<'r>,
    own: Option<&'r Trail>,
    marks: &'r [Option<u32>],
    mark: Option<u32>,
}

impl<'r> Model for FormerTelling<'r> {
    ghost use Rattle.std.specs.Prelude.{◌≡◌, Option, List, map, IfSome, option_map};
    ghost use Rattle.page_tree.specs.Limits.{max_nodes};
    ghost use Rattle.visit_replay.specs.declared.requests.Request.{Request};
    ghost use Rattle.visit_replay.specs.inside.Boards.{IsWide, IsOn, IsBefore};
    ghost use Rattle.visit_replay.specs.inside.Marks.{AreMarks};
    ghost use Rattle.visit_replay.specs.inside.Told.{told_marked};

    ghost Value = { Option Request × List (Option Request) };

    ghost view = { λ t. let own = option_map (λ trail. trail.now) t.own in
        (told_marked own t.mark, map (told_marked own) t.marks.now) };

    ghost invariant = { λ t. IsWide t.board × (t.board.nodes ≡ max_nodes) × IfSome t.own (λ own. AreMarks own.now t.marks.now
        × IsOn own.now.page own.now.deeds.items t.board × IfSome t.mark (λ place. IsBefore own.now place t.board)) };
}

impl<'r> FormerTelling<'r> {
    /// None. There is room for any page.
    pub fn new(alloc: Global) -> Result<FormerTelling<'r>, NoMemory>
        ensures { IfOk result (λ telling. telling ≡ (None, [])) }
    {
        Ok(FormerTelling {
            board: Board::new(alloc, MAX_NODES, &[])?,
            own: None,
            marks: &[],
            mark: None,
        })
    }

    /// These are to be told, if there are any.
    pub fn begin(&mut self, former: Option<&'r Former>)
        ensures { self.new ≡ (None, option_map_or (λ f. f.now) former.entry []) }
    {
        self.mark = None;
        let Some(former) = former else {
            self.own = None;
            self.marks = &[];
            return;
        };
        self.marks = former.marks.as_slice();
        match &former.own {
            None => self.own = None,
            Some(own) => {
                let own: &Trail = own;
                own.page.within_limits();
                self.board.begin(own);
                self.own = Some(own);
            }
        }
    }

    /// What the next request was is told, if that differs.
    pub fn advance(&mut self)
        ensures { self.new ≡ (first_was self.old.1, others_behind self.old.1) }
    {
        self.mark = None;
        let Some((first, rest)) = self.marks.split_first() else {
            return;
        };
        self.marks = rest;
        if let (Some(own), Some(place)) = (self.own, *first) {
            self.board.go_to(own, place as usize);
            self.mark = Some(place);
        }
    }

    /// What is told now. It takes no memory.
    pub fn told(&self) -> Option<ToldRequest<'_>>
        ensures { option_map told_request result ≡ self.now.0 }
    {
        let own = self.own?;
        let place = self.mark?;
        self.board.told(own, place as usize)
    }
}
