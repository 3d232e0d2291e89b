//! Requests told one after another. All memory for it is asked for before the first.
ghost use Rattle.std.specs.Prelude.{◌≡◌, ◌+◌, [], ◌∷◌, IfOk, IfSome, IsTrue, IsFalse, Some, None, option_map};
ghost use Rattle.visit_replay.specs.declared.requests.Request.{Request as PlainRequest};
ghost use Rattle.visit_replay.specs.inside.Boards.{IsWide, IsOn, IsBefore};
ghost use Rattle.visit_replay.specs.inside.Tellings.{told_request};
ghost use Rattle.visit_replay.specs.inside.Trails.{asked_at, asked_from};

use crate::board::Board;
use crate::requests::Requests;
use crate::single::Single;
use crate::stage::Stage;
use crate::told::ToldRequest;
use crate::trail::Trail;
use page_tree::{MAX_NODES, NoMemory};
use std::alloc::Global;
use std::marker::Model;

/// Those of one visit after another. Contracts see the one that is told now, if any, and those behind it.
#[derive(Drop)]
pub struct RequestTelling<'r> {
    board: Board<'r>,
    trail: Option<&'r Trail>,
    stage: Stage,
}

impl<'r> Model for RequestTelling<'r> {
    ghost use Rattle.std.specs.Prelude.{◌≡◌, [], None, Option, List, IfSome};
    ghost use Rattle.std.specs.Option.{option_map_or};
    ghost use Rattle.page_tree.specs.Limits.{max_nodes};
    ghost use Rattle.visit_replay.specs.declared.requests.Request.{Request};
    ghost use Rattle.visit_replay.specs.inside.Boards.{IsWide};
    ghost use Rattle.visit_replay.specs.inside.Told.{stage_told, IsBoardAt};

    ghost Value = { Option Request × List Request };

    ghost view = { λ t. option_map_or (λ trail. stage_told trail.now t.stage) t.trail (None, []) };

    ghost invariant = { λ t. IsWide t.board × (t.board.nodes ≡ max_nodes)
        × IfSome t.trail (λ trail. IsBoardAt trail.now t.stage t.board) };
}

impl<'r> RequestTelling<'r> {
    /// None. There is room for any page.
    pub fn new(alloc: Global) -> Result<RequestTelling<'r>, NoMemory>
        ensures { IfOk result (λ telling. telling ≡ (None, [])) }
    {
        Ok(RequestTelling {
            board: Board::new(alloc, MAX_NODES, &[])?,
            trail: None,
            stage: Stage::Before,
        })
    }

    /// These are to be told.
    pub fn begin(&mut self, requests: &'r Requests)
        ensures { self.new ≡ (None, requests.now) }
    {
        self.stage = Stage::Before;
        match requests.trail() {
            None => self.trail = None,
            Some(trail) => {
                trail.page.within_limits();
                self.board.begin(trail);
                self.trail = Some(trail);
            }
        }
    }

    /// This one is told.
    pub fn tell(&mut self, single: &'r Single)
        ensures { self.new ≡ (Some single.now, []) }
    {
        let trail: &Trail = &single.trail;
        let place = trail.deeds.len() - 1;
        trail.page.within_limits();
        self.board.begin(trail);
        self.board.go_to(trail, place);
        self.trail = Some(trail);
        self.stage = Stage::AtDeed(place);
    }

    /// The next one is told, if there is one.
    pub fn advance(&mut self) -> bool
        ensures next { IsTrue result → (now : PlainRequest) × (self.old.1 ≡ now ∷ self.new.1) × (self.new.0 ≡ Some now) }
        ensures none { IsFalse result → self.old.1 ≡ [] }
    {
        let Some(trail) = self.trail else {
            return false;
        };
        trail.deeds.within_memory();
        let from = match self.stage {
            Stage::Before => {
                self.stage = Stage::AtLoad;
                return true;
            }
            Stage::AtLoad => 0,
            Stage::AtDeed(place) => place + 1,
        };
        let Some(place) = next_at(&mut self.board, trail, from) else {
            self.trail = None;
            return false;
        };
        self.stage = Stage::AtDeed(place);
        true
    }

    /// The one that is told now. It takes no memory.
    pub fn told(&self) -> Option<ToldRequest<'_>>
        ensures { option_map told_request result ≡ self.now.0 }
    {
        let trail = self.trail?;
        match self.stage {
            Stage::Before => None,
            Stage::AtLoad => Some(ToldRequest::Load {
                address: trail.address.as_str(),
            }),
            Stage::AtDeed(place) => self.board.told(trail, place),
        }
    }
}

// Goes on to the next deed, from that place on, that asks for something.
fn next_at<'r>(board: &mut Board<'r>, trail: &'r Trail, from: usize) -> Option<usize>
    requires { IsOn trail.now.page trail.now.deeds.items board.old }
    ensures none { result ≡ None → asked_from trail.now from ≡ [] }
    ensures some { IfSome result (λ place. (now : PlainRequest)
        × (asked_from trail.now from ≡ now ∷ asked_from trail.now (place + 1))
        × (asked_at trail.now place ≡ Some now)) }
    ensures before { IfSome result (λ place. IsBefore trail.now place board.new) }
    ensures rest { (board.new.nodes ≡ board.old.nodes) × (IsWide board.old → IsWide board.new) }
{
    let place = trail.asking_from(from)?;
    board.go_to(trail, place);
    Some(place)
}
