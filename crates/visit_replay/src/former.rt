//! What requests were, each where it differs.
ghost use Rattle.std.specs.Prelude.{◌≡◌, [], map, IfOk, IfSome};
ghost use Rattle.visit_replay.specs.inside.Marks.{AreMarks};
ghost use Rattle.visit_replay.specs.inside.Told.{told_marked};

use crate::trail::Trail;
use page_tree::NoMemory;
use std::alloc::Global;
use std::marker::Model;

/// Contracts see a list. Kept as the visit's own trail, and of each request which deed of that asked for something else.
#[derive(Debug, Drop)]
pub struct Former {
    pub(crate) own: Option<Box<Trail>>,
    pub(crate) marks: Vec<Option<u32>>,
}

impl Model for Former {
    ghost use Rattle.std.specs.Prelude.{List, Option, map, option_map, IfSome};
    ghost use Rattle.visit_replay.specs.declared.requests.Request.{Request};
    ghost use Rattle.visit_replay.specs.inside.Marks.{AreMarks};
    ghost use Rattle.visit_replay.specs.inside.Told.{told_marked};

    ghost Value = { List (Option Request) };

    ghost view = { λ f. map (told_marked (option_map (λ own. own.value) f.own)) f.marks.items };

    ghost invariant = { λ f. IfSome f.own (λ own. AreMarks own.value f.marks.items) };
}

impl Former {
    /// Of no requests. It takes no memory.
    pub fn new(alloc: Global) -> Former
        ensures { result ≡ [] }
    {
        Former {
            own: None,
            marks: Vec::new(alloc),
        }
    }

    /// What those marks tell of the visit's own trail.
    pub(crate) fn of(
        alloc: Global,
        own: Option<Trail>,
        marks: Vec<Option<u32>>,
    ) -> Result<Former, NoMemory>
        requires { IfSome own (λ own. AreMarks own marks.items) }
        ensures { IfOk result (λ former. former ≡ map (told_marked own) marks.items) }
    {
        let Some(own) = own else {
            return Ok(Former { own: None, marks });
        };
        let own = Box::new(alloc, own)?;
        Ok(Former {
            own: Some(own),
            marks,
        })
    }
}
