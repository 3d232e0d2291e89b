//! One request of a visit.
ghost use Rattle.std.specs.Prelude.{◌≡◌, IfOk};
ghost use Rattle.visit_replay.specs.inside.Told.{last_asked};

use crate::trail::Trail;
use page_tree::NoMemory;
use std::alloc::Global;
use std::marker::Model;

/// What the last deed of a trail asks for. Contracts see the request.
#[derive(Debug, Drop)]
pub struct Single {
    pub(crate) trail: Box<Trail>,
}

impl Model for Single {
    ghost use Rattle.std.specs.Prelude.{unwrap_or, IsSome};
    ghost use Rattle.visit_replay.specs.Requests.{load_request};
    ghost use Rattle.visit_replay.specs.declared.requests.Request.{Request};
    ghost use Rattle.visit_replay.specs.inside.Told.{last_asked};

    ghost Value = { Request };

    ghost view = { λ s. unwrap_or (last_asked s.trail.value) (load_request s.trail.value.address) };

    ghost invariant = { λ s. IsSome (last_asked s.trail.value) };
}

impl Single {
    /// That of this trail, if its last deed asks for anything.
    pub(crate) fn of(alloc: Global, trail: Trail) -> Result<Option<Single>, NoMemory>
        ensures { IfOk result (λ single. single ≡ last_asked trail) }
    {
        let Some(last) = trail.deeds.len().checked_sub(1) else {
            return Ok(None);
        };
        match trail.asking_from(last) {
            None => Ok(None),
            Some(_) => {
                let trail = Box::new(alloc, trail)?;
                Ok(Some(Single { trail }))
            }
        }
    }
}
