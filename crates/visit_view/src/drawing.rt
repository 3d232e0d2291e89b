//! The two pages of a visit, drawn, with what its conflict's event acts on marked.
ghost use Rattle.std.specs.Prelude.{OnOk};
ghost use Rattle.page_drawing.specs.Drawn.{DrawsBehind};

use crate::found_visit::FoundVisit;
use crate::seen::{seen_of, spot_here, spot_there};
use crate::spots::draw_spot;
use page_tree::{NoMemory, Page};
use std::alloc::Global;
use visit_replay::Finding;

/// Draws the page that the user saw; nothing where the log doesn't have the visit. After an error a part may be there.
#[tactic(auto, using(page_drawing::proofs::Adds::adds_none))]
pub fn draw_recorded(
    alloc: Global,
    tree: &mut Vec<u8>,
    found: &FoundVisit<'_>,
) -> Result<(), NoMemory>
    ensures { OnOk result (DrawsBehind tree.old.items tree.new.items) }
{
    let Some(visit) = found.kept else {
        return Ok(());
    };
    let seen = seen_of(found, visit, None);
    let spot = spot_there(alloc, &seen)?;
    draw_spot(alloc, tree, &visit.page, &spot)
}

/// Draws the page that stands there now, where events find their places so; likewise.
#[tactic(auto, using(page_drawing::proofs::Adds::adds_none))]
pub fn draw_repaired(
    alloc: Global,
    tree: &mut Vec<u8>,
    found: &FoundVisit<'_>,
    new: &Page,
    finding: &Finding,
) -> Result<(), NoMemory>
    ensures { OnOk result (DrawsBehind tree.old.items tree.new.items) }
{
    let Some(visit) = found.kept else {
        return Ok(());
    };
    let seen = seen_of(found, visit, Some(new));
    let spot = spot_here(alloc, finding, &seen)?;
    draw_spot(alloc, tree, new, &spot)
}
