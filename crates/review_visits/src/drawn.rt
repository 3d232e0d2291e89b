//! The pages that stand in the frames.
ghost use Rattle.std.specs.Prelude.{◌≡◌, false, IfOk, IsTrue, OnOk};
ghost use Rattle.page_drawing.specs.Drawn.{DrawsBehind};
ghost use Rattle.review_visits.specs.Visit.{is_on_desk, ShowsDrawing};

use crate::finding::{find_visit, page_now};
use byte_streams::Source;
use page_tree::NoMemory;
use replay_folder::Replayed;
use review_pieces::pieces::add_drawn;
use review_requests::Side;
use site_file::SiteFile;
use std::alloc::Global;
use upload_reader::Client;
use visit_view::{FoundVisit, draw_recorded, draw_repaired};

/// Adds the whole page that draws a page of a client's visit, with what its conflict's event acts on marked; nothing is drawn where the site has no page there.
/// False, and nothing is added, where there is no such client or visit. After an error a part may be there.
pub fn add_drawing<R: Source>(
    alloc: Global,
    out: &mut Vec<u8>,
    site: &SiteFile,
    replayed: &Replayed<R>,
    client: &Client,
    visit: u64,
    side: Side,
) -> Result<bool, NoMemory>
    ensures found { IfOk result (λ found. found ≡ is_on_desk replayed.now client.now visit) }
    ensures none { IfOk result (λ found. found ≡ false → out.new.items ≡ out.old.items) }
    ensures shows { IfOk result (λ found. IsTrue found → ShowsDrawing out.old.items out.new.items) }
{
    let Some(found) = find_visit(replayed, client, visit) else {
        return Ok(false);
    };
    let mut tree = Vec::new(alloc);
    match side {
        Side::Recorded => draw_recorded(alloc, &mut tree, &found)?,
        Side::Repaired => draw_now(alloc, &mut tree, site, &found)?,
    }
    let title = title_of(alloc, visit, side)?;
    add_drawn(out, title.as_str(), tree.as_slice())?;
    Ok(true)
}

fn title_of(alloc: Global, visit: u64, side: Side) -> Result<String, NoMemory> {
    match side {
        Side::Recorded => format!(in alloc; "Recorded page of visit {visit}"),
        Side::Repaired => format!(in alloc; "Repaired page of visit {visit}"),
    }
}

// The page that stands there now, if one does.
#[tactic(auto, using(page_drawing::proofs::Adds::adds_none))]
fn draw_now(
    alloc: Global,
    tree: &mut Vec<u8>,
    site: &SiteFile,
    found: &FoundVisit<'_>,
) -> Result<(), NoMemory>
    ensures { OnOk result (DrawsBehind tree.old.items tree.new.items) }
{
    match page_now(site, found.client, found)? {
        Some(new) => draw_repaired(alloc, tree, found, &new, site.site().finding()),
        None => Ok(()),
    }
}
