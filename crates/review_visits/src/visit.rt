//! The view of one visit.
ghost use Rattle.std.specs.Prelude.{◌≡◌, false, IfOk, IsTrue};
ghost use Rattle.review_visits.specs.Visit.{is_on_desk, ShowsVisit};

use crate::finding::{find_visit, page_now};
use byte_streams::Source;
use page_tree::NoMemory;
use replay_folder::Replayed;
use site_file::SiteFile;
use std::alloc::Global;
use upload_reader::Client;
use visit_view::{add_top, rest_of};

/// Adds the view of a client's visit; the forms in it have that token. False, and nothing is added, where there is no such client or visit. After an error a
/// part may be there.
pub fn add_visit<R: Source>(
    alloc: Global,
    out: &mut Vec<u8>,
    site: &SiteFile,
    replayed: &Replayed<R>,
    client: &Client,
    visit: u64,
    token: &str,
) -> Result<bool, NoMemory>
    ensures found { IfOk result (λ found. found ≡ is_on_desk replayed.now client.now visit) }
    ensures none { IfOk result (λ found. found ≡ false → out.new.items ≡ out.old.items) }
    ensures shows { IfOk result (λ found. IsTrue found
        → ShowsVisit token.now client.now visit replayed.now out.old.items out.new.items) }
{
    let Some(found) = find_visit(replayed, client, visit) else {
        return Ok(false);
    };
    let page = page_now(site, client, &found)?;
    let rest = rest_of(alloc, &found, page.as_ref(), site.site().finding())?;
    add_top(alloc, out, &replayed.repaired.desk, &found, token)?;
    rest.add_to(out)?;
    Ok(true)
}
