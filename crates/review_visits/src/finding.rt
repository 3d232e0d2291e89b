//! What there is of a visit: on the desk, and in its client's log.
ghost use Rattle.std.specs.Prelude.{◌≡◌, false, None, IfSome};
ghost use Rattle.visit_view.specs.Visits.{AreVisitsInOrder};
ghost use Rattle.review_visits.specs.Visit.{is_on_desk, kept_visits};
ghost use Rattle.review_visits.specs.inside.{IsFoundVisit};

use byte_streams::Source;
use client_log::Visit;
use own_pages::WithOwnPage;
use page_tree::{NoMemory, Page};
use replay_folder::Replayed;
use site_file::SiteFile;
use site_hooks::SiteHooks;
use upload_reader::Client;
use visit_view::{FoundVisit, place_of, visit_of};

/// The visit of that client and number.
pub(crate) fn find_visit<'s, R: Source>(
    replayed: &'s Replayed<R>,
    client: &'s Client,
    number: u64,
) -> Option<FoundVisit<'s>>
    ensures some { IfSome result (IsFoundVisit replayed.now client.now number) }
    ensures none { result ≡ None → is_on_desk replayed.now client.now number ≡ false }
{
    let docket = replayed.repaired.desk.docket(client)?;
    let cases = docket.cases();
    let place = place_of(cases, number)?;
    let case = cases.get(place)?;
    let visits = visits_of(replayed, client);
    let kept = visit_of(visits, number);
    Some(FoundVisit {
        client,
        number,
        docket,
        place,
        case,
        visits,
        kept,
    })
}

// The visits that a client's log keeps, in the order of their numbers.
fn visits_of<'s, R: Source>(replayed: &'s Replayed<R>, client: &Client) -> &'s [Visit]
    ensures visits { result.now ≡ kept_visits replayed.now client.now }
    ensures ascend { AreVisitsInOrder result.now }
{
    match replayed.gathered.clients.get(client) {
        Some(lane) => lane.log.visits(),
        None => &[],
    }
}

/// The page that stands now where the visit was, its own page first; none of a visit that the log doesn't have.
pub(crate) fn page_now(
    site: &SiteFile,
    client: &Client,
    found: &FoundVisit<'_>,
) -> Result<Option<Page>, NoMemory> {
    let Some(visit) = found.kept else {
        return Ok(None);
    };
    let seen = WithOwnPage {
        own: site.own_pages().get(client.text(), visit.number),
        others: site.site().table(),
    };
    seen.make(visit.address.as_str())
}
