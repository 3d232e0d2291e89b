//! Where a client was: its visits in the logs that were gathered.
ghost use Rattle.std.specs.Prelude.{◌≡◌, map};
ghost use Rattle.std.specs.List.Sorted.{IsStrictlyIncreasing};
ghost use Rattle.review_lists.specs.Addresses.{logged_visits, visit_address};

use byte_streams::Source;
use client_log::Visit;
use lanes_in_turn::Gathered;
use upload_reader::Client;

/// Those that a client's log keeps; none, where it has no log.
pub(crate) fn logged_visits<'g, R: Source>(logs: &'g Gathered<R>, client: &Client) -> &'g [Visit]
    ensures visits { result.now ≡ logged_visits logs.now client.now }
    ensures ascend { IsStrictlyIncreasing (map (λ visit. visit.number) result.now) }
{
    match logs.clients.get(client) {
        Some(lane) => lane.log.visits(),
        None => &[],
    }
}

/// The address of the visit of that number; empty, where it isn't there.
pub(crate) fn visit_address(visits: &[Visit], number: u64) -> &str
    requires { IsStrictlyIncreasing (map (λ visit. visit.number) visits.now) }
    ensures { result.now ≡ visit_address visits.now number }
{
    let place = visits.partition_point(|visit| visit.number < number);
    match visits.get(place) {
        Some(visit) if visit.number == number => visit.address.as_str(),
        _ => "",
    }
}
