//! Cases and visits by their numbers.
ghost use Rattle.std.specs.Prelude.{◌≡◌, option_map, option_and_then, slice_get};
ghost use Rattle.client_log.specs.Log.{kept_visit};
ghost use Rattle.conflict_desk.specs.Docket.{AreAscending, case_of_visit};
ghost use Rattle.visit_view.specs.Visits.{AreVisitsInOrder};

use client_log::Visit;
use conflict_desk::Case;

/// Where the case of that visit stands, which is searched by halves.
pub fn place_of(cases: &[Case], number: u64) -> Option<usize>
    requires { AreAscending cases.now }
    ensures { option_and_then (slice_get cases.now) result ≡ case_of_visit cases.now number }
{
    let place = cases.partition_point(|case| case.visit < number);
    match cases.get(place) {
        Some(case) if case.visit == number => Some(place),
        _ => None,
    }
}

/// The visit of that number, likewise.
pub fn visit_of(visits: &[Visit], number: u64) -> Option<&Visit>
    requires { AreVisitsInOrder visits.now }
    ensures { option_map (λ visit. visit.now) result ≡ kept_visit number visits.now }
{
    let place = visits.partition_point(|visit| visit.number < number);
    match visits.get(place) {
        Some(visit) if visit.number == number => Some(visit),
        _ => None,
    }
}
