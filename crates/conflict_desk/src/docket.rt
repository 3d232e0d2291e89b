//! Dockets: what became of a client's visits.
ghost use Rattle.std.specs.Prelude.{◌≡◌, ◌↔◌, true, ◌<◌, ◌++◌, [], ◌∷◌, length, slice_get, option_and_then, bytes_eq, OnOk, OnErr, IfSome};
ghost use Rattle.std.specs.List.{list_any};
ghost use Rattle.visit_replay.specs.Moved.{requests_of};
ghost use Rattle.conflict_desk.specs.Docket.{AreAscending, case_of_visit, parent_of, is_conflict};
ghost use Rattle.conflict_desk.specs.Desk.{AreDockets};

use page_tree::NoMemory;
use std::alloc::Global;
use std::marker::Model;
use upload_reader::Client;
use visit_replay::{Difference, Outcome, Requests};

/// A visit and what became of it: the visit's number and its parent's stand in the client's log, and `visit_replay` gives the outcome.
#[derive(Debug, Drop)]
pub struct Case {
    pub visit: u64,
    /// The number of the visit that opened it; 0 for none, also in a docket that has a visit 0. One that isn't below the visit's own, or that the docket
    /// doesn't have, counts for none too.
    pub parent: u64,
    pub outcome: Outcome,
    /// What its requests were on its own page, where they differ.
    pub difference: Difference,
}

impl Case {
    pub(crate) fn is_conflict(&self) -> bool
        ensures { result ≡ is_conflict self.now.outcome }
    {
        match self.outcome {
            Outcome::Conflict { .. } => true,
            _ => false,
        }
    }

    /// Those of its outcome; these, which are none, where it has none.
    pub(crate) fn requests<'c>(&'c self, none: &'c Requests) -> &'c Requests
        requires { none.now ≡ [] }
        ensures { result.now ≡ requests_of self.now.outcome }
    {
        match &self.outcome {
            Outcome::Untouched => none,
            Outcome::Done { requests } => requests,
            Outcome::Conflict { requests, .. } => requests,
        }
    }
}

/// Cases of a client's visits. A desk wants them in the order of their numbers. Contracts see them as a list.
#[derive(Debug, Drop)]
pub struct Cases {
    items: Vec<Case>,
}

impl Model for Cases {
    ghost use Rattle.std.specs.Prelude.{List};
    ghost use Rattle.conflict_desk.specs.declared.docket.Case.{Case};

    ghost Value = { List Case };

    ghost view = { λ c. c.items.items };
}

impl Cases {
    /// No cases.
    pub fn new(alloc: Global) -> Cases
        ensures { result ≡ [] }
    {
        Cases {
            items: Vec::new(alloc),
        }
    }

    /// One case more, or nothing changed.
    pub fn push(&mut self, case: Case) -> Result<(), NoMemory>
        ensures ok { OnOk result (self.new ≡ self.old ++ case ∷ []) }
        ensures err { OnErr result (self.new ≡ self.old) }
    {
        self.items.push(case)?;
        Ok(())
    }

    pub fn as_slice(&self) -> &[Case]
        ensures { result.now ≡ self.now }
    {
        self.items.as_slice()
    }

    pub fn into_vec(self) -> Vec<Case>
        ensures { result.items ≡ self }
    {
        self.items
    }
}

impl From<Vec<Case>> for Cases {
    ghost from_gives = { λ items cases. cases ≡ items.items };

    fn from(items: Vec<Case>) -> Cases {
        Cases { items }
    }
}

/// The cases of one client.
#[derive(Debug, Drop)]
pub struct Docket {
    pub client: Client,
    pub cases: Cases,
}

/// Whether a desk may be opened with these dockets: each is of a client of its own, and its visits' numbers ascend. It looks at each case once, and compares
/// each two clients.
pub fn are_dockets(dockets: &[Docket]) -> bool
    ensures { (result ≡ true) ↔ AreDockets dockets.now }
{
    let mut rest = dockets;
    while let Some((docket, others)) = rest.split_first() {
        if !are_ascending(docket.cases.as_slice()) {
            return false;
        }
        if has_client(others, &docket.client) {
            return false;
        }
        rest = others;
    }
    true
}

// Whether one of these dockets is of that client.
fn has_client(dockets: &[Docket], client: &Client) -> bool
    ensures { result ≡ list_any (λ docket. bytes_eq client.now docket.client) dockets.now }
{
    dockets.iter().any(|docket| *client == docket.client)
}

// Whether each visit's number is below the next one's.
fn are_ascending(cases: &[Case]) -> bool
    ensures { (result ≡ true) ↔ AreAscending cases.now }
{
    for k in 1..cases.len() {
        if cases[k - 1].visit >= cases[k].visit {
            return false;
        }
    }
    true
}

// Where the visit of that number stands.
pub(crate) fn place_of(cases: &[Case], visit: u64) -> Option<usize>
    requires { AreAscending cases.now }
    ensures place { option_and_then (slice_get cases.now) result ≡ case_of_visit cases.now visit }
    ensures within { IfSome result (λ place. place < length cases.now) }
{
    let place = cases.partition_point(|case| case.visit < visit);
    match cases.get(place) {
        Some(case) if case.visit == visit => Some(place),
        _ => None,
    }
}

// Where the visit stands that opened this one.
pub(crate) fn parent_of(cases: &[Case], case: &Case) -> Option<usize>
    requires { AreAscending cases.now }
    ensures place { option_and_then (slice_get cases.now) result ≡ parent_of cases.now case.now }
    ensures within { IfSome result (λ place. place < length cases.now) }
{
    if 0 < case.parent && case.parent < case.visit {
        place_of(cases, case.parent)
    } else {
        None
    }
}
