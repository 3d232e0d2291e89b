//! What a desk is asked and told, without memory.
use crate::marks::{WHOLE, answer, begin, end};
use conflict_desk::{Case, Cases, Choice, Desk, Docket, Standing, are_dockets};
use std::alloc::Global;
use upload_reader::Client;
use visit_replay::{ConflictKind, Difference, Outcome, Requests};

/// What a desk answers.
pub(crate) fn desks<T: AllocGlobal + Eprint>(rt: &T) -> Option<&'static str> {
    let client = Client::read(rt.alloc(), "c1").ok()?;
    let mut desk = desk(rt.alloc())?;
    begin(rt);
    let right = is_decided(&mut desk, &client) && is_told(&desk, &client);
    end(rt);
    answer(right, WHOLE)
}

fn is_decided(desk: &mut Desk, client: &Client) -> bool {
    desk.front(client) == Ok(Some(2))
        && desk.decide(client, 1, Choice::Keep).is_err()
        && desk.decide(client, 2, Choice::Cancel).is_ok()
}

fn is_told(desk: &Desk, client: &Client) -> bool {
    desk.standing(client, 2) == Some(Standing::Cancelled)
        && desk.outcome(client, 2).is_some()
        && desk.requests(client, 2).is_some()
        && desk.cases(client).is_some()
}

// The conflicts of visits 2 and 3 of one client wait.
fn desk(alloc: Global) -> Option<Desk> {
    let dockets = dockets(alloc)?;
    if !are_dockets(dockets.as_slice()) {
        return None;
    }
    Desk::open(alloc, dockets).ok()
}

fn dockets(alloc: Global) -> Option<Vec<Docket>> {
    let client = Client::read(alloc, "c1").ok()?;
    let cases = cases(alloc)?;
    let mut dockets = Vec::new(alloc);
    dockets.push(Docket { client, cases }).ok()?;
    Some(dockets)
}

fn cases(alloc: Global) -> Option<Cases> {
    let mut cases = Cases::new(alloc);
    cases.push(conflict(2)).ok()?;
    cases.push(conflict(3)).ok()?;
    Some(cases)
}

fn conflict(visit: u64) -> Case {
    Case {
        visit,
        parent: 0,
        outcome: Outcome::Conflict {
            requests: Requests::none(),
            at: 1,
            kind: ConflictKind::NoTarget,
        },
        difference: Difference::none(),
    }
}
