//! The visits of all clients as one list, and what they give, given back by client.
ghost use Rattle.std.specs.Prelude.{◌≡◌, ◌≤◌, ◌++◌, length, map, IfOk, OnOk};
ghost use Rattle.std.specs.List.{flat_map};
ghost use Rattle.std.specs.Vec.Iter.{into_iter_items};
ghost use Rattle.own_pages.specs.OwnPages.{own_page_at};
ghost use Rattle.replay_workers.specs.inside.Clients.{plain_page, own_pages_of, visits_of_all, parts_of_all, followed};

use crate::pool::KeptVisits;
use client_log::Visit;
use own_pages::OwnPages;
use page_tree::Page;
use std::alloc::{AllocError, Global};
use std::marker::Model;
use std::vec::IntoIter;
use visit_replay::{Finding, Outcome, follow_parents};

/// All clients' visits, client after client.
pub(crate) fn in_one_list<'a>(
    alloc: Global,
    clients: &[&'a [Visit]],
) -> Result<Vec<&'a Visit>, AllocError>
    ensures { IfOk result (λ all. map (λ visit. visit.now) all.items ≡ visits_of_all clients.now) }
{
    let mut all = Vec::new(alloc);
    for visits in clients {
        add_visits(&mut all, visits)?;
    }
    Ok(all)
}

fn add_visits<'a>(all: &mut Vec<&'a Visit>, visits: &'a [Visit]) -> Result<(), AllocError>
    ensures { OnOk result (map (λ visit. visit.now) all.new.items
        ≡ map (λ visit. visit.now) all.old.items ++ visits.now) }
{
    all.reserve(visits.len())?;
    for visit in visits {
        all.push_reserved(visit);
    }
    Ok(())
}

/// The visits of each.
pub(crate) fn lists_of<'v>(
    alloc: Global,
    clients: &[KeptVisits<'v>],
) -> Result<Vec<&'v [Visit]>, AllocError>
    ensures { IfOk result (λ all. map (λ visits. visits.now) all.items ≡ map (λ one. one.visits.now) clients.now) }
{
    let mut all = Vec::with_capacity(alloc, clients.len())?;
    for one in clients {
        all.push_reserved(one.visits);
    }
    Ok(all)
}

/// The page of its own that each of all visits has.
pub(crate) fn pages_by_visit<'a>(
    alloc: Global,
    own: &'a OwnPages,
    clients: &[KeptVisits<'_>],
) -> Result<Vec<Option<&'a Page>>, AllocError>
    ensures { IfOk result (λ all. map plain_page all.items
        ≡ flat_map (λ one. own_pages_of (own_page_at own.now) one.client.now one.visits.now) clients.now) }
{
    let mut all = Vec::new(alloc);
    for one in clients {
        add_pages(&mut all, own, one.client, one.visits)?;
    }
    Ok(all)
}

fn add_pages<'a>(
    all: &mut Vec<Option<&'a Page>>,
    own: &'a OwnPages,
    client: &str,
    visits: &[Visit],
) -> Result<(), AllocError>
    ensures { OnOk result (map plain_page all.new.items
        ≡ map plain_page all.old.items ++ own_pages_of (own_page_at own.now) client.now visits.now) }
{
    all.reserve(visits.len())?;
    for visit in visits {
        all.push_reserved(own.get(client, visit.number));
    }
    Ok(())
}

/// A client's visits, and what each gives by itself. Contracts see each visit with that.
#[derive(Drop)]
pub(crate) struct ClientPart<'a> {
    visits: &'a [Visit],
    own: Vec<Outcome>,
}

impl<'a> Model for ClientPart<'a> {
    ghost use Rattle.std.specs.Prelude.{◌≡◌, List, length, zip};
    ghost use Rattle.std.specs.Coded.{codes};
    ghost use Rattle.page_tree.specs.contracts.page.Page as pages;
    ghost use Rattle.visit_replay.specs.Following.{Replayed};

    ghost Value = { List Replayed };

    ghost coded = { Prim.hlevel (codes, pages.the_row.coded) };

    ghost view = { λ p. zip p.visits.now p.own.items };

    ghost invariant = { λ p. length p.own.items ≡ length p.visits.now };
}

impl<'a> ClientPart<'a> {
    /// What they give behind their parents.
    pub(crate) fn follow(self, alloc: Global, finding: &Finding) -> Result<Vec<Outcome>, AllocError>
        ensures { IfOk result (λ all. all.items ≡ followed finding.now self.entry) }
    {
        let Self { visits, own } = self;
        follow_parents(alloc, finding, visits, own)
    }
}

/// Each client's visits with what they give by themselves, cut from what all give.
pub(crate) fn parts_of<'a>(
    alloc: Global,
    clients: &[&'a [Visit]],
    own: Vec<Outcome>,
) -> Result<Vec<ClientPart<'a>>, AllocError>
    requires { length own.items ≡ length (visits_of_all clients.now) }
    ensures { IfOk result (λ parts. parts.items ≡ parts_of_all clients.now own.items) }
{
    let mut parts = Vec::with_capacity(alloc, clients.len())?;
    let mut rest = own.into_iter();
    for visits in clients {
        let own = take_front(alloc, &mut rest, visits.len())?;
        parts.push_reserved(ClientPart { visits, own });
    }
    Ok(parts)
}

// So many from the front. There are no fewer.
fn take_front(
    alloc: Global,
    rest: &mut IntoIter<Outcome>,
    count: usize,
) -> Result<Vec<Outcome>, AllocError>
    requires { count ≤ length (into_iter_items rest.old) }
    ensures count { IfOk result (λ front. length front.items ≡ count) }
    ensures front { IfOk result (λ front. front.items ++ into_iter_items rest.new ≡ into_iter_items rest.old) }
{
    let mut front = Vec::with_capacity(alloc, count)?;
    for _ in 0..count {
        let Some(outcome) = rest.next() else {
            unreachable!()
        };
        front.push_reserved(outcome);
    }
    Ok(front)
}
