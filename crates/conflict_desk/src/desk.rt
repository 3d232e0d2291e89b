//! A desk with the dockets of several clients.
ghost use Rattle.std.specs.Prelude.{◌≡◌, ◌<◌, ◌+◌, ◌≤◌, option_map, ok_or, Some, None, bytes_eq, IfOk, IfErr, IfSome, OnOk, OnErr};
ghost use Rattle.indexmap.specs.IndexMap.{spare, insert_entry};
ghost use Rattle.conflict_desk.specs.Desk.{AreDockets, new_books, book_of, by_case, refusal, decided_on};
ghost use Rattle.conflict_desk.specs.Laws.{IsInOrder, IsSteady, IsIsolated, TellsCancelled};
ghost use Rattle.conflict_desk.specs.Docket.{AreAscending};
ghost use Rattle.conflict_desk.specs.Book.{front_visit, standing_in, standing_requests};
ghost use Rattle.conflict_desk.specs.declared.fault.DeskFault.TheVariants.{NoClient, NoMemory};

use crate::decided::{Choice, Standing};
use crate::docket::{Case, Docket};
use crate::fault::DeskFault;
use crate::open_docket::OpenDocket;
use indexmap::IndexMap;
use std::alloc::Global;
use std::marker::Model;
use upload_reader::Client;
use visit_replay::{Outcome, Requests};

/// What waits for decisions, by client. Contracts see each client's cases as they were opened, and the decisions that were made on them.
#[derive(Drop)]
pub struct Desk {
    dockets: IndexMap<Client, OpenDocket>,
}

impl Model for Desk {
    ghost use Rattle.std.specs.Prelude.{ℕ, List};
    ghost use Rattle.conflict_desk.specs.Book.{Book};

    ghost Value = { List (List ℕ × Book) };

    ghost view = { λ d. d.dockets.entries };
}

impl Desk {
    /// A desk with these dockets, on which nothing is decided. No two are of one client, and the visits of each ascend: `are_dockets` tells. C3 where memory is
    /// refused; the dockets are gone then.
    pub fn open(alloc: Global, dockets: Vec<Docket>) -> Result<Desk, DeskFault>
        requires { AreDockets dockets.items }
        ensures opened { IfOk result (λ desk. desk ≡ new_books dockets.items) }
        ensures refused { IfErr result (λ fault. fault ≡ NoMemory) }

        // Whatever calls follow, each client's conflicts are decided in order, none twice, and none below a cancelled visit.
        ensures leave { IfOk result IsInOrder }

        // And a visit that stands kept or cancelled after some calls stands so after any more.
        ensures stay { IfOk result IsSteady }

        // And what the calls of one client do is the same without those of the others.
        ensures apart { IfOk result IsIsolated }
    {
        let mut open = IndexMap::new(alloc);
        open.reserve(dockets.len())?;
        for docket in dockets {
            let Docket { client, cases } = docket;
            let docket = OpenDocket::open(alloc, cases)?;
            put(&mut open, client, docket);
        }
        Ok(Desk { dockets: open })
    }

    /// The least visit of a client whose conflict waits, if any does. C1 where the client isn't there.
    pub fn front(&self, client: &Client) -> Result<Option<u64>, DeskFault>
        ensures { result ≡ ok_or (option_map front_visit (book_of client.now self.now)) NoClient }
    {
        match self.dockets.get(client) {
            Some(docket) => Ok(docket.front()),
            None => Err(DeskFault::NoClient),
        }
    }

    /// Decides a client's front. C1 where the client isn't there, and C2 with the front for any other visit; a refusal changes nothing.
    pub fn decide(&mut self, client: &Client, visit: u64, choice: Choice) -> Result<(), DeskFault>
        ensures ok { OnOk result (refusal client.now visit self.old ≡ None) }
        ensures decided { OnOk result (self.new ≡ decided_on client.now visit choice self.old) }
        ensures refused { IfErr result (λ fault. (refusal client.now visit self.old ≡ Some fault) × (self.new ≡ self.old)) }
    {
        decide_for(&mut self.dockets, client, visit, choice)
    }

    /// How a client's visit stands; none where the client or the visit isn't there.
    pub fn standing(&self, client: &Client, visit: u64) -> Option<Standing>
        ensures standing { result ≡ by_case standing_in client.now visit self.now }

        // A visit stands cancelled exactly where it, or a visit on its chain of parents, was cancelled by a decision.
        ensures chain { TellsCancelled client.now visit self.now result }
    {
        self.dockets.get(client)?.standing(visit)
    }

    /// What became of a client's visit, as it was opened, whatever was decided since.
    pub fn outcome(&self, client: &Client, visit: u64) -> Option<&Outcome>
        ensures { option_map (λ outcome. outcome.now) result ≡ by_case (λ _ case. case.outcome) client.now visit self.now }
    {
        let case = self.dockets.get(client)?.case(visit)?;
        Some(&case.outcome)
    }

    /// The requests of a client's visit: those of its outcome, and none where it is cancelled.
    pub fn requests(&self, client: &Client, visit: u64) -> Option<&Requests>
        ensures { option_map (λ requests. requests.now) result ≡ by_case standing_requests client.now visit self.now }
    {
        self.dockets.get(client)?.requests(visit)
    }

    /// A client's docket, with each of its cases and how it stands, by place.
    pub fn docket(&self, client: &Client) -> Option<&OpenDocket>
        ensures { option_map (λ docket. docket.now) result ≡ book_of client.now self.now }
    {
        self.dockets.get(client)
    }

    /// A client's cases, as they were opened.
    pub fn cases(&self, client: &Client) -> Option<&[Case]>
        ensures cases { option_map (λ cases. cases.now) result ≡ option_map (λ book. book.cases) (book_of client.now self.now) }
        ensures ascend { IfSome result (λ cases. AreAscending cases.now) }
    {
        Some(self.dockets.get(client)?.cases())
    }
}

// There is room for it.
fn put(dockets: &mut IndexMap<Client, OpenDocket>, client: Client, docket: OpenDocket)
    requires { 0 < spare dockets.old }
    ensures entries { dockets.new.entries ≡ insert_entry bytes_eq dockets.old.entries client docket }
    ensures room { spare dockets.old ≤ spare dockets.new + 1 }
{
    let _known = dockets.insert(client, docket);
}

// Decides the front of that client's docket.
fn decide_for(
    dockets: &mut IndexMap<Client, OpenDocket>,
    client: &Client,
    visit: u64,
    choice: Choice,
) -> Result<(), DeskFault>
    ensures ok { OnOk result (refusal client.now visit dockets.old.entries ≡ None) }
    ensures decided { OnOk result (dockets.new.entries ≡ decided_on client.now visit choice dockets.old.entries) }
    ensures refused { IfErr result (λ fault. refusal client.now visit dockets.old.entries ≡ Some fault) }
    ensures same { OnErr result (dockets.new.entries ≡ dockets.old.entries) }
{
    let Some(place) = dockets.get_index_of(client) else {
        return Err(DeskFault::NoClient);
    };
    match dockets.get_index_mut(place) {
        Some(docket) => docket.decide(visit, choice),
        None => Err(DeskFault::NoClient),
    }
}
