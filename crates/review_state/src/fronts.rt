//! What each client has to be decided first.
ghost use Rattle.std.specs.Prelude.{◌≡◌, ◌++◌, map, option_map, IfOk, OnOk};
ghost use Rattle.std.specs.Option.{option_to_list};
ghost use Rattle.review_state.specs.Fronts.{front_of, front_at, fronts_of, front_with};

use conflict_desk::Desk;
use page_tree::NoMemory;
use std::alloc::Global;
use upload_reader::Client;

/// The visit that a client has to be decided first.
#[derive(Clone, Copy, Debug, PartialEq, Eq)]
pub struct Front {
    /// The client, by its place among all.
    pub client: usize,
    pub visit: u64,
}

/// The front of each of these clients that has one, in their order. It asks for each once.
pub fn fronts_of(alloc: Global, desk: &Desk, clients: &[&Client]) -> Result<Vec<Front>, NoMemory>
    ensures { IfOk result (λ fronts. fronts.items ≡ fronts_of desk.now (map (λ client. client.now) clients.now)) }
{
    let mut fronts = Vec::new(alloc);
    for place in 0..clients.len() {
        let visit = front_of(desk, clients[place]);
        push_front(&mut fronts, place, visit)?;
    }
    Ok(fronts)
}

fn front_of(desk: &Desk, client: &Client) -> Option<u64>
    ensures { result ≡ front_of desk.now client.now }
{
    match desk.front(client) {
        Ok(visit) => visit,
        Err(_) => None,
    }
}

fn push_front(fronts: &mut Vec<Front>, client: usize, visit: Option<u64>) -> Result<(), NoMemory>
    ensures { OnOk result (fronts.new.items ≡ fronts.old.items ++ option_to_list (option_map (front_with client) visit)) }
{
    if let Some(visit) = visit {
        fronts.push(Front { client, visit })?;
    }
    Ok(())
}
