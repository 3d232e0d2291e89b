//! A decision, as an entry of a site line says it.
ghost use Rattle.std.specs.Prelude.{option_and_then};
ghost use Rattle.serde_json.specs.View.{view};
ghost use Rattle.serde_json.specs.Find.{as_str};
ghost use Rattle.upload_reader.specs.Member.{number_in};
ghost use Rattle.site_line.specs.Decision.{client_named, choice_said, decision_in};
ghost use Rattle.site_line.specs.inside.{GivesSite};

use crate::fault::SiteFault;
use crate::reading::{read_items, read_text, read_whole_number};
use conflict_desk::{Choice, Decision};
use serde_json::Value;
use std::alloc::Global;
use upload_reader::{Client, HelloFault, MAX_NUMBER};

/// The decision that an entry says: an array of just a client, the number of a visit (1 to 9,007,199,254,740,991) and `cancel` or `keep`.
/// Z2 for any other entry.
pub(crate) fn read_decision(alloc: Global, value: &Value) -> Result<Decision, SiteFault>
    ensures { GivesSite (λ decision. decision) result (decision_in (view value.now)) }
{
    let items = read_items(value)?;
    if items.len() != 3 {
        return Err(SiteFault::BadMember);
    }
    Ok(Decision {
        client: read_client(alloc, &items[0])?,
        visit: read_visit(&items[1])?,
        choice: read_choice(&items[2])?,
    })
}

fn read_client(alloc: Global, value: &Value) -> Result<Client, SiteFault>
    ensures { GivesSite (λ client. client) result (client_named (view value.now)) }
{
    match Client::read(alloc, read_text(value)?) {
        Ok(client) => Ok(client),
        Err(HelloFault::NoMemory) => Err(SiteFault::NoMemory),
        Err(_) => Err(SiteFault::BadMember),
    }
}

#[tactic(auto, unfolding(upload_reader::specs::Member::number_in))]
fn read_visit(value: &Value) -> Result<u64, SiteFault>
    ensures { GivesSite (λ visit. visit) result (number_in 1 (view value.now)) }
{
    let visit = read_whole_number(value)?;
    if visit < 1 || visit > MAX_NUMBER {
        return Err(SiteFault::BadMember);
    }
    Ok(visit)
}

fn read_choice(value: &Value) -> Result<Choice, SiteFault>
    ensures { GivesSite (λ choice. choice) result (option_and_then choice_said (as_str (view value.now))) }
{
    match read_text(value)? {
        "cancel" => Ok(Choice::Cancel),
        "keep" => Ok(Choice::Keep),
        _ => Err(SiteFault::BadMember),
    }
}
