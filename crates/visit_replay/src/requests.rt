//! Requests, and whether they go elsewhere now.
ghost use Rattle.std.specs.Prelude.{ℕ, ◌≡◌, ◌<◌, [], ◌∷◌, ◌++◌, not, All, Some, unwrap_or, IfOk, OnOk, codes};
ghost use Rattle.std.specs.Option.{option_map_or};
ghost use Rattle.std.specs.Str.{bytes_eq};
ghost use Rattle.form_urlencoded.specs.Form.{extend_pairs};
ghost use Rattle.page_tree.specs.Limits.{nodes};
ghost use Rattle.page_tree.specs.Tree.{Tree};
ghost use Rattle.upload_reader.specs.declared.message.Event.{Event as PlainEvent};
ghost use Rattle.client_log.specs.declared.visit.Visit.{Visit};
ghost use Rattle.visit_replay.specs.Aim.{Aim};
ghost use Rattle.visit_replay.specs.Form.{bare};
ghost use Rattle.visit_replay.specs.Requests.{requests_before};
ghost use Rattle.visit_replay.specs.declared.requests.Request.{Request as PlainRequest};
ghost use Rattle.visit_replay.specs.inside.Deeds.{requests_on};
ghost use Rattle.visit_replay.specs.inside.FieldsNow.{LeadsElsewhere};
ghost use Rattle.visit_replay.specs.Moved.{what_counts};
ghost use Rattle.visit_replay.specs.inside.Differing.{KnowsTexts};
ghost use Rattle.visit_replay.specs.inside.OneEvent.{IsWithin};
ghost use Rattle.visit_replay.specs.inside.Senders.{SaysFresh, IsSender, KnowsForms, sent_all};
ghost use Rattle.visit_replay.specs.inside.Trails.{IsTrailOf};

use crate::address::bare;
use crate::comparing::is_sent_to;
use crate::comparisons::Comparisons;
use crate::counted_query::is_what_counts;
use crate::finding::Finding;
use crate::forms::{self, Filled};
use crate::known_forms::KnownForms;
use crate::senders::Sender;
use crate::telling::RequestTelling;
use crate::trail::Trail;
use page_looks::without_fresh;
use page_tree::{NoMemory, Text};
use std::alloc::Global;
use std::marker::Model;
use std::mem::size_of;
use upload_reader::Event;

/// How a request is made: by opening a page, or by a link or a form.
#[derive(Clone, Copy, Debug, PartialEq, Eq)]
pub enum Method {
    Load,
    Get,
    Post,
}

/// A request that a replayed visit makes.
#[derive(Debug, Drop)]
pub struct Request {
    /// The request number of the click or submit that made it; 0 for the visit's own load.
    pub number: u64,
    pub method: Method,
    pub address: Text,
    /// A form's fields as `application/x-www-form-urlencoded`; empty for loads and links. Under Get the address ends with them too.
    pub pairs: Text,
}

/// Requests, in the order in which they are made. Contracts see them as a list. What makes them is kept, and not their texts: `RequestTelling` tells them one after another.
/// It is kept behind a pointer: outcomes are moved about by lists, those of visits without requests too.
#[derive(Debug, Drop)]
pub struct Requests {
    trail: Option<Box<Trail>>,
}

const _: () = prove!(size_of::<Requests>() <= 16);

impl Model for Requests {
    ghost use Rattle.std.specs.Prelude.{[], List};
    ghost use Rattle.std.specs.Option.{option_map_or};
    ghost use Rattle.visit_replay.specs.declared.requests.Request.{Request};
    ghost use Rattle.visit_replay.specs.inside.Deeds.{requests_on};

    ghost Value = { List Request };

    ghost view = { λ r. option_map_or
        (λ t. requests_on t.value.address t.value.page t.value.deeds.items) r.trail [] };
}

impl Requests {
    /// No requests. It takes no memory.
    pub fn none() -> Requests
        ensures { result ≡ [] }
    {
        Requests { trail: None }
    }

    /// Those of a trail, the load first.
    #[tactic(auto, using(crate::proofs::TrailLaws::trail_makes))]
    pub(crate) fn of(alloc: Global, trail: Trail) -> Result<Requests, NoMemory>
        ensures these { IfOk result (λ them. them ≡ requests_on trail.address trail.page trail.deeds.items) }
        ensures made { IfOk result (λ them. (aim : PlainEvent → Aim) (visit : Visit) (new : Tree) (n : ℕ)
            → IsTrailOf aim visit new n trail → them ≡ requests_before aim visit.address new visit.events n) }
    {
        Ok(Requests {
            trail: Some(Box::new(alloc, trail.fitted())?),
        })
    }

    /// The trail that makes them, if anything does.
    pub(crate) fn trail(&self) -> Option<&Trail>
        ensures { self.now ≡ option_map_or
            (λ t. requests_on t.now.address t.now.page t.now.deeds.items) result [] }
    {
        match &self.trail {
            None => None,
            Some(trail) => Some(trail),
        }
    }

    /// With their whole texts, which may be long.
    pub fn whole(&self, alloc: Global) -> Result<Vec<Request>, NoMemory>
        ensures { IfOk result (λ all. all.items ≡ self.now) }
    {
        let mut all = Vec::new(alloc);
        let mut telling = RequestTelling::new(alloc)?;
        telling.begin(self);
        while telling.advance() {
            add_told(alloc, &telling, &mut all)?;
        }
        Ok(all)
    }
}

// The one that is told now.
fn add_told(
    alloc: Global,
    telling: &RequestTelling<'_>,
    all: &mut Vec<Request>,
) -> Result<(), NoMemory>
    ensures { OnOk result ((now : PlainRequest) → telling.now.0 ≡ Some now → all.new.items ≡ all.old.items ++ now ∷ []) }
{
    let Some(told) = telling.told() else {
        return Ok(());
    };
    let request = told.whole(alloc)?;
    all.push(request)?;
    Ok(())
}

// ---- whether they go elsewhere

/// Whether that of such an event goes to another address than that one. What is sent under post isn't looked at.
pub(crate) fn leads_elsewhere(
    alloc: Global,
    address: &str,
    filled: &Filled<'_, '_>,
    event: &Event,
    target: u32,
    finding: &Finding,
    now: &str,
    compared: &mut Comparisons,
    forms: &mut KnownForms<'_>,
) -> Result<bool, NoMemory>
    requires there { target < nodes filled.now.page.now }
    requires button { IsWithin filled.now.button filled.now.page.now }
    requires known { KnowsTexts finding.now compared.old }
    requires forms { KnowsForms filled.now.page.now forms.old }
    requires names { forms.old.names.now ≡ unwrap_or finding.now [] }
    ensures leads { IfOk result (LeadsElsewhere finding.now address.now filled.now event.now target now.now) }
    ensures known { OnOk result (KnowsTexts finding.now compared.new) }
    ensures forms { OnOk result (KnowsForms filled.now.page.now forms.new) }
    ensures names { forms.new.names ≡ forms.old.names }
{
    let page = filled.page;
    match event {
        Event::Input { .. } => Ok(false),
        Event::Click { req: 0, .. } | Event::Submit { req: 0, .. } => Ok(false),
        Event::Click { .. } => match page.attribute_of(target, "href") {
            Some(href) => are_apart(alloc, finding, href, now, compared),
            None => Ok(false),
        },
        Event::Submit { .. } => {
            let action = forms::action_of(address, page, target);
            if forms::is_post(page, target) {
                return are_apart(alloc, finding, action, now, compared);
            }
            forms.look_under(alloc, target)?;
            let senders = forms.senders_under(target).as_slice();
            is_query_apart(alloc, filled, senders, finding, action, now)
        }
    }
}

// Whether two addresses differ: but for the values of fresh names, where events find their places by their elements.
fn are_apart(
    alloc: Global,
    finding: &Finding,
    before: &str,
    now: &str,
    compared: &mut Comparisons,
) -> Result<bool, NoMemory>
    requires { KnowsTexts finding.now compared.old }
    ensures apart { IfOk result (λ apart. apart
        ≡ not (bytes_eq (what_counts finding.now before.now) (what_counts finding.now now.now))) }
    ensures known { OnOk result (KnowsTexts finding.now compared.new) }
{
    match finding.names() {
        None => Ok(before != now),
        Some(fresh) => compared.differ(alloc, fresh.as_slice(), before, now),
    }
}

// The same of what a form sends under get. It is compared as it comes, up to the first byte that differs.
fn is_query_apart(
    alloc: Global,
    filled: &Filled<'_, '_>,
    senders: &[Sender<'_>],
    finding: &Finding,
    action: &str,
    now: &str,
) -> Result<bool, NoMemory>
    requires senders { All (IsSender filled.now.page.now) senders.now }
    requires marked { All (SaysFresh (unwrap_or finding.now [])) senders.now }
    ensures { IfOk result (λ apart. apart ≡ not (bytes_eq (what_counts finding.now
        (bare action.now ++ codes "?" ++ extend_pairs [] (sent_all filled.now senders.now))) (what_counts finding.now now.now))) }
{
    match finding.names() {
        None => Ok(!is_sent_to(filled, senders, bare(action), now)),
        Some(fresh) => {
            let counts = without_fresh(alloc, fresh.as_slice(), now)?;
            Ok(!is_what_counts(filled, senders, action, counts.as_str()))
        }
    }
}

/// The start with a query behind it.
pub(crate) fn with_query(alloc: Global, start: &str, query: &str) -> Result<Text, NoMemory>
    ensures { IfOk result (λ address. address ≡ start.now ++ codes "?" ++ query.now) }
{
    let mut address = String::with_capacity(alloc, start.len() + 1 + query.len())?;
    address.push_str(start)?;
    address.push_str("?")?;
    address.push_str(query)?;
    Ok(Text::from(address))
}
