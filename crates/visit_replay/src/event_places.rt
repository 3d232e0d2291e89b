//! Where an event acts on a page, for whoever shows it.
ghost use Rattle.std.specs.Prelude.{◌≡◌, ◌<◌, IfOk, IfSome, option_map};
ghost use Rattle.page_tree.specs.Limits.{nodes};
ghost use Rattle.page_tree.specs.Number.{place_numbered};
ghost use Rattle.page_tree.specs.Tree.{Tree};
ghost use Rattle.visit_replay.specs.Aim.{Aim, aim_of, place_of_aim};
ghost use Rattle.visit_replay.specs.inside.OneEvent.{AimsAt, IsBetween, IsWithin, aimed, places_numbered};

use crate::aims::{Aiming, aim_at};
use crate::conflicts::Located;
use crate::finding::Finding;
use crate::known_inputs::KnownInputs;
use crate::lookups::Lookups;
use crate::repaired_page::RepairedPage;
use page_tree::{NoMemory, Page};
use std::alloc::Global;
use upload_reader::Event;

/// The number of the element on the repaired page that the event of the recorded page acts on, by its path or by the element that it was made on. There is
/// none where it acts on no one element. By elements, the time grows with both pages (`RepairedPage::of`).
pub fn place_of_event<'v>(
    alloc: Global,
    finding: &Finding,
    recorded: &'v Page,
    repaired: &'v Page,
    event: &'v Event,
) -> Result<Option<u32>, NoMemory>
    ensures within { IfOk result (λ number. IfSome number (λ n. n < nodes repaired.now)) }
    ensures place { IfOk result (λ number. option_map (λ n. place_numbered n repaired.now) number
        ≡ place_of_aim (aim_of finding.now recorded.now repaired.now event.now)) }
{
    match finding.names() {
        None => place_by(alloc, &Aiming::ByPath, recorded, repaired, event),
        Some(fresh) => {
            let mut page = RepairedPage::of(alloc, repaired, fresh)?;
            let beside = page.beside(alloc, recorded)?;
            place_by(alloc, &Aiming::ByElement(beside), recorded, repaired, event)
        }
    }
}

fn place_by<'v>(
    alloc: Global,
    aiming: &Aiming<'_>,
    recorded: &'v Page,
    repaired: &'v Page,
    event: &'v Event,
) -> Result<Option<u32>, NoMemory>
    requires { IsBetween aiming.now recorded.now repaired.now }
    ensures within { IfOk result (λ number. IsWithin number repaired.now) }
    ensures place { IfOk result (λ number. places_numbered number repaired.now
        ≡ place_of_aim (aimed aiming.now recorded.now repaired.now event.now)) }
{
    let inputs = KnownInputs::new(alloc, repaired);
    let mut lookups = Lookups::new(alloc, recorded, repaired, inputs);
    let located = aim_at(alloc, aiming, recorded, repaired, event, &mut lookups)?;
    Ok(target_of(located))
}

fn target_of(located: Located) -> Option<u32>
    ensures { (aim : Aim) → (new : Tree) → AimsAt new aim located
        → IsWithin result new × (places_numbered result new ≡ place_of_aim aim) }
{
    match located {
        Located::At { target, .. } => Some(target),
        Located::Bad(_) | Located::Idle => None,
    }
}
