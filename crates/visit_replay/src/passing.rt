//! Where an event acts on the page that stands there now, if what has changed there is passed over: what is told of K11.
ghost use Rattle.std.specs.Prelude.{◌<◌, None};
ghost use Rattle.page_tree.specs.Tree.{Tree};
ghost use Rattle.page_tree.specs.Limits.{nodes};
ghost use Rattle.page_tree.specs.Number.{place_numbered};
ghost use Rattle.visit_replay.specs.Aim.{acts};
ghost use Rattle.visit_replay.specs.Difference.{acts_in, passing_over};
ghost use Rattle.visit_replay.specs.inside.OneEvent.{AimsAt};

use crate::aims::{goes_by, only};
use crate::changes::form_around;
use crate::conflicts::Located;
use page_looks::Beside;
use upload_reader::Event;

/// At the same element, whatever that sends now.
pub(crate) fn passing_over(beside: &Beside<'_>, event: &Event) -> Located
    ensures { AimsAt beside.now.new (passing_over beside.now.old beside.now.new event.now) result }
{
    let Some(number) = only(goes_by(event), beside.recorded_page()) else {
        return Located::Idle;
    };
    match beside.same(number) {
        None => Located::Idle,
        Some(same) => acts_in(beside, event, same.number),
    }
}

// A submit by a button acts on the form around that.
fn acts_in(beside: &Beside<'_>, event: &Event, number: u32) -> Located
    requires { number < nodes beside.now.new }
    ensures { AimsAt beside.now.new (acts_in beside.now.new event.now (place_numbered number beside.now.new)) result }
{
    match event {
        Event::Submit { by: Some(_), .. } => match form_around(beside.repaired_page(), number) {
            None => Located::Idle,
            Some(form) => Located::At {
                target: form,
                button: Some(number),
            },
        },
        Event::Submit { by: None, .. } => at(number),
        Event::Input { .. } => at(number),
        Event::Click { .. } => at(number),
    }
}

fn at(number: u32) -> Located
    ensures { (new : Tree) → number < nodes new → AimsAt new (acts (place_numbered number new) None) result }
{
    Located::At {
        target: number,
        button: None,
    }
}
