//! The nodes under a form that may send something. They are listed once, since many submits may send the same form.
ghost use Rattle.std.specs.Prelude.{ℕ, List, Bool, ◌≡◌, ◌<◌, ◌++◌, [], None, All, IfOk, IfSome, OnOk, unwrap_or, option_map};
ghost use Rattle.std.specs.List.{cons_option};
ghost use Rattle.page_looks.specs.Outline.{is_one_of};
ghost use Rattle.page_tree.specs.Limits.{nodes};
ghost use Rattle.page_tree.specs.Control.{control_at, start_text_at};
ghost use Rattle.page_tree.specs.Started.{text_started};
ghost use Rattle.page_tree.specs.Number.{place_numbered};
ghost use Rattle.visit_replay.specs.Form.{sent_name, sent_value, unless_empty, value_or};
ghost use Rattle.visit_replay.specs.inside.FieldsNow.{is_of_one, pair_now};
ghost use Rattle.visit_replay.specs.inside.Senders.{SaysFresh, IsSender, IsSenderAt, IsSilent, SendsThere, SendUnder, sent_all};
ghost use Rattle.visit_replay.specs.declared.forms.Filled.{Filled as PlainFilled};

use crate::conflicts::is_disabled;
use page_tree::{Control, NoMemory, Page, StartText, Text};
use std::alloc::Global;

/// One of them: its number, its name, whether that is fresh, and what it sends.
#[derive(Clone, Copy)]
pub(crate) struct Sender<'p> {
    pub(crate) number: u32,
    pub(crate) name: &'p str,
    pub(crate) is_fresh: bool,
    pub(crate) sends: MaySend<'p>,
}

/// What a node sends: the text that it holds, or its value, if it is on or was pressed.
#[derive(Clone, Copy)]
pub(crate) enum MaySend<'p> {
    Text { start: StartText<'p> },
    IfOn { value: &'p str, starts_on: bool },
    Always { value: &'p str },
    IfPressed { value: &'p str },
}

/// All of them under a form, in order.
#[derive(Drop)]
pub(crate) struct Senders<'p> {
    all: Vec<Sender<'p>>,
}

impl<'p> Senders<'p> {
    /// Those under a form, where these names are fresh. The time grows with how many nodes stand there.
    pub(crate) fn under(
        alloc: Global,
        page: &'p Page,
        form: u32,
        names: &[Text],
    ) -> Result<Senders<'p>, NoMemory>
        requires { form < nodes page.now }
        ensures { IfOk result (λ them. SendUnder names.now page.now form them.all.items) }
    {
        let mut them = Senders {
            all: Vec::new(alloc),
        };
        let under = page.nodes_under(form);
        for number in under.start..under.end {
            them.note(page, number, names)?;
        }
        Ok(them)
    }

    pub(crate) fn as_slice(&self) -> &[Sender<'p>]
        ensures { result.now ≡ self.now.all.items }
    {
        self.all.as_slice()
    }

    // Takes in one node more, if it may send something.
    fn note(&mut self, page: &'p Page, number: u32, names: &[Text]) -> Result<(), NoMemory>
        ensures each { OnOk result (All (IsSender page.now) self.old.all.items → All (IsSender page.now) self.new.all.items) }
        ensures marked { OnOk result (All (SaysFresh names.now) self.old.all.items
            → All (SaysFresh names.now) self.new.all.items) }
        ensures pairs { OnOk result ((filled : PlainFilled) → filled.page.now ≡ page.now → sent_all filled self.new.all.items
            ≡ sent_all filled self.old.all.items ++ cons_option (pair_now filled number) []) }
    {
        if let Some(sender) = sender_at(page, number, names) {
            self.all.push(sender)?;
        }
        Ok(())
    }
}

/// The node with that number, if it may send something.
pub(crate) fn sender_at<'p>(page: &'p Page, number: u32, names: &[Text]) -> Option<Sender<'p>>
    ensures some { IfSome result (IsSenderAt names.now page.now number) }
    ensures none { result ≡ None → IsSilent page.now number }
{
    let name = sent_name(page, number)?;
    let sends = sends_at(page, number)?;
    Some(Sender {
        number,
        name,
        is_fresh: is_among(names, name),
        sends,
    })
}

// Whether a pair of that name has one of these.
fn is_among(names: &[Text], name: &str) -> bool
    ensures { (value : List ℕ) → result ≡ is_of_one names.now (name.now, value) }
{
    is_one_of(names, name)
}

fn is_one_of(names: &[Text], name: &str) -> bool
    ensures { result ≡ is_one_of names.now name.now }
{
    names.iter().any(|one| name == one.as_str())
}

// A control that is disabled, or has no name, sends nothing.
fn sent_name(page: &Page, number: u32) -> Option<&str>
    ensures { option_map (λ name. name.now) result ≡ sent_name (place_numbered number page.now) page.now }
{
    if is_disabled(page, number) {
        return None;
    }
    unless_empty(page.attribute_of(number, "name"))
}

/// An absent text and an empty one are the same.
pub(crate) fn unless_empty(text: Option<&str>) -> Option<&str>
    ensures { option_map (λ text. text.now) result ≡ unless_empty (option_map (λ text. text.now) text.entry) }
{
    match text {
        Some(text) if !text.is_empty() => Some(text),
        _ => None,
    }
}

// What a node may send, if anything: a radio button, whose state can't change, must start on.
#[tactic(auto, unfolding(crate::specs::Form::sent_value))]
fn sends_at(page: &Page, number: u32) -> Option<MaySend<'_>>
    ensures some { IfSome result (SendsThere page.now number) }
    ensures none { result ≡ None → (text : List ℕ) (on pressed : Bool)
        → sent_value (control_at (place_numbered number page.now) page.now) text on pressed page.now (place_numbered number page.now) ≡ None }
{
    match page.control_of(number) {
        Control::Text => Some(MaySend::Text {
            start: start_of(page, number),
        }),
        Control::Check => {
            let value = value_or("on", page, number);
            let starts_on = page.start_checked_of(number);
            Some(MaySend::IfOn { value, starts_on })
        }
        Control::Radio if page.start_checked_of(number) => {
            let value = value_or("on", page, number);
            Some(MaySend::Always { value })
        }
        Control::Submit => {
            let value = value_or("", page, number);
            Some(MaySend::IfPressed { value })
        }
        _ => None,
    }
}

fn start_of(page: &Page, number: u32) -> StartText<'_>
    ensures { text_started page.now number result
        ≡ unwrap_or (start_text_at (place_numbered number page.now) page.now) [] }
{
    match page.start_of(number) {
        Some(start) => start,
        None => StartText::Whole(""),
    }
}

fn value_or<'a>(default: &'a str, page: &'a Page, number: u32) -> &'a str
    ensures { result.now ≡ value_or default.now (place_numbered number page.now) page.now }
{
    page.attribute_of(number, "value").unwrap_or(default)
}
