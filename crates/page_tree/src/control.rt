ghost use Rattle.std.specs.Prelude.{◌≡◌, option_map};
ghost use Rattle.page_tree.specs.Look.{value_of};
ghost use Rattle.page_tree.specs.Number.{place_numbered};
ghost use Rattle.page_tree.specs.inside.Kept.{attributes_at};
ghost use Rattle.page_tree.specs.Control.{control_at, element_control, input_control, button_control, is_text, is_switch};

use crate::page::Page;

/// What a node is to a form (HTML 4.01, section 17.13.2).
#[derive(Clone, Copy, Debug, PartialEq, Eq)]
pub enum Control {
    /// A field that holds a text: most `input`s, `textarea` and `select`.
    Text,
    /// A checkbox.
    Check,
    /// A radio button.
    Radio,
    /// A submit button.
    Submit,
    /// An `a` or `area` with an `href`.
    Link,
    /// A `form`.
    Form,
    /// Everything else.
    Other,
}

impl Control {
    /// Whether it holds a text.
    pub(crate) fn is_text(self) -> bool
        ensures { result ≡ is_text self }
    {
        matches!(self, Control::Text)
    }

    /// Whether it is on or off.
    pub(crate) fn is_switch(self) -> bool
        ensures { result ≡ is_switch self }
    {
        matches!(self, Control::Check | Control::Radio)
    }
}

impl Page {
    /// What the node with that number is to a form; Other for a text, and past the last number.
    #[tactic(auto, using(crate::proofs::ControlLaws::control_named, crate::proofs::ControlLaws::control_unnamed))]
    pub fn control_of(&self, number: u32) -> Control
        ensures { result ≡ control_at (place_numbered number self.now) self.now }
    {
        match self.name_of(number) {
            None => Control::Other,
            Some(name) => self.element_control(number, name),
        }
    }

    // That of an element of that name.
    #[tactic(auto, unfolding(crate::specs::Control::element_control))]
    pub(crate) fn element_control(&self, number: u32, name: &str) -> Control
        ensures { result ≡ element_control name.now (attributes_at (place_numbered number self.now) self.now) }
    {
        match name {
            "input" => input_control(self.value_of(number, "type")),
            "textarea" | "select" => Control::Text,
            "button" => button_control(self.value_of(number, "type")),
            "a" | "area" if self.value_of(number, "href").is_some() => Control::Link,
            "form" => Control::Form,
            _ => Control::Other,
        }
    }

    // `attribute_of`; its contract speaks of the list of attributes.
    #[tactic(auto, using(crate::proofs::ControlLaws::attribute_is))]
    pub(crate) fn value_of(&self, number: u32, name: &str) -> Option<&str>
        ensures { option_map (λ v. v.now) result ≡ value_of name.now (attributes_at (place_numbered number self.now) self.now) }
    {
        self.attribute_of(number, name)
    }
}

#[tactic(auto, unfolding(crate::specs::Control::input_control))]
fn input_control(kind: Option<&str>) -> Control
    ensures { result ≡ input_control (option_map (λ kind. kind.now) kind.entry) }
{
    let Some(kind) = kind else {
        return Control::Text;
    };
    if kind.eq_ignore_ascii_case("checkbox") {
        Control::Check
    } else if kind.eq_ignore_ascii_case("radio") {
        Control::Radio
    } else if kind.eq_ignore_ascii_case("submit") {
        Control::Submit
    } else if kind.eq_ignore_ascii_case("image")
        || kind.eq_ignore_ascii_case("file")
        || kind.eq_ignore_ascii_case("reset")
        || kind.eq_ignore_ascii_case("button")
    {
        Control::Other
    } else {
        Control::Text
    }
}

#[tactic(auto, unfolding(crate::specs::Control::button_control))]
fn button_control(kind: Option<&str>) -> Control
    ensures { result ≡ button_control (option_map (λ kind. kind.now) kind.entry) }
{
    let Some(kind) = kind else {
        return Control::Submit;
    };
    if kind.eq_ignore_ascii_case("reset") || kind.eq_ignore_ascii_case("button") {
        Control::Other
    } else {
        Control::Submit
    }
}
