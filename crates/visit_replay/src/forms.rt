//! What a form sends.
ghost use Rattle.std.specs.Prelude.{ℕ, List, ◌≡◌, ◌==◌, [], ◌∷◌, ◌&&◌, false, All, None, get_or, unwrap_or, IfOk, OnOk, option_map};
ghost use Rattle.std.specs.Cow.{cow_str_bytes};
ghost use Rattle.std.specs.List.{cons_option, flat_map};
ghost use Rattle.std.specs.Option.{option_map_or};
ghost use Rattle.form_urlencoded.specs.Form.{extend_pairs};
ghost use Rattle.page_tree.specs.Number.{place_numbered};
ghost use Rattle.page_tree.specs.Started.{text_started};
ghost use Rattle.visit_replay.specs.Form.{is_post, action_of};
ghost use Rattle.visit_replay.specs.inside.FieldsNow.{pair_of, pair_now, value_sent, with_pairs, told};
ghost use Rattle.visit_replay.specs.inside.Senders.{SaysCounted, IsSender, sent_all};

use crate::fields::Fields;
use crate::senders::{MaySend, Sender, unless_empty};
use form_urlencoded::Serializer;
use page_tree::{ChildTexts, NoMemory, Page, StartText, Text};
use std::alloc::Global;
use std::borrow::CowStr;

/// A page as it is filled in: with what its fields hold, and the number of the button that was pressed, if any.
#[derive(Drop)]
pub(crate) struct Filled<'a, 'v> {
    pub(crate) page: &'a Page,
    pub(crate) fields: &'a Fields<'v>,
    pub(crate) button: Option<u32>,
}

/// What a node sends.
#[derive(Clone, Copy)]
pub struct SentPair<'a> {
    pub name: &'a str,
    pub value: SentValue<'a>,
}

/// A text, or those among the children of the `textarea` with that number, as they are on the page.
#[derive(Clone, Copy)]
pub enum SentValue<'a> {
    Text(&'a str),
    Children { page: &'a Page, number: u32 },
}

/// The pairs of a form whose senders these are, as `application/x-www-form-urlencoded`: all of them, or those alone that count, whose names aren't fresh.
pub(crate) fn encoded(
    alloc: Global,
    filled: &Filled<'_, '_>,
    senders: &[Sender<'_>],
    counted: bool,
) -> Result<Text, NoMemory>
    requires { All (IsSender filled.now.page.now) senders.now }
    ensures { IfOk result (λ text. (names : List (List ℕ)) → All (SaysCounted counted names) senders.now
        → text ≡ extend_pairs [] (told counted names (sent_all filled.now senders.now))) }
{
    let mut pairs = Serializer::new(String::new(alloc));
    add_pairs(alloc, &mut pairs, filled, senders, counted)?;
    Ok(Text::from(pairs.finish()))
}

/// Whether the form's method is `post`.
pub(crate) fn is_post(page: &Page, form: u32) -> bool
    ensures { result ≡ is_post (place_numbered form page.now) page.now }
{
    match page.attribute_of(form, "method") {
        Some(method) => method.eq_ignore_ascii_case("post"),
        None => false,
    }
}

/// Where the form sends to: its action, or the visit's address where that is absent or empty.
pub(crate) fn action_of<'a>(address: &'a str, page: &'a Page, form: u32) -> &'a str
    ensures { result.now ≡ action_of address.now (place_numbered form page.now) page.now }
{
    unless_empty(page.attribute_of(form, "action")).unwrap_or(address)
}

// ---- the pairs

// Adds what these send.
fn add_pairs<'a>(
    alloc: Global,
    pairs: &mut Serializer,
    filled: &Filled<'a, '_>,
    senders: &'a [Sender<'_>],
    counted: bool,
) -> Result<(), NoMemory>
    requires { All (IsSender filled.now.page.now) senders.now }
    ensures { OnOk result ((names : List (List ℕ)) → All (SaysCounted counted names) senders.now
        → pairs.new ≡ with_pairs pairs.old (told counted names (sent_all filled.now senders.now))) }
{
    for sender in senders {
        add_pair(alloc, pairs, filled, sender, counted)?;
    }
    Ok(())
}

// Adds what one of them sends, if anything.
fn add_pair<'a>(
    alloc: Global,
    pairs: &mut Serializer,
    filled: &Filled<'a, '_>,
    sender: &'a Sender<'_>,
    counted: bool,
) -> Result<(), NoMemory>
    requires { IsSender filled.now.page.now sender.now }
    ensures { OnOk result ((names : List (List ℕ)) → SaysCounted counted names sender.now
        → pairs.new ≡ with_pairs pairs.old (told counted names (cons_option (pair_now filled.now sender.now.number) []))) }
{
    if is_passed_over(counted, sender) {
        return Ok(());
    }
    if let Some(sent) = sent_by(filled, sender) {
        append(alloc, pairs, &sent)?;
    }
    Ok(())
}

fn append(alloc: Global, pairs: &mut Serializer, sent: &SentPair<'_>) -> Result<(), NoMemory>
    ensures { OnOk result (pairs.new ≡ with_pairs pairs.old (pair_of sent.now ∷ [])) }
{
    let value = whole(alloc, sent.value)?;
    pairs.append_pair(sent.name, value.as_str())?;
    Ok(())
}

fn is_passed_over(counted: bool, sender: &Sender<'_>) -> bool
    ensures { result ≡ (counted && sender.now.is_fresh) }
{
    counted && sender.is_fresh
}

// ---- values

/// The value in one text.
pub(crate) fn whole<'a>(alloc: Global, value: SentValue<'a>) -> Result<CowStr<'a, Global>, NoMemory>
    ensures { IfOk result (λ text. cow_str_bytes text ≡ value_sent value.entry) }
{
    match value {
        SentValue::Text(text) => Ok(CowStr::Borrowed(text)),
        SentValue::Children { page, number } => joined(alloc, page.child_texts_of(number)),
    }
}

fn joined<'a>(alloc: Global, texts: ChildTexts<'a>) -> Result<CowStr<'a, Global>, NoMemory>
    ensures { IfOk result (λ text. cow_str_bytes text ≡ flat_map (λ w. w) texts.entry) }
{
    let mut texts = texts;
    let mut joined = String::new(alloc);
    while let Some(text) = texts.next() {
        joined.push_str(text)?;
    }
    Ok(CowStr::Owned(joined))
}

// ---- one node

/// What it sends, if anything.
pub(crate) fn sent_by<'a>(filled: &Filled<'a, '_>, sender: &'a Sender<'_>) -> Option<SentPair<'a>>
    requires { IsSender filled.now.page.now sender.now }
    ensures { option_map pair_of result ≡ pair_now filled.now sender.now.number }
{
    let fields = filled.fields;
    let number = sender.number;
    match &sender.sends {
        MaySend::Text { start } => Some(SentPair {
            name: sender.name,
            value: held(filled, number, *start),
        }),
        MaySend::IfOn { value, starts_on } if fields.is_on_from(*starts_on, number) => {
            Some(sent_as(sender, value))
        }
        MaySend::Always { value } => Some(sent_as(sender, value)),
        MaySend::IfPressed { value } if is_pressed(filled.button, number) => {
            Some(sent_as(sender, value))
        }
        _ => None,
    }
}

fn sent_as<'a>(sender: &'a Sender<'_>, value: &'a str) -> SentPair<'a>
    ensures { pair_of result ≡ (sender.now.name.now, value.now) }
{
    SentPair {
        name: sender.name,
        value: SentValue::Text(value),
    }
}

// The text that a field holds which started with that.
fn held<'a>(filled: &Filled<'a, '_>, number: u32, start: StartText<'a>) -> SentValue<'a>
    ensures { value_sent result ≡ unwrap_or
        (option_map (λ text. text.now) (get_or filled.now.fields.now.texts.items number None))
        (text_started filled.now.page.now number start.entry) }
{
    match filled.fields.typed(number) {
        Some(text) => SentValue::Text(text),
        None => match start {
            StartText::Whole(text) => SentValue::Text(text),
            StartText::OfChildren => SentValue::Children {
                page: filled.page,
                number,
            },
        },
    }
}

fn is_pressed(button: Option<u32>, number: u32) -> bool
    ensures { result ≡ option_map_or (λ pressed. pressed == number) button false }
{
    let Some(pressed) = button else {
        return false;
    };
    pressed == number
}
