//! A request's line. What a form sends is added pair by pair.
ghost use Rattle.std.specs.Prelude.{[], ◌∷◌, ◌++◌, codes, decimal};
ghost use Rattle.std.specs.List.{flat_map};
ghost use Rattle.form_urlencoded.specs.Form.{byte_serialize, extend_pairs, serialize_pair};
ghost use Rattle.visit_replay.specs.declared.told.ToldRequest.TheVariants.{Form};
ghost use Rattle.visit_replay.specs.inside.FieldsNow.{pair_of};
ghost use Rattle.visit_replay.specs.inside.Tellings.{pairs_told, told_request};
ghost use Rattle.warp_run.specs.Buffer.{AddsText};
ghost use Rattle.warp_run.specs.Report.{json_string, request_line};
ghost use Rattle.warp_run.specs.inside.{form_start};

use super::buffer::ReportBuffer;
use super::quoting::{add_escaped, add_quoted};
use byte_streams::Sink;
use page_tree::ChildTexts;
use visit_replay::{SentPair, SentPairs, SentValue, ToldForm, ToldRequest};

pub(super) fn add_request<W: Sink>(
    buffer: &mut ReportBuffer,
    writer: &mut W,
    request: &ToldRequest<'_>,
)
    ensures { AddsText W.puts W.contents writer.old buffer.old writer.new buffer.new
        (request_line (told_request request.now)) }
{
    match request {
        ToldRequest::Load { address } => add_bare(buffer, writer, "load ", 0, address),
        ToldRequest::Link { number, address } => add_bare(buffer, writer, "get ", *number, address),
        ToldRequest::Form(form) => add_form(buffer, writer, form),
    }
}

// The line of one that sends no form: its method, its number and where it goes.
fn add_bare<W: Sink>(
    buffer: &mut ReportBuffer,
    writer: &mut W,
    method: &str,
    number: u64,
    address: &str,
)
    ensures { AddsText W.puts W.contents writer.old buffer.old writer.new buffer.new
        (method.now ++ decimal number ++ codes " " ++ json_string address.now ++ 10 ∷ []) }
{
    buffer.add_with_number(writer, method, number);
    buffer.add(writer, " ");
    add_quoted(buffer, writer, address);
    buffer.add(writer, "\n");
}

fn add_form<W: Sink>(buffer: &mut ReportBuffer, writer: &mut W, form: &ToldForm<'_>)
    ensures { AddsText W.puts W.contents writer.old buffer.old writer.new buffer.new
        (request_line (told_request (Form form.now))) }
{
    add_start(buffer, writer, form);
    add_pairs(buffer, writer, &form.pairs);
    buffer.add(writer, "\"\n");
}

// Its line up to the pairs. Under get these stand in the address.
fn add_start<W: Sink>(buffer: &mut ReportBuffer, writer: &mut W, form: &ToldForm<'_>)
    ensures { AddsText W.puts W.contents writer.old buffer.old writer.new buffer.new (form_start form.now) }
{
    if form.post {
        buffer.add_with_number(writer, "post ", form.number);
        buffer.add(writer, " ");
        add_quoted(buffer, writer, form.action);
        buffer.add(writer, " \"");
    } else {
        buffer.add_with_number(writer, "get ", form.number);
        buffer.add(writer, " \"");
        add_escaped(buffer, writer, form.start().as_bytes());
        buffer.add(writer, "?");
    }
}

// As `application/x-www-form-urlencoded`, of whose bytes a JSON string escapes none.
fn add_pairs<W: Sink>(buffer: &mut ReportBuffer, writer: &mut W, pairs: &SentPairs<'_>)
    ensures { AddsText W.puts W.contents writer.old buffer.old writer.new buffer.new
        (extend_pairs [] (pairs_told pairs.now)) }
{
    let mut mark = "";
    for place in 0..pairs.places() {
        let Some(pair) = pairs.at(place) else {
            continue;
        };
        buffer.add(writer, mark);
        add_pair(buffer, writer, &pair);
        mark = "&";
    }
}

fn add_pair<W: Sink>(buffer: &mut ReportBuffer, writer: &mut W, pair: &SentPair<'_>)
    ensures { AddsText W.puts W.contents writer.old buffer.old writer.new buffer.new
        (serialize_pair (pair_of pair.now)) }
{
    buffer.add_encoded(writer, pair.name);
    buffer.add(writer, "=");
    match pair.value {
        SentValue::Text(text) => buffer.add_encoded(writer, text),
        SentValue::Children { page, number } => {
            add_words(buffer, writer, page.child_texts_of(number));
        }
    }
}

// All in one word.
fn add_words<W: Sink>(buffer: &mut ReportBuffer, writer: &mut W, words: ChildTexts<'_>)
    ensures { AddsText W.puts W.contents writer.old buffer.old writer.new buffer.new
        (byte_serialize (flat_map (λ w. w) words.entry)) }
{
    let mut words = words;
    while let Some(word) = words.next() {
        buffer.add_encoded(writer, word);
    }
}
