//! The report of what was repaired. It is written as it is made, client by client, and asks for memory only before the first write.
ghost use Rattle.std.specs.Prelude.{◌≡◌, ◌++◌, [], Some, Err, codes, option_map, slice_get};
ghost use Rattle.std.specs.List.{flat_map};
ghost use Rattle.byte_streams.specs.Writing.{writes_of};
ghost use Rattle.upload_reader.specs.declared.ending.Ending.TheVariants.{Over};
ghost use Rattle.conflict_desk.specs.Book.{standing_in, standing_requests};
ghost use Rattle.conflict_desk.specs.declared.decided.Standing.TheVariants.{Waiting};
ghost use Rattle.std.specs.Option.{option_map_or};
ghost use Rattle.visit_replay.specs.inside.Tellings.{told_request};
ghost use Rattle.warp_run.specs.inside.{told_line};
ghost use Rattle.warp_run.specs.Buffer.{AddsText};
ghost use Rattle.warp_run.specs.Report as plain;
ghost use Rattle.warp_run.specs.Report.{WritesReport, report_text};

mod buffer;
mod fault;
mod fault_words;
mod quoting;
mod room;
mod stops;
mod telling;

use crate::repaired::{ClientSummary, PutDecision, Repaired};
pub use buffer::ReportBuffer;
use byte_streams::Sink;
use conflict_desk::{Case, Choice, Desk, DeskFault, OpenDocket, Standing};
pub use fault::ReportFault;
pub use fault_words::add_lane_fault;
use fault_words::desk_fault_code;
use lanes_in_turn::Stop;
pub use quoting::add_quoted;
pub use room::ReportRoom;
use std::alloc::Global;
use telling::add_request;
use upload_reader::{Ending, LaneEnd};
use visit_replay::{Contrast, Difference, Former, Outcome, Single, ToldRequest, conflict_code};

/// Writes the report: why the taking stopped, then each client with its visits and their requests, and then each decision with its answer. O1 where a write
/// fails or takes nothing, O2 where memory is refused, and then nothing is written.
pub fn report<W: Sink>(
    alloc: Global,
    repaired: &Repaired,
    writer: &mut W,
) -> Result<(), ReportFault>
    ensures { WritesReport (writes_of W.puts W.contents writer.old writer.new) (report_text repaired.now) result }
{
    let mut buffer = ReportBuffer::new(alloc)?;
    let mut room = ReportRoom::new(alloc)?;
    add_stop(&mut buffer, writer, repaired.stop);
    add_repaired(&mut buffer, &mut room, writer, repaired);
    buffer.finish(writer)
}

/// Adds the first line: why the taking stopped.
pub fn add_stop<W: Sink>(buffer: &mut ReportBuffer, writer: &mut W, stop: Stop)
    ensures { AddsText W.puts W.contents writer.old buffer.old writer.new buffer.new (plain.stop_line stop) }
{
    buffer.add(writer, stop_line(stop));
}

/// Adds the lines of clients and decisions.
pub fn add_repaired<'r, W: Sink>(
    buffer: &mut ReportBuffer,
    room: &mut ReportRoom<'r>,
    writer: &mut W,
    repaired: &'r Repaired,
)
    ensures { AddsText W.puts W.contents writer.old buffer.old writer.new buffer.new (plain.repaired_text repaired.now) }
{
    add_clients(
        buffer,
        room,
        writer,
        &repaired.desk,
        repaired.clients.as_slice(),
    );
    add_decisions(buffer, writer, repaired.decided.as_slice());
}

fn stop_line(stop: Stop) -> &'static str
    ensures { result.now ≡ plain.stop_line stop }
{
    match stop {
        Stop::None => "stop none\n",
        Stop::Asked => "stop asked\n",
        Stop::Memory => "stop memory\n",
    }
}

// ---- clients

fn add_clients<'r, W: Sink>(
    buffer: &mut ReportBuffer,
    room: &mut ReportRoom<'r>,
    writer: &mut W,
    desk: &'r Desk,
    clients: &[ClientSummary],
)
    ensures { AddsText W.puts W.contents writer.old buffer.old writer.new buffer.new
        (flat_map (plain.client_text desk.now) clients.now) }
{
    for client in clients {
        add_client(buffer, room, writer, desk, client);
    }
}

fn add_client<'r, W: Sink>(
    buffer: &mut ReportBuffer,
    room: &mut ReportRoom<'r>,
    writer: &mut W,
    desk: &'r Desk,
    client: &ClientSummary,
)
    ensures { AddsText W.puts W.contents writer.old buffer.old writer.new buffer.new
        (plain.client_text desk.now client.now) }
{
    add_client_line(buffer, writer, client);
    match desk.docket(&client.client) {
        Some(docket) => add_visits(buffer, room, writer, docket),
        None => {}
    }
}

fn add_client_line<W: Sink>(buffer: &mut ReportBuffer, writer: &mut W, client: &ClientSummary)
    ensures { AddsText W.puts W.contents writer.old buffer.old writer.new buffer.new (plain.client_line client.now) }
{
    buffer.add(writer, "client ");
    buffer.add(writer, client.client.text());
    buffer.add_with_number(writer, " taken ", client.taken);
    buffer.add(writer, " end ");
    add_end(buffer, writer, client.end);
    buffer.add_with_number(writer, " cost ", client.cost);
    buffer.add_with_number(writer, " lost ", client.lost);
    buffer.add(writer, "\n");
}

/// Adds how a lane ended.
pub fn add_end<W: Sink>(buffer: &mut ReportBuffer, writer: &mut W, end: Option<Ending>)
    ensures { AddsText W.puts W.contents writer.old buffer.old writer.new buffer.new (plain.end_word end) }
{
    match end {
        None => buffer.add(writer, "none"),
        Some(Ending::Over(end)) => add_lane_end(buffer, writer, end),
        Some(Ending::GaveUp) => buffer.add(writer, "gaveup"),
    }
}

fn add_lane_end<W: Sink>(buffer: &mut ReportBuffer, writer: &mut W, end: LaneEnd)
    ensures { AddsText W.puts W.contents writer.old buffer.old writer.new buffer.new (plain.end_word (Some (Over end))) }
{
    match end {
        LaneEnd::Bye => buffer.add(writer, "bye"),
        LaneEnd::Fault { line, kind } => add_lane_fault(buffer, writer, kind, line),
    }
}

// ---- visits

fn add_visits<'r, W: Sink>(
    buffer: &mut ReportBuffer,
    room: &mut ReportRoom<'r>,
    writer: &mut W,
    docket: &'r OpenDocket,
)
    ensures { AddsText W.puts W.contents writer.old buffer.old writer.new buffer.new (plain.book_text docket.now) }
{
    for (place, case) in docket.cases().iter().enumerate() {
        add_visit(buffer, room, writer, docket, place, case);
    }
}

// The visit of the case at that place; once a write failed, none.
fn add_visit<'r, W: Sink>(
    buffer: &mut ReportBuffer,
    room: &mut ReportRoom<'r>,
    writer: &mut W,
    docket: &'r OpenDocket,
    place: usize,
    case: &'r Case,
)
    requires { slice_get docket.now.cases place ≡ Some case.now }
    ensures { AddsText W.puts W.contents writer.old buffer.old writer.new buffer.new
        (plain.visit_text docket.now case.now) }
{
    if buffer.has_failed() {
        return;
    }
    let standing = docket.standing_at(place);
    add_visit_line(buffer, writer, case.visit, standing, &case.outcome);
    room.requests.begin(docket.requests_at(place));
    room.former.begin(former_of(&case.difference));
    add_requests(buffer, writer, room);
    add_changed(buffer, room, writer, standing, &case.difference);
}

fn add_visit_line<W: Sink>(
    buffer: &mut ReportBuffer,
    writer: &mut W,
    visit: u64,
    standing: Standing,
    outcome: &Outcome,
)
    ensures { AddsText W.puts W.contents writer.old buffer.old writer.new buffer.new
        (plain.visit_line visit standing outcome.now) }
{
    buffer.add_with_number(writer, "visit ", visit);
    buffer.add(writer, " ");
    buffer.add(writer, standing_word(standing));
    match outcome {
        Outcome::Untouched => buffer.add(writer, "\n"),
        Outcome::Done { .. } => buffer.add(writer, "\n"),
        Outcome::Conflict { at, kind, .. } => {
            buffer.add(writer, " ");
            buffer.add(writer, conflict_code(*kind));
            buffer.add_with_number(writer, " at ", *at);
            buffer.add(writer, "\n");
        }
    }
}

fn standing_word(standing: Standing) -> &'static str
    ensures { result.now ≡ plain.standing_word standing }
{
    match standing {
        Standing::Untouched => "untouched",
        Standing::Done => "done",
        Standing::Waiting => "waiting",
        Standing::Kept => "kept",
        Standing::Cancelled => "cancelled",
    }
}

// ---- requests

// Each, and behind it what it was, where it is another now; once a write failed, no more.
fn add_requests<W: Sink>(buffer: &mut ReportBuffer, writer: &mut W, room: &mut ReportRoom<'_>)
    ensures { AddsText W.puts W.contents writer.old buffer.old writer.new buffer.new
        (plain.told_requests room.old.former.1 room.old.requests.1) }
{
    while room.requests.advance() {
        if buffer.has_failed() {
            return;
        }
        room.former.advance();
        add_both(buffer, writer, room);
    }
}

// The request that is told now, and what it was, if that is told.
fn add_both<W: Sink>(buffer: &mut ReportBuffer, writer: &mut W, room: &ReportRoom<'_>)
    ensures { AddsText W.puts W.contents writer.old buffer.old writer.new buffer.new
        (told_line [] room.now.requests.0 ++ told_line (codes "was ") room.now.former.0) }
{
    add_told(buffer, writer, "", room.requests.told());
    add_told(buffer, writer, "was ", room.former.told());
}

// What is told, if anything, behind that word.
fn add_told<W: Sink>(
    buffer: &mut ReportBuffer,
    writer: &mut W,
    word: &str,
    told: Option<ToldRequest<'_>>,
)
    ensures { AddsText W.puts W.contents writer.old buffer.old writer.new buffer.new
        (told_line word.now (option_map told_request told.entry)) }
{
    match told {
        None => {}
        Some(request) => {
            buffer.add(writer, word);
            add_request(buffer, writer, &request);
        }
    }
}

fn former_of(difference: &Difference) -> Option<&Former>
    ensures { option_map_or (λ f. f.now) result [] ≡ plain.former_of difference.now }
{
    match difference.contrast() {
        Some(Contrast::Done { was }) => Some(was),
        Some(Contrast::Changed { .. }) => None,
        None => None,
    }
}

fn add_changed<'r, W: Sink>(
    buffer: &mut ReportBuffer,
    room: &mut ReportRoom<'r>,
    writer: &mut W,
    standing: Standing,
    difference: &'r Difference,
)
    ensures { AddsText W.puts W.contents writer.old buffer.old writer.new buffer.new
        (plain.changed_text standing difference.now) }
{
    match standing {
        Standing::Untouched => {}
        Standing::Done => {}
        Standing::Waiting => add_waiting(buffer, room, writer, difference),
        Standing::Kept => {}
        Standing::Cancelled => {}
    }
}

// Under a visit that waits at K11, what its event asked for, and what it asks for now.
fn add_waiting<'r, W: Sink>(
    buffer: &mut ReportBuffer,
    room: &mut ReportRoom<'r>,
    writer: &mut W,
    difference: &'r Difference,
)
    ensures { AddsText W.puts W.contents writer.old buffer.old writer.new buffer.new
        (plain.changed_text Waiting difference.now) }
{
    match difference.contrast() {
        None => {}
        Some(Contrast::Done { .. }) => {}
        Some(Contrast::Changed { was, now }) => {
            add_single(buffer, room, writer, "was ", was);
            add_single(buffer, room, writer, "now ", now);
        }
    }
}

fn add_single<'r, W: Sink>(
    buffer: &mut ReportBuffer,
    room: &mut ReportRoom<'r>,
    writer: &mut W,
    word: &str,
    single: &'r Option<Single>,
)
    ensures { AddsText W.puts W.contents writer.old buffer.old writer.new buffer.new
        (told_line word.now single.now) }
{
    match single {
        None => {}
        Some(single) => {
            room.requests.tell(single);
            add_told(buffer, writer, word, room.requests.told());
        }
    }
}

// ---- decisions

fn add_decisions<W: Sink>(buffer: &mut ReportBuffer, writer: &mut W, decided: &[PutDecision])
    ensures { AddsText W.puts W.contents writer.old buffer.old writer.new buffer.new
        (flat_map plain.decision_line decided.now) }
{
    for put in decided {
        add_decision(buffer, writer, put);
    }
}

fn add_decision<W: Sink>(buffer: &mut ReportBuffer, writer: &mut W, put: &PutDecision)
    ensures { AddsText W.puts W.contents writer.old buffer.old writer.new buffer.new (plain.decision_line put.now) }
{
    buffer.add(writer, "decide ");
    buffer.add(writer, put.decision.client.text());
    buffer.add_with_number(writer, " ", put.decision.visit);
    buffer.add(writer, " ");
    buffer.add(writer, choice_word(put.decision.choice));
    buffer.add(writer, " ");
    match put.answer {
        Ok(()) => buffer.add(writer, "ok\n"),
        Err(fault) => add_refusal(buffer, writer, fault),
    }
}

// Why a decision wasn't made, and the line's end.
fn add_refusal<W: Sink>(buffer: &mut ReportBuffer, writer: &mut W, fault: DeskFault)
    ensures { AddsText W.puts W.contents writer.old buffer.old writer.new buffer.new
        (plain.report_line (plain.answer_words (Err fault))) }
{
    buffer.add(writer, desk_fault_code(fault));
    match fault {
        DeskFault::NotFront(None) => buffer.add(writer, " front none\n"),
        DeskFault::NotFront(Some(front)) => {
            buffer.add_with_number(writer, " front ", front);
            buffer.add(writer, "\n");
        }
        DeskFault::NoClient => buffer.add(writer, "\n"),
        DeskFault::NoMemory => buffer.add(writer, "\n"),
    }
}

fn choice_word(choice: Choice) -> &'static str
    ensures { result.now ≡ plain.choice_word choice }
{
    match choice {
        Choice::Cancel => "cancel",
        Choice::Keep => "keep",
    }
}
