//! The report, with a line for each upload.
ghost use Rattle.std.specs.Prelude.{◌≡◌, ◌++◌, codes, length};
ghost use Rattle.byte_streams.specs.Writing.{writes_of};
ghost use Rattle.warp_run.specs.Buffer.{AddsText};
ghost use Rattle.warp_run.specs.Report.{WritesReport, json_string, report_with};
ghost use Rattle.replay_folder.specs.Names.{named_name};
ghost use Rattle.replay_folder.specs.FolderReport.{hello_word, upload_line, upload_lines};

use crate::ends::UploadEnd;
use crate::names::Named;
use byte_streams::Sink;
use std::alloc::Global;
use upload_reader::HelloFault;
use warp_run::{
    Repaired, ReportBuffer, ReportFault, ReportRoom, add_end, add_lane_fault, add_quoted,
    add_repaired, add_stop,
};

/// Writes the report of a run, with the lines of the uploads behind the first.
pub(crate) fn report_folder<W: Sink>(
    alloc: Global,
    named: &[Named],
    ends: &[UploadEnd],
    repaired: &Repaired,
    writer: &mut W,
) -> Result<(), ReportFault>
    requires { length named.now ≡ length ends.now }
    ensures { WritesReport (writes_of W.puts W.contents writer.old writer.new)
        (report_with (upload_lines named.now ends.now) repaired.now) result }
{
    let mut buffer = ReportBuffer::new(alloc)?;
    let mut room = ReportRoom::new(alloc)?;
    add_stop(&mut buffer, writer, repaired.stop);
    add_uploads(&mut buffer, writer, named, ends);
    add_repaired(&mut buffer, &mut room, writer, repaired);
    buffer.finish(writer)
}

// Those of all, in their order.
fn add_uploads<W: Sink>(
    buffer: &mut ReportBuffer,
    writer: &mut W,
    named: &[Named],
    ends: &[UploadEnd],
)
    requires { length named.now ≡ length ends.now }
    ensures { AddsText W.puts W.contents writer.old buffer.old writer.new buffer.new (upload_lines named.now ends.now) }
{
    for k in 0..named.len() {
        add_upload(buffer, writer, &named[k], &ends[k]);
    }
}

fn add_upload<W: Sink>(buffer: &mut ReportBuffer, writer: &mut W, named: &Named, end: &UploadEnd)
    ensures { AddsText W.puts W.contents writer.old buffer.old writer.new buffer.new (upload_line (named.now, end.now)) }
{
    add_name(buffer, writer, named);
    match end {
        UploadEnd::Unopened => buffer.add(writer, " U5\n"),
        UploadEnd::NoHello(fault) => {
            buffer.add(writer, " ");
            add_hello_word(buffer, writer, *fault);
            buffer.add(writer, "\n");
        }
        UploadEnd::Taken { client, taken, end } => {
            buffer.add(writer, " client ");
            buffer.add(writer, client.text());
            buffer.add_with_number(writer, " taken ", *taken);
            buffer.add(writer, " end ");
            add_end(buffer, writer, *end);
            buffer.add(writer, "\n");
        }
        UploadEnd::Unread => buffer.add(writer, " none\n"),
    }
}

fn add_name<W: Sink>(buffer: &mut ReportBuffer, writer: &mut W, named: &Named)
    ensures { AddsText W.puts W.contents writer.old buffer.old writer.new buffer.new
        (codes "upload " ++ json_string (named_name named.now)) }
{
    buffer.add(writer, "upload ");
    match named {
        Named::File(name) => add_quoted(buffer, writer, name.as_str()),
        Named::Unlisted(word) => add_quoted(buffer, writer, word.as_str()),
    }
}

// Why an upload doesn't begin.
fn add_hello_word<W: Sink>(buffer: &mut ReportBuffer, writer: &mut W, fault: HelloFault)
    ensures { AddsText W.puts W.contents writer.old buffer.old writer.new buffer.new (hello_word fault) }
{
    match fault {
        HelloFault::Line { line, fault } => {
            buffer.add(writer, "U3.");
            add_lane_fault(buffer, writer, fault, line);
        }
        HelloFault::BadClient => buffer.add(writer, "U1"),
        HelloFault::NoHello => buffer.add(writer, "U2"),
        HelloFault::NoMemory => buffer.add(writer, "U4"),
    }
}
