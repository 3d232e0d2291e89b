//! The report, in memory.
ghost use Rattle.std.specs.Prelude.{◌≡◌, ◌++◌, ◌∷◌, [], OnOk, Some};
ghost use Rattle.std.specs.Io.{WritesAtMost};
ghost use Rattle.std.specs.Io.KnownBytes.{WriteAppends, Keeps};
ghost use Rattle.byte_streams.specs.Answers.{answer_of, last_moved_nothing};
ghost use Rattle.http_server.specs.Response.{IsBlank};
ghost use Rattle.review_service.specs.Fields.{IsHtmlPage};
ghost use Rattle.review_service.specs.Showing.{ShowsReport};

use crate::pages::{Why, say_why};
use crate::texts::say_text;
use byte_streams::{History, Sink, Source};
use http::StatusCode;
use http_server::Response;
use page_tree::NoMemory;
use replay_folder::{Replayed, report_replayed};
use std::alloc::{AllocError, Global};
use std::io;
use std::io::{ErrorKind, Write};
use warp_run::ReportFault;

// A report of more bytes is told by no page.
const MAX_REPORT: usize = 64 << 20;

/// A text in memory that takes so many bytes.
#[derive(Drop)]
pub(crate) struct BoundedText {
    bytes: Vec<u8>,
    is_full: bool,
    failed: bool,
    puts: History,
    offers: History,
    ghost agrees: { failed ≡ last_moved_nothing puts.answers },
}

impl BoundedText {
    fn new(alloc: Global) -> BoundedText
        ensures bytes { result.bytes.items ≡ [] }
        ensures fresh { result.puts.answers ≡ [] }
    {
        BoundedText {
            bytes: Vec::new(alloc),
            is_full: false,
            failed: false,
            puts: History::new(),
            offers: History::new(),
        }
    }

    // Adds these bytes where they fit.
    fn add(&mut self, buf: &[u8]) -> io::Result<usize>
        ensures bound { WritesAtMost result buf.now }
        ensures bytes { WriteAppends (Some self.old.bytes.items) (Some self.new.bytes.items) result buf.now }
        ensures puts { self.new.puts ≡ self.old.puts }
        ensures offers { self.new.offers ≡ self.old.offers }
    {
        if buf.len() > MAX_REPORT.saturating_sub(self.bytes.len()) {
            self.is_full = true;
            return Err(io::Error::from(ErrorKind::FileTooLarge));
        }
        match self.bytes.extend_from_slice(buf) {
            Ok(()) => Ok(buf.len()),
            Err(_) => Err(io::Error::from(ErrorKind::OutOfMemory)),
        }
    }
}

impl Write for BoundedText {
    ghost contents = { λ text. Some text.bytes.items };

    fn write(&mut self, buf: &[u8]) -> io::Result<usize>
        ensures bound { WritesAtMost result buf.now }
        ensures bytes { WriteAppends (Some self.old.bytes.items) (Some self.new.bytes.items) result buf.now }
        ensures told { self.new.puts.answers ≡ self.old.puts.answers ++ answer_of result buf.now ∷ [] }
        ensures offered { self.new.offers.answers ≡ self.old.offers.answers ++ Some buf.now ∷ [] }
    {
        self.offers.moved(buf);
        match self.add(buf) {
            Ok(count) => {
                self.failed = count == 0;
                self.puts.moved(&buf[..count]);
                Ok(count)
            }
            Err(error) => {
                self.failed = true;
                self.puts.failed();
                Err(error)
            }
        }
    }

    fn flush(&mut self) -> io::Result<()> {
        Ok(())
    }
}

impl Sink for BoundedText {
    ghost puts = { λ text. text.puts.answers };

    ghost offers = { λ text. text.offers.answers };

    fn failed(&self) -> bool {
        self.failed
    }

    fn put(&mut self, buf: &[u8]) -> io::Result<usize> {
        self.write(buf)
    }
}

/// The report as `replay` writes it. One that is too long is told by a page.
pub(crate) fn show_report<R: Source>(
    alloc: Global,
    replayed: &Replayed<R>,
    response: &mut Response,
) -> Result<(), NoMemory>
    requires { IsBlank response.old }
    ensures { OnOk result (ShowsReport replayed.now response.new) }
{
    let mut text = BoundedText::new(alloc);
    match report_replayed(alloc, replayed, &mut text) {
        Ok(()) => say_text(text.bytes, response),
        Err(ReportFault::WriteFailed) => if text.is_full {
            say_too_long(alloc, replayed, response)
        } else {
            Err(AllocError)
        },
        Err(ReportFault::NoMemory) => Err(AllocError),
    }
}

fn say_too_long<R: Source>(
    alloc: Global,
    replayed: &Replayed<R>,
    response: &mut Response,
) -> Result<(), NoMemory>
    requires { IsBlank response.old }
    ensures { OnOk result (IsHtmlPage 503 response.new) }
{
    let why = Why {
        head: "Report",
        answer: "More than 64 MiB.",
        text: "Such a report isn't shown here. `warp_server replay`, with the site file and the uploads that this program was called with, writes it.",
        href: "/",
        link: "To the overview",
    };
    say_why(
        alloc,
        &replayed.repaired,
        StatusCode::SERVICE_UNAVAILABLE,
        why,
        response,
    )
}
