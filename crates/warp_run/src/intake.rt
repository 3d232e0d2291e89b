//! The site and the upload behind it, read from the lines of a source.
ghost use Rattle.std.specs.Prelude.{◌≡◌, IfOk, IfErr};
ghost use Rattle.byte_streams.specs.Cutting.{ending_of};
ghost use Rattle.byte_streams.specs.Reading.{input, WasRead, ReadsWhile, NoLineYet};
ghost use Rattle.byte_streams.specs.Writing.{CallWrites, WritesNothing};
ghost use Rattle.upload_reader.specs.Upload.{Begins};
ghost use Rattle.warp_run.specs.Run.{max_site_bytes, ReadWhileUndecided, Meets, fresh_lines};
ghost use Rattle.warp_run.specs.Intake.{IsBehindSite, IsOpened, SaysNoSite, no_site, bad_site, no_hello};

use crate::status::Status;
use byte_streams::{LineFault, Lines, Source};
use site_line::{Site, SiteFault};
use std::alloc::Global;
use std::hash::RandomState;
use upload_reader::{HelloFault, Upload};

/// The longest site line, in bytes, without its line end.
const MAX_SITE_BYTES: usize = 1_048_576;

/// A source that gives no site with an upload behind it, and how the run ends.
#[derive(Drop)]
pub(crate) struct NoInput<R: Source> {
    pub(crate) reader: R,
    pub(crate) status: Status,
}

/// The site that the first line says, and the upload behind it, up to its hello.
pub(crate) fn read_input<R: Source>(
    alloc: Global,
    keys: RandomState,
    lines: Lines<R>,
) -> Result<(Site, Upload<R>), NoInput<R>>
    requires fresh { lines ≡ fresh_lines lines.first }
    ensures ok { IfOk result (λ both. IsOpened both.0 both.1) }
    ensures first { IfOk result (λ both. both.1.lines.first ≡ lines.first) }
    ensures same { IfErr result (λ none. R.lender none.reader ≡ R.lender lines.first) }
    ensures none { IfErr result (λ none. (writes : CallWrites) → WritesNothing writes
        → Meets (WasRead R.answers R.remaining lines.first none.reader) writes none.status) }
{
    let mut lines = lines;
    match read_site(alloc, keys, &mut lines) {
        Err(status) => {
            let reader = lines.into_reader();
            Err(NoInput { reader, status })
        }
        Ok(site) => match read_hello(alloc, lines, &site) {
            Ok(upload) => Ok((site, upload)),
            Err(none) => Err(none),
        },
    }
}

// The upload behind the site line.
fn read_hello<R: Source>(
    alloc: Global,
    lines: Lines<R>,
    site: &Site,
) -> Result<Upload<R>, NoInput<R>>
    requires needed { ReadWhileUndecided lines.answers }
    requires behind { IsBehindSite lines site.now }
    ensures ok { IfOk result (λ upload. Begins lines upload) }
    ensures same { IfErr result (λ none. R.lender none.reader ≡ R.lender lines.first) }
    ensures none { IfErr result (λ none. (writes : CallWrites) → WritesNothing writes
        → Meets (WasRead R.answers R.remaining lines.first none.reader) writes none.status) }
{
    match Upload::hello(alloc, lines) {
        Ok(upload) => Ok(upload),
        Err(refused) => {
            let reader = refused.lines.into_reader();
            let status = no_hello(refused.fault);
            Err(NoInput { reader, status })
        }
    }
}

/// The site that the first line says, which hashes texts by these keys; status 3 where it says none, 6 where a read failed.
pub fn read_site<R: Source>(
    alloc: Global,
    keys: RandomState,
    lines: &mut Lines<R>,
) -> Result<Site, Status>
    requires fresh { lines.old ≡ fresh_lines lines.old.first }
    ensures reads { ReadsWhile (NoLineYet max_site_bytes lines.old.place) lines.old lines.new }
    ensures site { IfOk result (IsBehindSite lines.new) }
    ensures refused { IfErr result (λ status. SaysNoSite status (input lines.new) (ending_of lines.new.answers)) }
{
    match lines.advance(MAX_SITE_BYTES) {
        Err(fault) => Err(no_site(fault)),
        Ok(()) => match Site::read(alloc, keys, lines.line()) {
            Err(fault) => Err(bad_site(fault)),
            Ok(site) => Ok(site),
        },
    }
}

fn no_site(fault: LineFault) -> Status
    ensures status { result ≡ no_site fault }
{
    match fault {
        LineFault::ReadFailed => Status::InputOutput,
        LineFault::NoMemory => Status::OutOfMemory,
        LineFault::TooManyReads | LineFault::Truncated | LineFault::LineTooLong => Status::BadSite,
    }
}

fn bad_site(fault: SiteFault) -> Status
    ensures status { result ≡ bad_site fault }
{
    match fault {
        SiteFault::NoMemory => Status::OutOfMemory,
        _ => Status::BadSite,
    }
}

/// Why an upload doesn't begin: status 4, but for want of memory.
pub fn no_hello(fault: HelloFault) -> Status
    ensures { result ≡ no_hello fault }
{
    match fault {
        HelloFault::NoMemory => Status::OutOfMemory,
        _ => Status::BadHello,
    }
}
