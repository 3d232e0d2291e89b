//! One run: the site line and one upload in, the report out.
ghost use Rattle.std.specs.Prelude.{◌≡◌, IfSome, IfNone, Some};
ghost use Rattle.byte_streams.specs.Reading.{WasRead};
ghost use Rattle.byte_streams.specs.Writing.{WritesNothing, writes_of};
ghost use Rattle.warp_run.specs.Run.{Meets, fresh_lines, IsReadOf};
ghost use Rattle.warp_run.specs.inside.{HasOnlyUpload};
ghost use Rattle.warp_run.specs.Intake.{IsOpened};

use crate::concluding::conclude;
use crate::ending::{status_of, written_status};
use crate::intake::read_input;
use crate::status::Status;
use byte_streams::{Lines, Sink, Source};
use lanes_in_turn::{Gathered, LaneResult, gather_alone};
use site_line::Site;
use std::hash::RandomState;
use std::random::RandomSource;
use std::sync::Wait;
use std::thread::Threads;
use upload_reader::Upload;

/// Reads a site line and an upload, replays what the log keeps of it on the site, puts the site's decisions, and writes the report. The upload is read and
/// recorded on the thread that calls, and its visits are replayed by the site's workers.
///
/// Status 0 says that the report was written. Nothing is written unless a site and a hello were read. A fault of a later line ends the upload and stands in the report; what stands behind it, or
/// behind the bye, is not looked at.
pub fn run<T: AllocGlobal + RandomSource + Threads + Wait + Sync, R: Source + Send, W: Sink>(
    rt: &T,
    reader: &mut R,
    writer: &mut W,
) -> Status
    ensures { Meets (WasRead R.answers R.remaining reader.old reader.new)
        (writes_of W.puts W.contents writer.old writer.new) result }
{
    let Ok(keys) = RandomState::new(rt) else {
        return Status::OutOfMemory;
    };
    let Ok(lines) = Lines::over(rt.alloc(), &mut *reader) else {
        return Status::OutOfMemory;
    };
    let Some((back, status)) = run_lines(rt, keys, lines, writer) else {
        return Status::OutOfMemory;
    };
    let _reader = back;
    status
}

// The same of the source's lines, with their reader; or nothing is written, since an allocation was refused.
fn run_lines<R: Source + Drop + Send, W: Sink, T: AllocGlobal + Threads + Wait + Sync>(
    rt: &T,
    keys: RandomState,
    lines: Lines<R>,
    writer: &mut W,
) -> Option<(R, Status)>
    requires fresh { lines ≡ fresh_lines lines.first }
    ensures same { IfSome result (λ both. R.lender both.0 ≡ R.lender lines.first) }
    ensures met { IfSome result (λ both. Meets (WasRead R.answers R.remaining lines.first both.0)
        (writes_of W.puts W.contents writer.old writer.new) both.1) }
    ensures nothing { IfNone result (WritesNothing (writes_of W.puts W.contents writer.old writer.new)) }
{
    match read_input(rt.alloc(), keys, lines) {
        Err(none) => Some((none.reader, none.status)),
        Ok((site, upload)) => run_upload(rt, &site, upload, writer),
    }
}

// The same of the upload behind the site.
fn run_upload<R: Source + Drop + Send, W: Sink, T: AllocGlobal + Threads + Wait + Sync>(
    rt: &T,
    site: &Site,
    upload: Upload<R>,
    writer: &mut W,
) -> Option<(R, Status)>
    requires opened { IsOpened site.now upload }
    ensures same { IfSome result (λ both. R.lender both.0 ≡ R.lender upload.lines.first) }
    ensures met { IfSome result (λ both. Meets (WasRead R.answers R.remaining upload.lines.first both.0)
        (writes_of W.puts W.contents writer.old writer.new) both.1) }
    ensures nothing { IfNone result (WritesNothing (writes_of W.puts W.contents writer.old writer.new)) }
{
    let Ok(gathered) = gather_alone(rt, upload, site.quota()) else {
        return None;
    };
    match conclude(rt, site, &gathered, writer) {
        Err(_) => None,
        Ok(concluded) => {
            let status = written_status(status_of(&gathered), concluded.report);
            Some((take_reader(gathered), status))
        }
    }
}

// The reader of the only lane.
fn take_reader<R: Source + Drop>(gathered: Gathered<R>) -> R
    requires { HasOnlyUpload gathered }
    ensures same { (has : HasOnlyUpload gathered) → R.lender result ≡ R.lender has.now.lines.first }
    ensures read { (has : HasOnlyUpload gathered)
        → IsReadOf (WasRead R.answers R.remaining) has.now.lines.first result has.now.lines.answers }
{
    let mut clients = gathered.clients;
    let Some((_, lane)) = clients.pop() else {
        unreachable!()
    };
    let LaneResult { upload, .. } = lane;
    let Some(upload) = upload else { unreachable!() };
    upload.into_reader()
}
