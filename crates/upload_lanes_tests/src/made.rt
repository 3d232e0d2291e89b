//! The uploads of all tests, and what is taken of them.
ghost use Rattle.std.specs.Prelude.{IfOk};
ghost use Rattle.upload_reader.specs.Upload.{IsUntouched};

use byte_streams::{Lines, Source};
use std::alloc::{AllocError, Global};
use std::test::Fail;
use stream_fakes::Drip;
use stream_fakes::lines::joined;
use upload_lanes::{Gathered, Stop};
use upload_reader::{Ending, LaneEnd, Upload};

pub(crate) const CLICK: &str = r#"{"t":"click","visit":1,"at":2,"target":"/html/body/a"}"#;

/// These lines and a front of another line, in one read.
pub(crate) fn piece(alloc: Global, lines: &[&str], front: &str) -> Result<Drip, AllocError> {
    let mut text = joined(alloc, lines)?;
    text.push_str(front)?;
    Drip::new(alloc, text.as_bytes(), 8_192)
}

/// Takes the hello.
pub(crate) fn begin<R: Source + Drop>(alloc: Global, reader: R) -> Result<Upload<R>, Fail>
    ensures { IfOk result IsUntouched }
{
    Upload::hello(alloc, Lines::over(alloc, reader)?).map_err(|refused| Fail::from(refused.fault))
}

const WHOLE: Option<Ending> = Some(Ending::Over(LaneEnd::Bye));

/// Whether all of two lanes came to their ends, with so many messages each.
pub(crate) fn are_whole<R: Source>(gathered: &Gathered<R>, taken: u64) -> bool {
    for lane in gathered.clients.values() {
        if lane.taken != taken || lane.end != WHOLE {
            return false;
        }
    }
    gathered.stop == Stop::None && gathered.clients.len() == 2
}
