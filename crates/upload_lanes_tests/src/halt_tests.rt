//! When it is asked whether to stop: what comes while messages are taken is heard.
ghost use Rattle.std.specs.Prelude.{IfOk};
ghost use Rattle.std.specs.List.{AllByRecursion};
ghost use Rattle.upload_reader.specs.Upload.{IsUntouched};

use crate::made::{CLICK, begin, piece};
use byte_streams::Fed;
use client_log::Quota;
use lane_queue::Room;
use std::alloc::Global;
use std::io;
use std::io::Read;
use std::process::Abort;
use std::sync::atomic::{AtomicU64, Ordering};
use std::test::Fail;
use stream_fakes::Drip;
use stream_fakes::lines::{BYE, END, HELLO, LOAD};
use upload_lanes::{Stop, gather};
use upload_reader::Upload;

/// A reader that counts the reads behind its first piece.
#[derive(Drop)]
struct Counts<'c> {
    first: Drip,
    rest: Drip,
    reads: &'c AtomicU64,
}

impl<'c> Read for Counts<'c> {
    fn read(&mut self, buf: &mut [u8]) -> io::Result<usize> {
        if self.first.reads == 0 {
            return self.first.read(buf);
        }
        self.reads.fetch_add(1, Ordering::SeqCst);
        self.rest.read(buf)
    }
}

// Its first piece has two messages.
fn counted<'c>(alloc: Global, reads: &'c AtomicU64) -> Result<Vec<Upload<Fed<Counts<'c>>>>, Fail>
    ensures { IfOk result (λ uploads. AllByRecursion IsUntouched uploads.items) }
{
    let first = piece(alloc, &[HELLO, LOAD, CLICK], "")?;
    let rest = piece(alloc, &[CLICK, CLICK, END, BYE], "")?;
    let mut uploads = Vec::new(alloc);
    uploads.push(begin(alloc, Fed::new(Counts { first, rest, reads }))?)?;
    Ok(uploads)
}

// It is answered by true once the second piece was read, which is so for the third message.
#[test]
fn a_stop_on_the_way_is_heard(rt: HostRuntime) -> Result<(), Fail> {
    let reads = AtomicU64::new(0);
    let uploads = counted(rt.alloc(), &reads)?;
    let halt = |_taken: u64| -> bool { reads.load(Ordering::SeqCst) > 0 };
    let gathered = gather(&rt, uploads, Quota::new(1_048_576)?, Room::new(2)?, &halt)?;
    assert!(rt; gathered.stop == Stop::Asked && gathered.clients.len() == 1);
    for lane in gathered.clients.values() {
        assert!(rt; lane.taken == 3 && lane.end.is_none());
    }
    Ok(())
}
