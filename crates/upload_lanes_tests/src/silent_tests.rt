//! Clients that fall silent: what came of them before is recorded meanwhile.
ghost use Rattle.std.specs.Prelude.{IfOk};
ghost use Rattle.std.specs.List.{AllByRecursion};
ghost use Rattle.upload_reader.specs.Upload.{IsUntouched};

use crate::made::{CLICK, are_whole, begin, piece};
use byte_streams::Fed;
use client_log::Quota;
use lane_queue::Room;
use std::alloc::Global;
use std::io::{ErrorKind, Read};
use std::process::Abort;
use std::sync::atomic::{AtomicU64, Ordering};
use std::test::Fail;
use std::{io, thread};
use stream_fakes::Drip;
use stream_fakes::lines::{BYE, END, HELLO, LOAD, SECOND_HELLO};
use upload_lanes::gather;
use upload_reader::Upload;

/// How often a silent client looks before it gives up: some ten seconds.
const LOOKS: u32 = 20_000_000;

/// A reader that is silent behind its first piece, until two recorders have asked behind their second message. It fails where they don't.
#[derive(Drop)]
struct Silent<'c> {
    first: Drip,
    rest: Drip,
    recorded: &'c AtomicU64,
}

impl<'c> Read for Silent<'c> {
    fn read(&mut self, buf: &mut [u8]) -> io::Result<usize> {
        if self.first.reads == 0 {
            return self.first.read(buf);
        }
        for _ in 0..LOOKS {
            if self.recorded.load(Ordering::SeqCst) >= 2 {
                return self.rest.read(buf);
            }
            thread::yield_now();
        }
        Err(io::Error::from(ErrorKind::TimedOut))
    }
}

// Its first piece has two messages, and the front of the third.
fn silent_upload<'c>(
    alloc: Global,
    hello: &str,
    recorded: &'c AtomicU64,
) -> Result<Upload<Fed<Silent<'c>>>, Fail>
    ensures { IfOk result IsUntouched }
{
    let front = r#"{"t":"click","visit":1,"#;
    let first = piece(alloc, &[hello, LOAD, CLICK], front)?;
    let rest = piece(alloc, &[r#""at":2,"target":"/html/body/a"}"#, END, BYE], "")?;
    begin(
        alloc,
        Fed::new(Silent {
            first,
            rest,
            recorded,
        }),
    )
}

fn both<'c>(alloc: Global, recorded: &'c AtomicU64) -> Result<Vec<Upload<Fed<Silent<'c>>>>, Fail>
    ensures { IfOk result (λ uploads. AllByRecursion IsUntouched uploads.items) }
{
    let mut uploads = Vec::new(alloc);
    uploads.push(silent_upload(alloc, HELLO, recorded)?)?;
    uploads.push(silent_upload(alloc, SECOND_HELLO, recorded)?)?;
    Ok(uploads)
}

// No message waits for another one, also where several are handed over at once. Uploaders one after the other would have the first one's read fail, and so
// would recorders.
#[test]
fn what_came_is_recorded_while_clients_are_silent(rt: HostRuntime) -> Result<(), Fail> {
    let recorded = AtomicU64::new(0);
    let uploads = both(rt.alloc(), &recorded)?;
    let halt = |taken: u64| -> bool {
        if taken == 2 {
            recorded.fetch_add(1, Ordering::SeqCst);
        }
        false
    };
    let (quota, room) = (Quota::new(1_048_576)?, Room::new(1_024)?);
    let gathered = gather(&rt, uploads, quota, room, &halt)?;
    assert!(rt; are_whole(&gathered, 4));
    Ok(())
}
