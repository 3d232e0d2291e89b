//! The uploads of a round: so many callers come, and then the hello of each is read, in that order.
ghost use Rattle.std.specs.Prelude.{◌≡◌, ◌≢◌, length, map, IfOk, IfErr};
ghost use Rattle.std.specs.List.{AllByRecursion, Any, FoldsTo};
ghost use Rattle.byte_streams.specs.Reading.{WasRead};
ghost use Rattle.upload_reader.specs.declared.hello_fault.HelloFault.TheVariants.{NoMemory};
ghost use Rattle.warp_server.specs.program.Callers.{sayings, IsGreeted, BeginsBadly, CameWith, RoundFails};

use crate::program::callers::Callers;
use byte_streams::{Lines, Source};
use std::alloc::Global;
use upload_reader::{HelloFault, Upload};
use warp_run::{Status, no_hello};

/// The uploads of so many callers, in the order in which they came, each behind its hello.
pub(crate) fn accept_uploads<R: Source + Drop + Send, C: Callers<Reader = R>>(
    alloc: Global,
    callers: &mut C,
    lanes: u32,
) -> Result<Vec<Upload<R>>, Status>
    ensures ok { IfOk result (λ uploads. CameWith
        (sayings (WasRead R.answers R.remaining) C.brings C.brings_none C.takes_back)
        lanes callers.old uploads.items callers.new) }
    ensures refused { IfErr result (RoundFails
        (sayings (WasRead R.answers R.remaining) C.brings C.brings_none C.takes_back)
        lanes callers.old callers.new) }
{
    let readers = accept_all(alloc, callers, lanes)?;
    match greet_all(alloc, readers) {
        Ok(uploads) => Ok(uploads),
        Err(fault) => Err(no_hello(fault)),
    }
}

fn accept_all<R: Source + Drop + Send, C: Callers<Reader = R>>(
    alloc: Global,
    callers: &mut C,
    lanes: u32,
) -> Result<Vec<R>, Status>
    ensures count { IfOk result (λ readers. length readers.items ≡ lanes) }
    ensures brought { IfOk result (λ readers. FoldsTo C.brings callers.old readers.items callers.new) }
    ensures refused { IfErr result (RoundFails
        (sayings (WasRead R.answers R.remaining) C.brings C.brings_none C.takes_back)
        lanes callers.old callers.new) }
{
    let Ok(mut readers) = Vec::with_capacity(alloc, lanes as usize) else {
        return Err(Status::OutOfMemory);
    };
    for _ in 0..lanes {
        let Some(reader) = callers.accept() else {
            return Err(Status::InputOutput);
        };
        readers.push_reserved(reader);
    }
    Ok(readers)
}

// The upload of each source, in their order.
fn greet_all<R: Source + Drop>(alloc: Global, readers: Vec<R>) -> Result<Vec<Upload<R>>, HelloFault>
    ensures count { IfOk result (λ uploads. length uploads.items ≡ length readers.items) }
    ensures greeted { IfOk result (λ uploads. AllByRecursion IsGreeted uploads.items) }
    ensures sources { IfOk result (λ uploads. map (λ upload. upload.lines.first) uploads.items ≡ readers.items) }
    ensures refused { IfErr result (λ fault. fault ≢ NoMemory
        → Any (BeginsBadly (WasRead R.answers R.remaining)) readers.items) }
{
    let Ok(mut uploads) = Vec::with_capacity(alloc, readers.len()) else {
        return Err(HelloFault::NoMemory);
    };
    for reader in readers {
        match greet(alloc, reader) {
            Ok(upload) => uploads.push_reserved(upload),
            Err(fault) => return Err(fault),
        }
    }
    Ok(uploads)
}

// The upload behind the hello that the source begins with.
fn greet<R: Source + Drop>(alloc: Global, reader: R) -> Result<Upload<R>, HelloFault>
    ensures greeted { IfOk result IsGreeted }
    ensures source { IfOk result (λ upload. upload.lines.first ≡ reader) }
    ensures refused { IfErr result (λ fault. fault ≢ NoMemory → BeginsBadly (WasRead R.answers R.remaining) reader) }
{
    let Ok(lines) = Lines::over(alloc, reader) else {
        return Err(HelloFault::NoMemory);
    };
    match Upload::hello(alloc, lines) {
        Ok(upload) => Ok(upload),
        Err(refused) => {
            let _reader = refused.lines.into_reader();
            Err(refused.fault)
        }
    }
}
