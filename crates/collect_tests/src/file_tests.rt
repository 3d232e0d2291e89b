//! A client's file: what it holds, and what is read of each front of it.
use file_fakes::MemoryFile;
use std::alloc::Global;
use std::hash::RandomState;
use std::test::Fail;
use upload_files::{ClientFile, GrowingFile, Opening};
use upload_reader::Client;

const A1: &[u8] =
    b"{\"v\":\"a\",\"n\":1,\"t\":\"load\",\"at\":1,\"path\":\"/\",\"page\":{\"n\":\"html\"}}\n";

const A2: &[u8] = b"{\"v\":\"a\",\"n\":2,\"t\":\"end\",\"at\":3}\n";

const STORED: &[u8] = b"{\"t\":\"hello\",\"client\":\"c1\"}
{\"visit\":1,\"parent\":0,\"v\":\"a\",\"n\":1,\"t\":\"load\",\"at\":1,\"path\":\"/\",\"page\":{\"n\":\"html\"}}
{\"visit\":1,\"v\":\"a\",\"n\":2,\"t\":\"end\",\"at\":3}
";

// A file in memory that begins with these bytes, opened, where no call fails.
fn open(
    alloc: Global,
    keys: RandomState,
    bytes: &[u8],
    fails_at: u64,
) -> Result<Option<ClientFile<MemoryFile>>, Fail> {
    let mut file = MemoryFile::new(alloc, fails_at);
    if file.append(bytes).is_err() {
        return Ok(None);
    }
    let mut opening = Opening::new(alloc, Client::read(alloc, "c1")?, file, keys);
    for _ in 0..4 {
        match opening.step(alloc) {
            Ok(true) => {
                return match opening.finish(alloc) {
                    Ok(file) => Ok(Some(file)),
                    Err(_) => Ok(None),
                };
            }
            Ok(false) => {}
            Err(_) => return Ok(None),
        }
    }
    Ok(None)
}

// Whether the first bytes of the file, so many, are read as its whole lines, and it goes on to be all of it.
fn goes_on(alloc: Global, keys: RandomState, visit: &Client, len: usize) -> Result<bool, Fail> {
    let front = &STORED[..len.min(STORED.len())];
    let lines = front.iter().filter(|c| **c == b'\n').count() as u64;
    let Some(mut file) = open(alloc, keys, front, u64::MAX)? else {
        return Ok(false);
    };
    if file.have(visit) != lines.saturating_sub(1) {
        return Ok(false);
    }
    let is_taken = file.take(alloc, A1).is_ok() && file.take(alloc, A2).is_ok();
    let is_settled = is_taken && file.settle().is_ok() && file.refusal(visit).is_none();
    Ok(is_settled && file.into_file().bytes() == STORED)
}

#[test]
fn each_front_of_a_file_is_read_and_goes_on(rt: HostRuntime) -> Result<(), Fail> {
    let visit = Client::read(rt.alloc(), "a")?;
    for len in 0..STORED.len() {
        assert!(rt; goes_on(rt.alloc(), RandomState::new(&rt)?, &visit, len)?);
    }
    Ok(())
}

// How many bytes stay of a file that takes two bodies, as far as its calls let it.
fn settled_len(alloc: Global, file: &mut ClientFile<MemoryFile>) -> u64 {
    if file.take(alloc, A1).is_err() || file.settle().is_err() {
        return 0;
    }
    let settled = file.len();
    if file.take(alloc, A2).is_err() || file.settle().is_err() {
        return settled;
    }
    file.len()
}

// Whether what was settled is there, where the call of that number fails.
fn is_there(alloc: Global, keys: RandomState, fails_at: u64) -> Result<bool, Fail> {
    let Some(mut file) = open(alloc, keys, b"", fails_at)? else {
        return Ok(true);
    };
    let settled = settled_len(alloc, &mut file) as usize;
    let file = file.into_file();
    let bytes = file.bytes();
    Ok(settled <= bytes.len() && STORED.starts_with(&bytes[..settled.min(bytes.len())]))
}

#[test]
fn what_is_settled_is_there_whatever_call_fails(rt: HostRuntime) -> Result<(), Fail> {
    for fails_at in 0..12 {
        assert!(rt; is_there(rt.alloc(), RandomState::new(&rt)?, fails_at)?);
    }
    Ok(())
}

// How many calls it takes to open a file with these bytes.
const OPENING_CALLS: u64 = 5;

#[test]
fn what_was_synced_isnt_synced_again(rt: HostRuntime) -> Result<(), Fail> {
    let keys = RandomState::new(&rt)?;
    let Some(mut file) = open(rt.alloc(), keys, STORED, OPENING_CALLS)? else {
        return Err(Fail::new("not opened"));
    };
    assert!(rt; file.settle().is_ok());
    assert!(rt; file.take(rt.alloc(), A1).is_ok() && file.settle().is_ok());
    assert!(rt; file.into_file().sync().is_err());
    Ok(())
}
