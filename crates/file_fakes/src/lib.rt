//! A file in memory for tests: it fails at the call that it is told to. No code of the server uses it.
#![tactic(auto)]

ghost use Rattle.std.specs.Prelude.{◌≡◌, length, take, min};

use std::alloc::Global;
use upload_files::{FileFault, GrowingFile};

/// Its calls are counted from 0; that of this number fails. An append that fails leaves half of its bytes.
#[derive(Drop)]
pub struct MemoryFile {
    bytes: Vec<u8>,
    synced: u64,
    lost: bool,
    calls: u64,
    fails_at: u64,
}

impl MemoryFile {
    pub fn new(alloc: Global, fails_at: u64) -> MemoryFile {
        MemoryFile {
            bytes: Vec::new(alloc),
            synced: 0,
            lost: false,
            calls: 0,
            fails_at,
        }
    }

    /// What a read gives.
    pub fn bytes(&self) -> &[u8]
        ensures { result.now ≡ self.now.bytes.items }
    {
        &self.bytes
    }

    // Counts a call, and tells whether it fails.
    fn fails(&mut self) -> bool
        ensures bytes { self.new.bytes ≡ self.old.bytes }
        ensures synced { self.new.synced ≡ self.old.synced }
        ensures lost { self.new.lost ≡ self.old.lost }
    {
        let fails = self.calls == self.fails_at;
        self.calls = self.calls.wrapping_add(1);
        fails
    }
}

impl GrowingFile for MemoryFile {
    ghost seen = { λ file. file.bytes.items };

    ghost durable = { λ file. file.synced };

    ghost lost = { λ file. file.lost };

    fn read_at(&mut self, at: u64, buf: &mut [u8]) -> Result<usize, FileFault> {
        if self.fails() {
            return Err(FileFault::Failed);
        }
        if at >= self.bytes.len() as u64 {
            return Ok(0);
        }
        Ok(copy_front(&self.bytes[at as usize..], buf))
    }

    fn append(&mut self, bytes: &[u8]) -> Result<(), FileFault> {
        if self.fails() {
            let _half = self.bytes.extend_from_slice(&bytes[..bytes.len() / 2]);
            return Err(FileFault::Full);
        }
        match self.bytes.extend_from_slice(bytes) {
            Ok(()) => Ok(()),
            Err(_) => Err(FileFault::Full),
        }
    }

    fn cut(&mut self, len: u64) -> Result<(), FileFault> {
        self.synced = self.synced.min(len);
        if self.fails() {
            return Err(FileFault::Failed);
        }
        if len < self.bytes.len() as u64 {
            self.bytes.truncate(len as usize);
        }
        Ok(())
    }

    fn sync(&mut self) -> Result<(), FileFault> {
        if self.fails() {
            self.lost = true;
            return Err(FileFault::Failed);
        }
        self.synced = self.bytes.len() as u64;
        Ok(())
    }
}

// As many of the bytes as there is room for.
fn copy_front(bytes: &[u8], room: &mut [u8]) -> usize
    ensures count { result ≡ min (length bytes.now) (length room.old) }
    ensures copied { take result room.new ≡ take result bytes.now }
{
    let count = bytes.len().min(room.len());
    room[..count].copy_from_slice(&bytes[..count]);
    count
}
