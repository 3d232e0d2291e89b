//! Readers and writers for tests: they cut what they move into pieces, and fail where they are told to. And lines for them. No code of the server
//! uses them.
#![tactic(auto)]

pub mod lines;

use std::alloc::{AllocError, Global};
use std::io;
use std::io::{ErrorKind, Read, Write};

/// Gives its text in pieces of at most so many bytes. It fails once, before the byte at `gap`, and goes on behind it. It counts its reads.
#[derive(Drop)]
pub struct Drip {
    pub reads: u32,
    text: Vec<u8>,
    at: usize,
    piece: usize,
    gap: usize,
}

impl Drip {
    pub fn new(alloc: Global, text: &[u8], piece: usize) -> Result<Drip, AllocError> {
        Drip::failing(alloc, text, piece, usize::MAX)
    }

    pub fn failing(
        alloc: Global,
        text: &[u8],
        piece: usize,
        gap: usize,
    ) -> Result<Drip, AllocError> {
        let mut copy = Vec::new(alloc);
        copy.extend_from_slice(text)?;
        Ok(Drip {
            reads: 0,
            text: copy,
            at: 0,
            piece,
            gap,
        })
    }
}

impl Read for Drip {
    fn read(&mut self, buf: &mut [u8]) -> io::Result<usize> {
        self.reads = self.reads.saturating_add(1);
        if self.at == self.gap {
            self.gap = usize::MAX;
            return Err(io::Error::from(ErrorKind::BrokenPipe));
        }
        let rest = self.text.get(self.at..).unwrap_or(&[]);
        let before_gap = self.gap.saturating_sub(self.at);
        let count = self.piece.min(before_gap).min(rest.len()).min(buf.len());
        buf[..count].copy_from_slice(&rest[..count]);
        self.at = self.at.saturating_add(count);
        Ok(count)
    }
}

/// Gives an empty line a read. It counts its reads, and keeps the least and the greatest room that they were offered.
#[derive(Drop)]
pub struct Rooms {
    pub reads: u32,
    pub least: usize,
    pub greatest: usize,
}

impl Rooms {
    pub fn new() -> Rooms {
        Rooms {
            reads: 0,
            least: usize::MAX,
            greatest: 0,
        }
    }
}

impl Read for Rooms {
    fn read(&mut self, buf: &mut [u8]) -> io::Result<usize> {
        self.reads = self.reads.saturating_add(1);
        self.least = self.least.min(buf.len());
        self.greatest = self.greatest.max(buf.len());
        match buf.first_mut() {
            Some(first) => {
                *first = b'\n';
                Ok(1)
            }
            None => Ok(0),
        }
    }
}

/// What a writer does at the write that it was told of.
#[derive(Clone, Copy, Debug, PartialEq, Eq)]
pub enum Refusal {
    Fails,
    TakesNothing,
}

/// Takes at most so many bytes a write, and refuses one write of a given number, counted from 0.
#[derive(Drop)]
pub struct Sips {
    pub taken: Vec<u8>,
    pub writes: u32,
    pub flushes: u32,
    piece: usize,
    refusal: Option<(u32, Refusal)>,
}

impl Sips {
    pub fn new(alloc: Global, piece: usize, refusal: Option<(u32, Refusal)>) -> Sips {
        Sips {
            taken: Vec::new(alloc),
            writes: 0,
            flushes: 0,
            piece,
            refusal,
        }
    }
}

impl Write for Sips {
    fn write(&mut self, buf: &[u8]) -> io::Result<usize> {
        let number = self.writes;
        self.writes = number.saturating_add(1);
        match self.refusal {
            Some((at, Refusal::Fails)) if at == number => {
                return Err(io::Error::from(ErrorKind::BrokenPipe));
            }
            Some((at, Refusal::TakesNothing)) if at == number => return Ok(0),
            _ => {}
        }
        let count = self.piece.min(buf.len());
        self.taken.extend_from_slice(&buf[..count])?;
        Ok(count)
    }

    fn flush(&mut self) -> io::Result<()> {
        self.flushes = self.flushes.saturating_add(1);
        Ok(())
    }
}
