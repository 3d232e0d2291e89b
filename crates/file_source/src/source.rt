//! A file that is read from its start.
ghost use Rattle.std.specs.Prelude.{◌≡◌, ◌+◌, ◌<◌, ◌≤◌, ◌^◌, ◌++◌, ◌∷◌, [], length, take, drop, false, if◌then◌else◌, ◌==◌, Some, None, IfOk};
ghost use Rattle.std.specs.Io.{ReadsAtMost};
ghost use Rattle.std.specs.Io.KnownBytes.{ReadConsumes};
ghost use Rattle.byte_streams.specs.Answers.{answer_of, bytes_of};
ghost use Rattle.byte_streams.specs.Cutting.{ending_of};
ghost use Rattle.byte_streams.specs.declared.source.Last.TheVariants.{Nothing, Bytes};
ghost use Rattle.byte_streams.specs.declared.fault.LineFault.TheVariants.{Truncated};
ghost use Rattle.file_source.specs.Source.{unread_of};

use byte_streams::{History, Last, Source};
use std::io;
use std::io::{ErrorKind, Read};
use std::marker::Model;
use upload_files::{FileFault, GrowingFile};

/// A file that is read from its start, and nobody writes to meanwhile. Contracts see the file, and what the reads answered.
#[derive(Drop)]
pub struct FileSource<F: GrowingFile> {
    file: F,
    at: u64,
    last: Last,
    history: History,
}

impl<F: GrowingFile> Model for FileSource<F> {
    ghost use Rattle.file_source.specs.Source.{ReadFile};
    ghost use Rattle.file_source.specs.inside.{IsReadUpTo};

    ghost Value = { ReadFile F };

    ghost view = { λ s. record { file = s.file; answers = s.history.answers } };

    ghost invariant = { λ s. IsReadUpTo F.seen F.lost s.file s.history.answers s.at s.last };
}

impl<F: GrowingFile> FileSource<F> {
    /// The file, of which nothing was read.
    pub fn new(file: F) -> FileSource<F>
        ensures { result ≡ record { file = file; answers = [] } }
    {
        FileSource {
            file,
            at: 0,
            last: Last::Fresh,
            history: History::new(),
        }
    }

    /// How many bytes were read.
    pub fn count(&self) -> u64
        ensures { result ≡ length (bytes_of self.now.answers) }
    {
        self.at
    }

    /// The file. Where its end was met, it has just the bytes that were read.
    pub fn into_file(self) -> F
        ensures file { result ≡ self.file }
        ensures whole { F.lost self.file ≡ false → ending_of self.answers ≡ Some Truncated
            → F.seen self.file ≡ bytes_of self.answers }
    {
        self.file
    }
}

impl<F: GrowingFile> Read for FileSource<F> {
    ghost use Rattle.file_source.specs.Source.{unread_of};

    ghost remaining = { λ source. unread_of F.seen F.lost source };

    // One that is offered no room fails: its answer would be that of the file's end.
    fn read(&mut self, buf: &mut [u8]) -> io::Result<usize>
        ensures bound { ReadsAtMost result buf.new }
        ensures bytes { ReadConsumes (unread_of F.seen F.lost self.old) (unread_of F.seen F.lost self.new) result buf.new }
        ensures told { self.new.answers ≡ self.old.answers ++ answer_of result buf.new ∷ [] }
    {
        match read_on(&mut self.file, self.at, buf) {
            Ok(count) => {
                self.at += count as u64;
                self.last = ended_as(count);
                self.history.moved(&buf[..count]);
                Ok(count)
            }
            Err(_) => {
                self.last = Last::Failed;
                self.history.failed();
                Err(io::Error::from(ErrorKind::Other))
            }
        }
    }
}

impl<F: GrowingFile + Send> Source for FileSource<F> {
    ghost answers = { λ source. source.answers };

    ghost lender = { λ _. None };

    fn last(&self) -> Last {
        self.last
    }

    fn draw(&mut self, buf: &mut [u8]) -> io::Result<usize> {
        self.read(buf)
    }
}

// Reads from there on, where there is room and the place behind can be told.
fn read_on<F: GrowingFile>(file: &mut F, at: u64, buf: &mut [u8]) -> Result<usize, FileFault>
    ensures bound { IfOk result (λ count. count ≤ length buf.new) }
    ensures fits { IfOk result (λ count. at + count < 2 ^ 64) }
    ensures bytes { F.lost file.old ≡ false
        → IfOk result (λ count. take count buf.new ≡ take count (drop at (F.seen file.old))) }
    ensures end { IfOk result (λ count. count ≡ 0 → length (F.seen file.old) ≤ at) }
    ensures seen { F.seen file.new ≡ F.seen file.old }
    ensures lost { F.lost file.new ≡ F.lost file.old }
{
    if buf.is_empty() {
        return Err(FileFault::Failed);
    }
    let count = file.read_at(at, buf)?;
    match at.checked_add(count as u64) {
        Some(_) => Ok(count),
        None => Err(FileFault::Failed),
    }
}

// How a read of so many bytes ended.
fn ended_as(count: usize) -> Last
    ensures { result ≡ (if count == 0 then Nothing else Bytes) }
{
    if count == 0 {
        Last::Nothing
    } else {
        Last::Bytes
    }
}
