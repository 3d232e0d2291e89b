//! Readers that remember how their last read ended, and any reader as one of them.
ghost use Rattle.std.specs.Prelude.{◌≡◌, length, [], ◌∷◌, ◌++◌, List, Option, Some, None};
ghost use Rattle.std.specs.Borrow.{GName};
ghost use Rattle.std.specs.Io.{ReadsAtMost};
ghost use Rattle.std.specs.Io.KnownBytes.{ReadConsumes};
ghost use Rattle.byte_streams.specs.Answers.{Answer, answer_of, last_read};
ghost use Rattle.byte_streams.specs.Limits.{read_bytes};

use crate::history::History;
use std::io;
use std::io::Read;

/// How the last read of a source ended.
#[derive(Clone, Copy, Debug, PartialEq, Eq)]
pub enum Last {
    /// There was none.
    Fresh,
    /// It gave bytes.
    Bytes,
    /// It gave none: the end of the input.
    Nothing,
    /// It failed.
    Failed,
}

/// A reader that tells how its last read ended. Contracts see what each of its reads answered.
///
/// Generic code reads by `draw`, since of `read` it knows nothing but the bytes that are left.
pub trait Source: Read + Send {
    // What the reads answered so far.
    ghost answers: { Self → List Answer };
    // Which reference it is, where it is one: what was read on it was read on what it refers to.
    ghost lender: { Self → Option GName };

    /// How the last read ended.
    fn last(&self) -> Last
        ensures { result ≡ last_read (answers self.now) };

    /// One read, which is offered just 8,192 bytes, wherever it is passed on. So where it gives none, the input has ended.
    fn draw(&mut self, buf: &mut [u8]) -> io::Result<usize>
        requires room { length buf.old ≡ read_bytes }
        ensures bound { ReadsAtMost result buf.new }
        ensures bytes { ReadConsumes (Self.remaining self.old) (Self.remaining self.new) result buf.new }
        ensures told { answers self.new ≡ answers self.old ++ answer_of result buf.new ∷ [] }
        ensures same { lender self.new ≡ lender self.old };
}

impl<S: Source> Source for &mut S {
    ghost answers = { λ source. S.answers source.now };

    ghost lender = { λ source. Some source.ghost_name };

    fn last(&self) -> Last {
        (**self).last()
    }

    fn draw(&mut self, buf: &mut [u8]) -> io::Result<usize> {
        (**self).draw(buf)
    }
}

/// Any reader as a source. It takes no memory and reads nothing ahead.
#[derive(Drop)]
pub struct Fed<R> {
    reader: R,
    last: Last,
    history: History,
    ghost agrees: { last ≡ last_read history.answers },
}

impl<R: Read> Fed<R> {
    ghost use Rattle.byte_streams.specs.Streams.{fed_reader, fed_answers};

    /// A source that wasn't read yet.
    pub fn new(reader: R) -> Fed<R>
        ensures reader { fed_reader result ≡ reader }
        ensures fresh { fed_answers result ≡ [] }
    {
        Fed {
            reader,
            last: Last::Fresh,
            history: History::new(),
        }
    }
}

impl<R: Read> Read for Fed<R> {
    ghost use Rattle.byte_streams.specs.Streams.{fed_reader, fed_answers};

    ghost remaining = { λ fed. R.remaining (fed_reader fed) };

    fn read(&mut self, buf: &mut [u8]) -> io::Result<usize>
        ensures bound { ReadsAtMost result buf.new }
        ensures bytes { ReadConsumes (R.remaining (fed_reader self.old)) (R.remaining (fed_reader self.new)) result buf.new }
        ensures told { fed_answers self.new ≡ fed_answers self.old ++ answer_of result buf.new ∷ [] }
    {
        match self.reader.read(buf) {
            Ok(count) => {
                self.last = if count == 0 {
                    Last::Nothing
                } else {
                    Last::Bytes
                };
                self.history.moved(&buf[..count]);
                Ok(count)
            }
            Err(error) => {
                self.last = Last::Failed;
                self.history.failed();
                Err(error)
            }
        }
    }
}

impl<R: Read + Send> Source for Fed<R> {
    ghost use Rattle.byte_streams.specs.Streams.{fed_answers};

    ghost answers = { λ fed. fed_answers fed };

    ghost lender = { λ _. None };

    fn last(&self) -> Last {
        self.last
    }

    fn draw(&mut self, buf: &mut [u8]) -> io::Result<usize> {
        self.read(buf)
    }
}
