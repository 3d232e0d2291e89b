//! Writers that remember whether their last write moved bytes, any writer as one of them, and whole texts written to one.
ghost use Rattle.std.specs.Prelude.{◌≡◌, ◌<◌, length, [], ◌∷◌, ◌++◌, List, Some};
ghost use Rattle.std.specs.Io.{WritesAtMost};
ghost use Rattle.std.specs.Io.KnownBytes.{WriteAppends, Keeps};
ghost use Rattle.byte_streams.specs.Answers.{Answer, answer_of, last_moved_nothing};
ghost use Rattle.byte_streams.specs.Writing.{WritesText, writes_of};

use crate::history::History;
use std::io;
use std::io::Write;
use thiserror::Error;

/// A writer that tells whether its last write failed or took nothing. Contracts see what each of its writes answered.
///
/// Generic code writes by `put`, since of `write` it knows nothing but the contents.
pub trait Sink: Write {
    // What the writes answered so far.
    ghost puts: { Self → List Answer };
    // What they were offered.
    ghost offers: { Self → List Answer };

    /// Whether the last write failed or took nothing. Before the first it answers false.
    fn failed(&self) -> bool
        ensures { result ≡ last_moved_nothing (puts self.now) };

    /// One write, of which the writer tells that it was offered just these bytes. There is at least one, so where it takes none, the writer takes no more.
    fn put(&mut self, buf: &[u8]) -> io::Result<usize>
        requires some { 0 < length buf.now }
        ensures bound { WritesAtMost result buf.now }
        ensures bytes { WriteAppends (Self.contents self.old) (Self.contents self.new) result buf.now }
        ensures told { puts self.new ≡ puts self.old ++ answer_of result buf.now ∷ [] }
        ensures offered { offers self.new ≡ offers self.old ++ Some buf.now ∷ [] };
}

impl<S: Sink> Sink for &mut S {
    ghost puts = { λ sink. S.puts sink.now };

    ghost offers = { λ sink. S.offers sink.now };

    fn failed(&self) -> bool {
        (**self).failed()
    }

    fn put(&mut self, buf: &[u8]) -> io::Result<usize> {
        (**self).put(buf)
    }
}

/// Any writer as a sink. It takes no memory and keeps no bytes back.
#[derive(Drop)]
pub struct Told<W> {
    writer: W,
    failed: bool,
    history: History,
    offered: History,
    ghost agrees: { failed ≡ last_moved_nothing history.answers },
}

impl<W: Write> Told<W> {
    ghost use Rattle.byte_streams.specs.Streams.{told_writer, told_puts, told_offers};

    /// A sink that wasn't written to yet.
    pub fn new(writer: W) -> Told<W>
        ensures writer { told_writer result ≡ writer }
        ensures fresh { told_puts result ≡ [] }
        ensures none { told_offers result ≡ [] }
    {
        Told {
            writer,
            failed: false,
            history: History::new(),
            offered: History::new(),
        }
    }
}

impl<W: Write> Write for Told<W> {
    ghost use Rattle.byte_streams.specs.Streams.{told_writer, told_puts, told_offers};

    ghost contents = { λ told. W.contents (told_writer told) };

    fn write(&mut self, buf: &[u8]) -> io::Result<usize>
        ensures bound { WritesAtMost result buf.now }
        ensures bytes { WriteAppends (W.contents (told_writer self.old)) (W.contents (told_writer self.new)) result buf.now }
        ensures told { told_puts self.new ≡ told_puts self.old ++ answer_of result buf.now ∷ [] }
        ensures offered { told_offers self.new ≡ told_offers self.old ++ Some buf.now ∷ [] }
    {
        self.offered.moved(buf);
        match self.writer.write(buf) {
            Ok(count) => {
                self.failed = count == 0;
                self.history.moved(&buf[..count]);
                Ok(count)
            }
            Err(error) => {
                self.failed = true;
                self.history.failed();
                Err(error)
            }
        }
    }

    fn flush(&mut self) -> io::Result<()>
        ensures bytes { Keeps (W.contents (told_writer self.old)) (W.contents (told_writer self.new)) }
        ensures told { told_puts self.new ≡ told_puts self.old }
        ensures offered { told_offers self.new ≡ told_offers self.old }
    {
        self.writer.flush()
    }
}

impl<W: Write> Sink for Told<W> {
    ghost use Rattle.byte_streams.specs.Streams.{told_puts, told_offers};

    ghost puts = { λ told. told_puts told };

    ghost offers = { λ told. told_offers told };

    fn failed(&self) -> bool {
        self.failed
    }

    fn put(&mut self, buf: &[u8]) -> io::Result<usize> {
        self.write(buf)
    }
}

/// A write failed or took nothing, so a part of the text may be missing.
#[derive(Clone, Copy, Debug, PartialEq, Eq, Error)]
#[error("a write failed or took nothing")]
pub struct WriteFailed;

/// Writes the text, in as many writes as it takes. An empty text is no write.
pub fn write_text<W: Sink>(writer: &mut W, text: &[u8]) -> Result<(), WriteFailed>
    ensures { WritesText (writes_of W.puts W.contents writer.old writer.new) text.now result }
{
    let mut at = 0;
    while at < text.len() {
        match writer.put(&text[at..]) {
            Ok(0) => return Err(WriteFailed),
            Ok(count) => at += count,
            Err(_) => return Err(WriteFailed),
        }
    }
    Ok(())
}
