//! Lines that are cut from a source, each when it is asked for.
ghost use Rattle.std.specs.Prelude.{◌≡◌, ◌+◌, ◌<◌, ◌≤◌, nat_lt, [], length, option_map, Ok, Err, Some, None, IsNone, IfSome, IfOk, IfErr, OnOk, OnErr, MatchResult};
ghost use Rattle.std.specs.List.{position_or_len};
ghost use Rattle.std.specs.Borrow.{sem};
ghost use Rattle.std.specs.Io.BufRead.{Rests};
ghost use Rattle.byte_streams.specs.Answers.{failures_of};
ghost use Rattle.byte_streams.specs.Cutting.{cut, line_length, ending_of, is_line_feed, StopsAtEnd};
ghost use Rattle.byte_streams.specs.Reading.{input, uncut_bytes, WasRead, ReadsWhile, NoLineYet, StopsLine, Advances, failures_told};

use crate::fault::LineFault;
use crate::history::History;
use crate::limits::{MAX_READS, READ_BYTES};
use crate::source::Source;
use crate::window::Window;
use memchr::memchr;
use std::alloc::{AllocError, Global};
use std::marker::Model;
use std::snapshot::Snapshot;

/// A source that is read line by line. It reads only where the bytes that it has don't decide. Contracts see what was read of which reader, how far
/// that is cut, the last line, and the fault that is given for good.
#[derive(Drop)]
pub struct Lines<R: Source> {
    reader: R,
    first: Snapshot<R>,
    window: Window,
    chunk: Vec<u8>,
    reads: u32,
    fault: Option<LineFault>,
    history: History,
}

impl<R: Source> Model for Lines<R> {
    ghost use Rattle.std.specs.Prelude.{◌≡◌, ◌-◌, length, drop, vec_len};
    ghost use Rattle.byte_streams.specs.Answers.{bytes_of};
    ghost use Rattle.byte_streams.specs.Limits.{read_bytes};
    ghost use Rattle.byte_streams.specs.Reading.{Reading, WasRead};
    ghost use Rattle.byte_streams.specs.inside.{ReadsMade};

    ghost Value = { Reading R };

    ghost view = { λ l. record {
      first = l.first.value;
      answers = l.history.answers;
      place = length (bytes_of l.history.answers) - length l.window.kept;
      line = l.window.line;
      fault = l.fault;
    } };

    ghost invariant = { λ l. (vec_len l.chunk ≡ read_bytes)
        × ReadsMade l.history.answers l.reads l.fault
        × (drop (length (bytes_of l.history.answers) - length l.window.kept) (bytes_of l.history.answers) ≡ l.window.kept)
        × WasRead R.answers R.remaining l.first.value l.reader l.history.answers
        × (R.lender l.reader ≡ R.lender l.first.value) };
}

impl<R: Source> Lines<R> {
    ghost use Rattle.byte_streams.specs.Reading.{GivesNext};
    ghost use Rattle.byte_streams.specs.contracts.lines.Lines.{the_row};

    /// The lines of what the source gives from here on.
    pub fn over(alloc: Global, reader: R) -> Result<Lines<R>, AllocError>
    where
        R: Drop,
        ensures { IfOk result (λ lines. lines ≡ record { first = reader; answers = []; place = 0; line = []; fault = None }) }
    {
        let chunk = vec![in alloc; 0; READ_BYTES]?;
        Ok(Lines {
            first: Snapshot::of(&reader),
            reader,
            window: Window::new(alloc),
            chunk,
            reads: 0,
            fault: None,
            history: History::new(),
        })
    }

    /// The source, without what was read of it. No read was made after the input's end.
    pub fn into_reader(self) -> R
        ensures read { WasRead R.answers R.remaining self.first result self.answers }
        ensures same { R.lender result ≡ R.lender self.first }
        ensures ends { StopsAtEnd self.answers }
        ensures failures { failures_of self.answers ≡ failures_told self.fault }
    {
        self.reader
    }

    /// The allocator of the lines.
    pub fn allocator(&self) -> Global {
        *self.chunk.allocator()
    }

    /// The fault that it gives for good, if it had one.
    pub fn fault(&self) -> Option<LineFault>
        ensures { result ≡ self.now.fault }
    {
        self.fault
    }

    /// Whether it has bytes that aren't cut yet: behind the input's end, those of a line without its line end.
    pub fn has_rest(&self) -> bool
        ensures { result ≡ nat_lt 0 (length (uncut_bytes self.now)) }
    {
        !self.uncut().is_empty()
    }

    /// The line that the last call of `advance` cut, without its line end. Before the first call, and after a refused one, what it gives is left open.
    pub fn line(&self) -> &[u8]
        ensures { result.now ≡ self.now.line }
    {
        self.window.line()
    }

    /// Cuts the next line, of at most `limit` bytes without its line end. A fault is given for good.
    pub fn advance(&mut self, limit: usize) -> Result<(), LineFault>
        ensures { Advances limit self.old self.new result }
    {
        if let Some(fault) = self.fault {
            return Err(fault);
        }
        let count = self.find_line(limit)?;
        self.window.cut(count);
        Ok(())
    }

    /// The next line, of at most `limit` bytes without its line end, where what was read holds it: `advance` cuts it without a read.
    #[tactic(auto, using(crate::proofs::Searching::cut_line))]
    pub fn held_line(&self, limit: usize) -> Option<&[u8]>
        ensures line { IfSome result (λ line. (self.now.fault ≡ None)
            × (cut limit (uncut_bytes self.now) None ≡ Some (Ok line.now))) }
        ensures none { IsNone result → self.now.fault ≡ None → line_length limit (uncut_bytes self.now) ≡ None }
    {
        if self.fault.is_some() {
            return None;
        }
        let bytes = self.uncut();
        match line_feed_from(bytes, 0, limit) {
            Some(count) => Some(&bytes[..count]),
            None => None,
        }
    }

    /// The next line, of at most `limit` bytes without its line end.
    pub fn next_line(&mut self, limit: usize) -> Result<&[u8], LineFault>
        ensures* after_borrow { sem 𝓛 (Rests
            (the_row R.row (record { answers = R.answers; lender = R.lender }) (record { remaining = R.remaining }))
            self.entry (λ new. GivesNext limit self.old new result)) }
    {
        self.advance(limit)?;
        Ok(self.line())
    }

    // Reads until the bytes that aren't cut hold the next line, and tells its length; E4 where it is longer than the limit.
    fn find_line(&mut self, limit: usize) -> Result<usize, LineFault>
        requires going { self.old.fault ≡ None }
        ensures reads { ReadsWhile (NoLineYet limit self.old.place) self.old self.new }
        ensures place { self.new.place ≡ self.old.place }
        ensures length { IfOk result (λ count. line_length limit (uncut_bytes self.new) ≡ Some count) }
        ensures tells { IfErr result
            (λ fault. StopsLine fault (cut limit (uncut_bytes self.new) (ending_of self.new.answers))) }
        ensures fault { MatchResult result (λ _. self.new.fault ≡ None) (λ fault. self.new.fault ≡ Some fault) }
    {
        let mut scanned = 0;
        loop {
            if let Some(count) = line_feed_from(self.uncut(), scanned, limit) {
                return Ok(count);
            }
            scanned = self.uncut().len();
            if scanned > limit {
                return Err(keep(&mut self.fault, LineFault::LineTooLong));
            }
            self.fill()?;
        }
    }

    // The bytes that aren't cut yet.
    fn uncut(&self) -> &[u8]
        ensures { result.now ≡ uncut_bytes self.now }
    {
        self.window.kept()
    }

    // One read more, behind the bytes that aren't cut: E1, E2 or E3 where none gives bytes.
    #[tactic(auto, using(crate::proofs::ReadLaws::ended))]
    fn fill(&mut self) -> Result<(), LineFault>
        requires going { self.old.fault ≡ None }
        ensures reads { ReadsWhile (λ answers. answers ≡ self.old.answers) self.old self.new }
        ensures place { self.new.place ≡ self.old.place }
        ensures grows { OnOk result (length self.old.answers < length self.new.answers) }
        ensures nothing { OnErr result (input self.new ≡ input self.old) }
        ensures ends { IfErr result (λ fault. StopsLine fault (option_map Err (ending_of self.new.answers))) }
        ensures fault { MatchResult result (λ _. self.new.fault ≡ None) (λ fault. self.new.fault ≡ Some fault) }
    {
        if self.reads == MAX_READS {
            return Err(keep(&mut self.fault, LineFault::TooManyReads));
        }
        if let Err(_) = self.window.reserve(READ_BYTES) {
            return Err(keep(&mut self.fault, LineFault::NoMemory));
        }
        self.reads += 1;
        match self.reader.draw(&mut self.chunk) {
            Ok(0) => {
                self.history.moved(&[]);
                Err(keep(&mut self.fault, LineFault::Truncated))
            }
            Ok(count) => {
                let more = &self.chunk[..count];
                self.history.moved(more);
                self.window.append(more);
                Ok(())
            }
            Err(_) => {
                self.history.failed();
                Err(keep(&mut self.fault, LineFault::ReadFailed))
            }
        }
    }
}

// Keeps a fault, and gives it.
fn keep(place: &mut Option<LineFault>, fault: LineFault) -> LineFault
    ensures kept { place.new ≡ Some fault }
    ensures given { result ≡ fault }
{
    *place = Some(fault);
    fault
}

// Where the line ends, if the bytes hold its end. None ends it in the first `from` bytes.
#[tactic(auto, using(crate::proofs::Feeds::feed_within))]
fn line_feed_from(bytes: &[u8], from: usize, limit: usize) -> Option<usize>
    requires none_before { from ≤ position_or_len is_line_feed bytes.now }
    requires below { from ≤ limit }
    ensures length { result ≡ line_length limit bytes.now }
    ensures within { IfSome result (λ count. count < length bytes.now) }
    ensures short { IfSome result (λ count. count ≤ limit) }
{
    match memchr(b'\n', &bytes[from..]) {
        Some(count) if count <= limit - from => Some(from + count),
        _ => None,
    }
}
